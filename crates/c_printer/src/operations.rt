//! Operations: the declaration of each, and its function.

ghost use Rattle.std.specs.Prelude.{◌≡◌, ◌++◌, OnOk};
ghost use Rattle.c_printer.specs.Operations.{operation_begin, caller_parameter, argument_text, argument_texts, reply_parameter, signature_text, declaration_end, declaration_text, declaration_texts, operation_head, given_text, given_texts, operation_function, operation_texts};
ghost use Rattle.c_printer.specs.Functions.{function_text};
ghost use Rattle.c_printer.specs.Names.{names_of};
ghost use Rattle.c_printer.specs.declared.locals.Table.TheVariants.{Operations};

use crate::filling::put_filled;
use crate::functions::{put_body, put_names};
use crate::locals::Table;
use crate::templates::{ARGUMENT, CALLER, DECLARED, GIVEN, OPERATION, OPERATION_HEAD, REPLY};
use c_language::lines::Line;
use norm_lang::list::Listed;
use norm_lang::text::ByteText;
use std::alloc::{AllocError, Global};

/// An operation: its name, how many arguments it has, and its lines.
#[derive(Drop)]
pub struct Operation {
    pub name: ByteText,
    pub arguments: u64,
    pub code: Listed<Line>,
}

#[tactic(auto, unfolding(crate::specs::Operations::operation_begin))]
fn put_begin(alloc: Global, out: &mut Vec<u8>, name: &[u8]) -> Result<(), AllocError>
    ensures { OnOk result (out.new.items ≡ out.old.items ++ operation_begin name.now) }
{
    put_filled(alloc, out, name, 0, 0, OPERATION)
}

#[tactic(auto, unfolding(crate::specs::Operations::caller_parameter))]
fn put_caller(alloc: Global, out: &mut Vec<u8>, name: &[u8]) -> Result<(), AllocError>
    ensures { OnOk result (out.new.items ≡ out.old.items ++ caller_parameter name.now) }
{
    put_filled(alloc, out, name, 0, 0, CALLER)
}

#[tactic(auto, unfolding(crate::specs::Operations::argument_text))]
fn put_argument(alloc: Global, out: &mut Vec<u8>, number: u64) -> Result<(), AllocError>
    ensures { OnOk result (out.new.items ≡ out.old.items ++ argument_text number) }
{
    put_filled(alloc, out, b"", number, 0, ARGUMENT)
}

#[tactic(auto, using(crate::proofs::Counted::arguments_done))]
fn put_arguments(alloc: Global, out: &mut Vec<u8>, arguments: u64) -> Result<(), AllocError>
    ensures { OnOk result (out.new.items ≡ out.old.items ++ argument_texts 0 arguments) }
{
    for number in 0..arguments {
        put_argument(alloc, out, number)?;
    }
    Ok(())
}

#[tactic(auto, unfolding(crate::specs::Operations::reply_parameter))]
fn put_reply(alloc: Global, out: &mut Vec<u8>) -> Result<(), AllocError>
    ensures { OnOk result (out.new.items ≡ out.old.items ++ reply_parameter) }
{
    put_filled(alloc, out, b"", 0, 0, REPLY)
}

/// Adds the name and the parameters of an operation.
fn put_signature(
    alloc: Global,
    out: &mut Vec<u8>,
    name: &[u8],
    operation: &Operation,
) -> Result<(), AllocError>
    ensures { OnOk result
        (out.new.items ≡ out.old.items ++ signature_text name.now operation.now.name operation.now.arguments) }
{
    put_begin(alloc, out, name)?;
    out.extend_from_slice(operation.name.items())?;
    put_caller(alloc, out, name)?;
    put_arguments(alloc, out, operation.arguments)?;
    put_reply(alloc, out)
}

#[tactic(auto, unfolding(crate::specs::Operations::declaration_end))]
fn put_declared(alloc: Global, out: &mut Vec<u8>) -> Result<(), AllocError>
    ensures { OnOk result (out.new.items ≡ out.old.items ++ declaration_end) }
{
    put_filled(alloc, out, b"", 0, 0, DECLARED)
}

fn put_declaration(
    alloc: Global,
    out: &mut Vec<u8>,
    name: &[u8],
    operation: &Operation,
) -> Result<(), AllocError>
    ensures { OnOk result (out.new.items ≡ out.old.items ++ declaration_text name.now operation.now) }
{
    put_signature(alloc, out, name, operation)?;
    put_declared(alloc, out)
}

/// Adds the declarations of operations.
///
/// # Errors
/// Memory ran out.
pub fn put_declarations(
    alloc: Global,
    out: &mut Vec<u8>,
    name: &[u8],
    operations: &[Operation],
) -> Result<(), AllocError>
    ensures { OnOk result (out.new.items ≡ out.old.items ++ declaration_texts name.now operations.now) }
{
    for operation in operations {
        put_declaration(alloc, out, name, operation)?;
    }
    Ok(())
}

#[tactic(auto, unfolding(crate::specs::Operations::operation_head))]
fn put_head(alloc: Global, out: &mut Vec<u8>) -> Result<(), AllocError>
    ensures { OnOk result (out.new.items ≡ out.old.items ++ operation_head) }
{
    put_filled(alloc, out, b"", 0, 0, OPERATION_HEAD)
}

#[tactic(auto, unfolding(crate::specs::Operations::given_text))]
fn put_given(alloc: Global, out: &mut Vec<u8>, number: u64) -> Result<(), AllocError>
    ensures { OnOk result (out.new.items ≡ out.old.items ++ given_text number) }
{
    put_filled(alloc, out, b"", number, 0, GIVEN)
}

/// Adds that the locals of the arguments become these.
#[tactic(auto, using(crate::proofs::Counted::given_done))]
fn put_all_given(alloc: Global, out: &mut Vec<u8>, arguments: u64) -> Result<(), AllocError>
    ensures { OnOk result (out.new.items ≡ out.old.items ++ given_texts 0 arguments) }
{
    for number in 0..arguments {
        put_given(alloc, out, number)?;
    }
    Ok(())
}

fn put_operation(
    alloc: Global,
    out: &mut Vec<u8>,
    name: &[u8],
    strides: &[u64],
    operation: &Operation,
) -> Result<(), AllocError>
    ensures { OnOk result
        (out.new.items ≡ out.old.items ++ function_text name.now (operation_function name.now strides.now operation.now)) }
{
    put_signature(alloc, out, name, operation)?;
    put_head(alloc, out)?;
    put_names(alloc, out, name, strides, Table::Operations)?;
    put_all_given(alloc, out, operation.arguments)?;
    put_body(alloc, out, name, Table::Operations, operation.code.items())
}

/// Adds the functions of operations.
///
/// # Errors
/// Memory ran out.
pub fn put_operations(
    alloc: Global,
    out: &mut Vec<u8>,
    name: &[u8],
    strides: &[u64],
    operations: &[Operation],
) -> Result<(), AllocError>
    ensures { OnOk result (out.new.items ≡ out.old.items ++ operation_texts name.now strides.now operations.now) }
{
    for operation in operations {
        put_operation(alloc, out, name, strides, operation)?;
    }
    Ok(())
}
