//! What is wrong with the call lines of a document.

ghost use Rattle.std.specs.Prelude.{◌≡◌, ◌≤◌, length, option_copied, slice_get};
ghost use Rattle.std.specs.List.{position};
ghost use Rattle.std.specs.Str.{bytes_eq};
ghost use Rattle.script_plans.specs.Shapes.{op_number, args_fault, call_fault, script_fault, scripts_fault};

use crate::fault::ShapeFault;
use documents::{Script, ScriptCall};
use norm_lang::text::Op;

fn place_of_op(ops: &[Op], name: &[u8]) -> Option<usize>
    ensures { result ≡ position (λ op. bytes_eq op.name name.now) ops.now }
{
    ops.iter().position(|op| op.name.items() == name)
}

/// The number of the operation so named; if there is none, their count.
#[tactic(auto, using(crate::proofs::Naming::number_within))]
pub(crate) fn op_number(ops: &[Op], name: &[u8]) -> usize
    ensures number { result ≡ op_number ops.now name.now }
    ensures within { result ≤ length ops.now }
{
    place_of_op(ops, name).unwrap_or(ops.len())
}

fn op_at(ops: &[Op], number: usize) -> Option<&Op>
    ensures { option_copied result ≡ slice_get ops.now number }
{
    ops.get(number)
}

/// What is wrong with a call of the operation that it names, if it names one.
fn args_fault(call: &ScriptCall, op: Option<&Op>) -> Option<ShapeFault>
    ensures { result ≡ args_fault call.now (option_copied op.entry) }
{
    let at = call.line as u64;
    match op {
        None => Some(ShapeFault { number: 8, at }),
        Some(op) => {
            if call.args.items().len() == op.args as usize {
                None
            } else {
                Some(ShapeFault { number: 9, at })
            }
        }
    }
}

fn call_fault(ops: &[Op], call: &ScriptCall) -> Option<ShapeFault>
    ensures { result ≡ call_fault ops.now call.now }
{
    args_fault(call, op_at(ops, op_number(ops, call.name.items())))
}

/// The first call line of a script that has a fault.
#[tactic(auto, using(crate::proofs::Firsts::script_more, crate::proofs::Firsts::script_found, crate::proofs::Firsts::script_end))]
fn script_fault(ops: &[Op], script: &[ScriptCall]) -> Option<ShapeFault>
    ensures { result ≡ script_fault ops.now script.now }
{
    for call in script {
        if let Some(fault) = call_fault(ops, call) {
            return Some(fault);
        }
    }
    None
}

/// The first call line of all scripts that has a fault.
#[tactic(auto, using(crate::proofs::Firsts::scripts_more, crate::proofs::Firsts::scripts_found, crate::proofs::Firsts::scripts_end))]
pub(crate) fn scripts_fault(ops: &[Op], scripts: &[Script]) -> Option<ShapeFault>
    ensures { result ≡ scripts_fault ops.now scripts.now }
{
    for script in scripts {
        if let Some(fault) = script_fault(ops, script.items()) {
            return Some(fault);
        }
    }
    None
}
