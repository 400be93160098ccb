//! The header of a text.

ghost use Rattle.std.specs.Prelude.{◌≡◌, ◌<◌, length, IfOk};
ghost use Rattle.norm_lang.specs.KindFields.{fields_of};
ghost use Rattle.oac_cli.specs.Emitted.{stride_of, strides_of, claims_of, emitted};

use c_printer::header::{Lines, header};
use c_runtime::claim::claim;
use norm_lang::fields::count_of;
use norm_lang::list::Listed;
use norm_lang::text::{ByteText, Text};
use std::alloc::{AllocError, Global};

/// How many words there are from one node to the next, by how many fields a node has: a power of two, so that nodes of up to four fields don't
/// cross a line of the cache.
fn stride_of(fields: usize) -> u64
    ensures { result ≡ stride_of fields }
{
    if fields <= 1 {
        1
    } else if fields <= 2 {
        2
    } else {
        4
    }
}

/// The strides of a text's kinds.
#[tactic(auto, using(crate::proofs::Counting::counted_all, crate::proofs::Counting::counted_done))]
fn strides_of(alloc: Global, text: &Text) -> Result<Vec<u64>, AllocError>
    requires few { length text.now.kinds < 256 }
    ensures { IfOk result (λ strides. strides.items ≡ strides_of text.now) }
{
    let mut strides = Vec::new(alloc);
    for kind in 0..text.kinds.items().len() {
        strides.push(stride_of(count_of(text.fields.items(), kind as u8)))?;
    }
    Ok(strides)
}

/// The claims of so many kinds, one of each.
#[tactic(auto, using(crate::proofs::Counting::counted_all, crate::proofs::Counting::counted_done))]
fn claims_of(alloc: Global, kinds: u32) -> Result<Vec<Lines>, AllocError>
    ensures { IfOk result (λ claims. claims.items ≡ claims_of kinds) }
{
    let mut claims = Vec::new(alloc);
    for kind in 0..kinds {
        let lines = claim(alloc, kind, kinds)?;
        claims.push(Listed::from_vec(lines))?;
    }
    Ok(claims)
}

/// The header of a text, by a name.
///
/// # Errors
/// Memory ran out.
pub fn emit(alloc: Global, name: &[u8], text: &Text) -> Result<ByteText, AllocError>
    requires few { length text.now.kinds < 256 }
    ensures { IfOk result (λ spelling. spelling ≡ emitted name.now text.now) }
{
    let strides = strides_of(alloc, text)?;
    let claims = claims_of(alloc, text.kinds.items().len() as u32)?;
    header(
        alloc,
        name,
        &strides,
        text.roots.items(),
        text.nodes.items(),
        &claims,
        &[],
    )
}
