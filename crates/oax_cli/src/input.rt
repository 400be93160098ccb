//! Reading a source to its end.

ghost use Rattle.std.specs.Prelude.{◌<◌, ◌^◌};
ghost use Rattle.oax_cli.specs.Readings.{IsReadTo};

use crate::verdict::Verdict;
use command_input::input::{InputError, read_input};
use norm_lang::list::Listed;
use norm_lang::text::ByteText;
use oa_text::Source;
use std::alloc::Global;

/// All bytes of a source, which are fewer than `limit`, or why it was not read to its end.
pub(crate) fn read_source<S: Source>(
    alloc: Global,
    input: &mut S,
    limit: usize,
) -> Result<ByteText, Verdict>
    requires { limit < 2 ^ 32 }
    ensures { IsReadTo limit (S.left input.old) (S.left input.new) (S.faults input.old) (S.faults input.new) result }
{
    match read_input(alloc, input, limit) {
        Err(InputError::Memory) => Err(Verdict::Memory),
        Err(InputError::Fault) => Err(Verdict::ReadFault),
        Ok(bytes) => {
            if bytes.len() == limit {
                return Err(Verdict::LongInput);
            }
            Ok(Listed::from_vec(bytes))
        }
    }
}
