//! One access of a caller on the table.

ghost use Rattle.std.specs.Prelude.{◌≡◌};
ghost use Rattle.word_runner.specs.table_rule.Plays.{CanStep, Made};
ghost use Rattle.word_runner.specs.table_rule.Seen.{IsGround};
ghost use Rattle.oa_words.specs.Words.{word_count};

use crate::ground::{Hand, Makes, Place, Puts, Words};
use phase_pools::access::Access;

/// Makes the access that the entry in hand wants, and answers the word found; of a store it answers 0.
pub(crate) fn access<H: Hand>(table: &Words, seat: &mut Place, access: Access) -> u64
    requires table { seat.old.table_id ≡ table.now.shared.table_id }
    requires count { table.now.shared.table_id.words ≡ word_count table.now.shared.key.setting.sizes }
    requires good { IsGround table.now.shared.key }
    requires step { CanStep table.now.shared.key seat.old.me H.entry access }
    ensures table { (seat.new.table_id ≡ seat.old.table_id) × (seat.new.id ≡ seat.old.id) }
    ensures made { Made H.entry seat.old.me result seat.new.me }
{
    match access {
        Access::Load { at } => table.shared.load::<Makes<H>>(seat, at as usize),
        Access::Store { at, word } => {
            table.shared.store::<Puts<H>>(seat, at as usize, word);
            0
        }
        Access::CompareExchange {
            at,
            expected,
            replacement,
        } => table
            .shared
            .compare_exchange::<Makes<H>>(seat, at as usize, expected, replacement),
        Access::FetchMax { at, word } => table
            .shared
            .fetch_max::<Makes<H>>(seat, at as usize, word),
    }
}
