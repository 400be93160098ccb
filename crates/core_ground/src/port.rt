//! Where accesses are made.

ghost use Rattle.std.specs.Prelude.{◌≡◌, ◌<◌, List, ℕ, length, slice_index, slice_set};
ghost use Rattle.core_ground.specs.Ports.{at_of, left_by, answer_to};

use phase_pools::access::Access;

/// Words on which accesses are made, one at a time.
pub trait Port {
    /// The words, in the order of their addresses.
    ghost words: { Self → List ℕ };

    /// Makes one access, and answers the word that stood there before it; for a store it answers 0, which no caller
    /// uses. The address is below the count of words.
    fn access(&mut self, access: Access) -> u64
        requires { at_of access < length (words self.old) }
        ensures found { result ≡ answer_to access (slice_index (words self.old) (at_of access)) }
        ensures left { words self.new ≡ slice_set (words self.old) (at_of access) (left_by access (slice_index (words self.old) (at_of access))) };
}

/// The address at which an access is made.
pub fn at_of(access: Access) -> u32
    ensures { result ≡ at_of access }
{
    match access {
        Access::Load { at } => at,
        Access::Store { at, .. } => at,
        Access::CompareExchange { at, .. } => at,
        Access::FetchMax { at, .. } => at,
    }
}

/// What an access leaves where it found a word.
pub(crate) fn left_by(access: Access, found: u64) -> u64
    ensures { result ≡ left_by access found }
{
    match access {
        Access::Load { .. } => found,
        Access::Store { word, .. } => word,
        Access::CompareExchange {
            expected,
            replacement,
            ..
        } => {
            if found == expected {
                replacement
            } else {
                found
            }
        }
        Access::FetchMax { word, .. } => found.max(word),
    }
}

/// What is answered to an access that found a word.
pub(crate) fn answer_to(access: Access, found: u64) -> u64
    ensures { result ≡ answer_to access found }
{
    match access {
        Access::Store { .. } => 0,
        _ => found,
    }
}
