//! Why a row has no answer.

ghost use Rattle.std.specs.Prelude.{◌≡◌};
ghost use Rattle.row_spelling.specs.declared.error.RowError.TheVariants.{Memory};

use std::alloc::AllocError;

/// Why a row has no answer.
#[derive(Drop)]
pub enum RowError {
    /// Memory ran out.
    Memory(AllocError),
    /// The row isn't spelled as a row.
    Wrong,
}

impl From<AllocError> for RowError {
    ghost from_gives = { λ error result. result ≡ Memory error };

    fn from(error: AllocError) -> RowError {
        RowError::Memory(error)
    }
}
