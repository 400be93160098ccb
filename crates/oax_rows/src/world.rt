//! What the source gives and the sink takes.

use row_spelling::cut;

/// How many bytes the source gives and the sink takes a call, and the numbers of the calls that fail, from 1, with 0 for none.
#[derive(Clone, Copy)]
pub(crate) struct World {
    pub(crate) most: usize,
    pub(crate) failing_read: u64,
    pub(crate) failing_write: u64,
}

/// The number that digits are; 0 if they are none.
fn number(digits: &str) -> u64 {
    digits.parse::<u64>().unwrap_or(0)
}

impl World {
    /// Nothing fails.
    pub(crate) const KIND: World = World {
        most: 4096,
        failing_read: 0,
        failing_write: 0,
    };

    /// The world that a line's three numbers say.
    pub(crate) fn of_line(line: &str) -> World {
        let (most, calls) = cut(line);
        let (read, write) = cut(calls);
        World {
            most: number(most) as usize,
            failing_read: number(read),
            failing_write: number(write),
        }
    }
}
