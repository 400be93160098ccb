//! How the accesses of a set's operations are read.

ghost use Rattle.std.specs.Prelude.{◌≡◌};
ghost use Rattle.source_histories.specs.Books.{deed_committed, noted_at};
ghost use Rattle.set_laws.specs.Sets.{with_gap, set_commits, set_noted, goes_back, set_moment, set_rules};

use source_histories::{Deed, Noted, Notes, Reader, Seen};
use source_machine::Standing;

/// The reader of the sets' texts.
pub struct SetReader {}

fn commits(op: u8, at: u16) -> bool
    ensures { result ≡ set_commits op at }
{
    if at <= 15 {
        return false;
    }
    match op {
        0 => at == 20 || at == 22,
        1 => at == 18 || at == 20,
        _ => at == 17 || at == 19,
    }
}

fn back(next: Option<Standing>) -> bool
    ensures { result ≡ goes_back next }
{
    match next {
        None => false,
        Some(next) => !next.wrapup && next.at == 1,
    }
}

/// The event at which it would turn out that the key is missing.
fn gap_at(event: u64, notes: Notes) -> Notes
    ensures { result ≡ with_gap event notes }
{
    Notes {
        gap: event,
        load: notes.load,
    }
}

fn remembered(event: u64, notes: Notes, at: u16, passed: bool, next: Option<Standing>) -> Notes
    ensures { result ≡ set_noted event notes at passed next }
{
    if at == 2 {
        gap_at(event, notes)
    } else if at == 4 {
        Notes {
            gap: notes.gap,
            load: event,
        }
    } else if at == 6 {
        if passed {
            gap_at(notes.load, notes)
        } else {
            notes
        }
    } else if at == 13 {
        if back(next) {
            notes
        } else {
            gap_at(event, notes)
        }
    } else {
        notes
    }
}

fn moment(event: u64, notes: Notes, op: u8, reply: Option<u64>) -> u64
    ensures { result ≡ set_moment event notes op reply }
{
    match reply {
        None => event,
        Some(0) => match op {
            0 => notes.load,
            _ => notes.gap,
        },
        Some(_) => match op {
            0 => event,
            1 => event,
            _ => notes.load,
        },
    }
}

fn committed(event: u64, caller: u32, notes: Notes, seen: &Seen) -> Option<Deed>
    ensures { result ≡ deed_committed set_rules event caller notes seen.now seen.now.after }
{
    match seen.after {
        None => Some(Deed {
            caller,
            op: seen.before.op,
            arg: seen.arg,
            reply: seen.reply,
            moment: moment(event, notes, seen.before.op, seen.reply),
        }),
        Some(next) => {
            if 0 < next.made {
                Some(Deed {
                    caller,
                    op: seen.before.op,
                    arg: seen.arg,
                    reply: Some(1),
                    moment: event,
                })
            } else {
                None
            }
        }
    }
}

impl Reader for SetReader {
    ghost rules = { λ s. set_rules };

    fn noted(&self, at: u64, caller: u32, notes: Notes, seen: &Seen) -> Noted
        ensures { result ≡ noted_at set_rules at caller notes seen.now }
    {
        if seen.before.wrapup || 0 < seen.before.made {
            return Noted { notes, deed: None };
        }
        if commits(seen.before.op, seen.before.at) {
            return Noted {
                notes,
                deed: committed(at, caller, notes, seen),
            };
        }
        Noted {
            notes: remembered(at, notes, seen.before.at, seen.passed, seen.after),
            deed: None,
        }
    }
}
