//! The search.

ghost use Rattle.std.specs.Prelude.{◌≡◌, ◌<◌, length, IfOk};
ghost use Rattle.state_search.specs.Searches.{Seen, WentOn, Answers, Starts};

use std::alloc::AllocError;

/// What going on from a state shows.
#[derive(Clone, Copy)]
pub enum Went {
    /// All its events lead to proper states.
    Fine,
    /// An event leads to a state that breaks a condition.
    Breach,
    /// A state was found that can't be kept.
    Undecided,
}

/// What a search finds.
#[derive(Clone, Copy)]
pub enum Answer {
    /// All states of all runs are proper.
    Proper,
    /// A state that was found leads to one that breaks a condition.
    Improper,
    /// More states were found than the search may find.
    TooMany,
    /// The explorer couldn't go on.
    Undecided,
}

/// States that were found, in the order in which they were.
pub trait Explorer {
    ghost seen: { Self → Seen };

    /// How many were found.
    fn count(&self) -> usize
        ensures { result ≡ length (seen self.now).found };

    /// Tries all events of the state at a place.
    fn go_on(&mut self, place: usize) -> Result<Went, AllocError>
        requires { place < length (seen self.old).found }
        ensures { IfOk result (λ went. WentOn (seen self.old) place went (seen self.new)) };
}

/// Goes on from each state that is found, until none is left, or more than so many are found.
///
/// # Errors
/// `AllocError` if memory runs out.
pub fn search<E: Explorer>(explorer: &mut E, limit: usize) -> Result<Answer, AllocError>
    requires { Starts (E.seen explorer.old) }
    ensures { IfOk result (λ answer. Answers (E.seen explorer.old) limit answer (E.seen explorer.new)) }
{
    let mut done = 0;
    'states: while done < explorer.count() {
        let found = explorer.count();
        if found > limit {
            return Ok(Answer::TooMany);
        }
        match explorer.go_on(done)? {
            Went::Fine => {}
            Went::Breach => return Ok(Answer::Improper),
            Went::Undecided => return Ok(Answer::Undecided),
        }
        done += 1;
    }
    Ok(Answer::Proper)
}
