//! The replies of a caller, each beside the call that got it.

ghost use Rattle.std.specs.Prelude.{◌≡◌, ◌<◌, ◌-◌, [], ◌∷◌, ◌++◌, length, map, IfOk};
ghost use Rattle.caller_parts.specs.Pairing.{reply_of, run_of, replied_by};

use crate::call::{Reply, Running};
use norm_lang::list::Reserved;
use std::alloc::{AllocError, Global};
use std::marker::Model;

/// Replies in order, each seen with its call and the steps made for it. The room for them is taken when the list is made.
#[derive(Drop)]
pub struct Replies {
    replies: Reserved<Reply>,
    runs: Reserved<Running>,
    room: usize,
}

impl Model for Replies {
    ghost use Rattle.std.specs.Prelude.{◌≡◌, ◌≤◌, length};
    ghost use Rattle.norm_lang.specs.Roomy.{Roomy};
    ghost use Rattle.caller_parts.specs.declared.call.Replied.{Replied};
    ghost use Rattle.caller_parts.specs.Pairing.{side_by_side};

    ghost Value = { Roomy Replied };

    ghost view = { λ r. record { items = side_by_side r.replies.items r.runs.items; room = r.room } };

    ghost invariant = { λ r. (length r.runs.items ≡ length r.replies.items) × (r.replies.room ≡ r.room) × (r.runs.room ≡ r.room) × (length r.replies.items ≤ r.room) };
}

impl Replies {
    /// No replies, with room for so many.
    ///
    /// # Errors
    /// Memory ran out.
    pub fn with_room(alloc: Global, room: usize) -> Result<Replies, AllocError>
        ensures { IfOk result (λ r. r ≡ record { items = []; room = room }) }
    {
        let replies = Reserved::with_room(alloc, room)?;
        let runs = Reserved::with_room(alloc, room)?;
        Ok(Replies {
            replies,
            runs,
            room,
        })
    }

    /// Adds a reply beside what got it, and takes no memory. There is room for it.
    #[tactic(auto, using(crate::proofs::Sides::one_more_side, crate::proofs::Sides::as_many, crate::proofs::Sides::as_long, crate::proofs::Sides::has_room))]
    pub fn push(&mut self, run: Running, reply: Reply)
        requires { length self.old.items < self.old.room }
        ensures { self.new ≡ record self.old { items = self.old.items ++ replied_by reply run ∷ [] } }
    {
        self.replies.push(reply);
        self.runs.push(run);
    }

    /// The replies alone.
    #[tactic(auto, using(crate::proofs::Sides::replies_of))]
    pub fn replies(&self) -> &[Reply]
        ensures { result.now ≡ map reply_of self.now.items }
    {
        self.replies.items()
    }

    /// What got them.
    #[tactic(auto, using(crate::proofs::Sides::runs_of))]
    pub fn runs(&self) -> &[Running]
        ensures { result.now ≡ map run_of self.now.items }
    {
        self.runs.items()
    }

    /// How many more replies there is room for.
    #[tactic(auto, using(crate::proofs::Sides::as_many))]
    pub fn spare(&self) -> usize
        ensures { result ≡ self.now.room - length self.now.items }
    {
        self.room - self.replies.items().len()
    }
}
