//! The states that paths lead to.

ghost use Rattle.std.specs.Prelude.{◌≡◌, ◌<◌, ◌^◌, false, length, slice_get, unwrap_or, All, IfOk};
ghost use Rattle.path_facts.specs.Facts.{IsMove, AreFacts, comes_in_by};

use crate::moves::Move;
use crate::nodes::nodes_of_moves;
use norm_lang::reach;
use norm_lang::text::Marks;
use std::alloc::{AllocError, Global};
use std::marker::Model;

/// For each instruction the states in which a machine may arrive there. Contracts see it as the answers for the
/// four states of each instruction, one after another.
#[derive(Drop)]
pub struct Facts {
    marks: Marks,
}

impl Model for Facts {
    ghost use Rattle.std.specs.Prelude.{Bool, List};

    ghost Value = { List Bool };

    ghost view = { λ f. f.marks };
}

impl Facts {
    /// The facts of a machine that begins in `start` at instruction 0. Its cost grows with the count of
    /// instructions alone, however many paths there are.
    ///
    /// # Errors
    /// Memory ran out.
    pub fn of_moves(alloc: Global, moves: &[Move], start: u8) -> Result<Facts, AllocError>
        requires some { 0 < length moves.now }
        requires few { length moves.now < 2 ^ 30 }
        requires begins { start < 4 }
        requires closed { All (IsMove (length moves.now)) moves.now }
        ensures { IfOk result (λ facts. AreFacts moves.now start facts) }
    {
        let forks = nodes_of_moves(alloc, moves)?;
        let marks = reach(alloc, &forks, start as u32)?;
        Ok(Facts { marks })
    }

    /// Whether some path from instruction 0 leads to the instruction at `at` with the machine in `state`
    /// there. Past the last instruction none does, nor with a state from 4 on. It answers in constant time.
    #[tactic(auto, using(crate::proofs::Fitting::none_past, crate::proofs::Fitting::none_further, crate::proofs::Fitting::one_of_four))]
    pub fn comes_in(&self, at: usize, state: u8) -> bool
        ensures { result ≡ comes_in_by self.now at state }
    {
        let marks = self.marks.items();
        state < 4 && at <= marks.len() / 4 && is_marked(marks, 4 * at + state as usize)
    }
}

fn is_marked(marks: &[bool], node: usize) -> bool
    ensures { result ≡ unwrap_or (slice_get marks.now node) false }
{
    marks.get(node).copied().unwrap_or(false)
}
