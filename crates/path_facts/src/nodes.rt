//! The graph of pairs of an instruction and a state before it: instruction `i` with state `s` is node `4 * i + s`.

ghost use Rattle.std.specs.Prelude.{◌≡◌, ◌<◌, ◌^◌, ◌++◌, length, All, IfOk, option_map, flat_map};
ghost use Rattle.std.specs.Option.{ForSome};
ghost use Rattle.norm_lang.specs.Reach.{StaysBelow};
ghost use Rattle.path_facts.specs.Facts.{IsMove};
ghost use Rattle.path_facts.specs.Nodes.{node, fork_with, nodes_of};

use crate::moves::Move;
use norm_lang::Fork;
use std::alloc::{AllocError, Global};

/// The forks of all nodes.
///
/// # Errors
/// `AllocError` if memory runs out.
pub fn nodes_of_moves(alloc: Global, moves: &[Move]) -> Result<Vec<Fork>, AllocError>
    requires few { length moves.now < 2 ^ 30 }
    requires closed { All (IsMove (length moves.now)) moves.now }
    ensures { IfOk result (λ forks. forks.items ≡ flat_map nodes_of moves.now) }
{
    let mut forks = Vec::new(alloc);
    for one in moves {
        push_nodes(&mut forks, one)?;
    }
    Ok(forks)
}

/// Adds the nodes of an instruction.
fn push_nodes(forks: &mut Vec<Fork>, one: &Move) -> Result<(), AllocError>
    requires { IsMove (2 ^ 30) one.now }
    ensures { IfOk result (λ _. forks.new.items ≡ forks.old.items ++ nodes_of one.now) }
{
    let fork = one.fork;
    let [first, second, third, fourth] = one.after;
    forks.extend_from_slice(&[
        fork_to(fork, first),
        fork_to(fork, second),
        fork_to(fork, third),
        fork_to(fork, fourth),
    ])
}

/// The fork to an instruction's successors with a state.
fn fork_to(fork: Fork, state: u8) -> Fork
    requires inside { StaysBelow (2 ^ 30) fork }
    requires fourth { state < 4 }
    ensures { result ≡ fork_with fork state }
{
    Fork {
        first: node_of(fork.first, state),
        second: node_of(fork.second, state),
    }
}

/// The node of an instruction, if there is one, and a state.
fn node_of(at: Option<u32>, state: u8) -> Option<u32>
    requires inside { ForSome at (λ to. to < 2 ^ 30) }
    requires fourth { state < 4 }
    ensures { result ≡ option_map (λ to. node to state) at }
{
    match at {
        None => None,
        Some(to) => Some(4 * to + state as u32),
    }
}
