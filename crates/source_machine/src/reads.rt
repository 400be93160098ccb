//! What is read of a state: the replies of a caller, where its operation stands, what its registers hold, and what its next
//! access is.

ghost use Rattle.std.specs.Prelude.{◌≡◌, ◌<◌, length, slice_get};
ghost use Rattle.source_machine.specs.Run.{source_replies};
ghost use Rattle.source_machine.specs.Standings.{at_most, standing_in, standing_by, held_in, held_by, pending_in, pending_by};
ghost use Rattle.source_machine.specs.Calls.{IsOfSourceRun};

use crate::enabled::{is_end, is_new};
use crate::event::SourceReply;
use crate::source_state::SourceState;
use crate::state::{Running, Stand};
use norm_check::Normal;
use norm_lang::local::instruction_at;
use norm_lang::registers::{number_at, reference_at};
use norm_lang::text::{Op, Reg};

/// Where an operation stands: its number; whether its wrap-up runs; the instruction of its next access, which for an access of
/// the list is its commit; and how many exchanges of the list succeeded, which a wrap-up has in its first n7. A greater
/// number than the type holds, which no text that is accepted has, is shown as the greatest.
#[derive(Clone, Copy)]
pub struct Standing {
    pub op: u8,
    pub wrapup: bool,
    pub at: u16,
    pub made: u8,
}

/// What a register holds: a number, or a node by its name, 0 for null, and the reference's mark.
#[derive(Clone, Copy)]
pub enum Held {
    Number(u64),
    Node { name: u64, marked: bool },
}

/// What the next access of a caller is: none, as the caller is idle; a `new`; one that touches no memory, since it ends an
/// empty list or a wrap-up that has made an access; or any other.
#[derive(Clone, Copy)]
pub enum Pending {
    Idle,
    New,
    End,
    Shared,
}

fn place_shown(at: usize) -> u16
    ensures { result ≡ at_most 65535 at }
{
    if at < 65535 { at as u16 } else { 65535 }
}

fn count_shown(made: u64) -> u8
    ensures { result ≡ at_most 255 made }
{
    if made < 255 { made as u8 } else { 255 }
}

fn standing_of(running: &Running) -> Standing
    ensures { result ≡ standing_in running.now.op running.now.stand }
{
    match &running.stand {
        Stand::InGenerator(at) => Standing {
            op: running.op,
            wrapup: false,
            at: place_shown(*at),
            made: 0,
        },
        Stand::InList(at, _, made) => Standing {
            op: running.op,
            wrapup: false,
            at: place_shown(*at),
            made: count_shown(*made as u64),
        },
        Stand::InWrapUp(at, started, _) => Standing {
            op: running.op,
            wrapup: true,
            at: place_shown(*at),
            made: count_shown(number_at(started, Reg::Num(7))),
        },
    }
}

fn held_in(running: &Running, register: Reg) -> Held
    ensures { result ≡ held_in running.now.registers register }
{
    match register {
        Reg::Num(_) => Held::Number(number_at(&running.registers, register)),
        Reg::Ref(_) => {
            let reference = reference_at(&running.registers, register);
            Held::Node {
                name: reference.node,
                marked: reference.marked,
            }
        }
    }
}

/// The next access of an operation, by where it stands.
fn pending_in(op: &Op, stand: &Stand) -> Pending
    ensures { result ≡ pending_in op.now stand.now }
{
    match stand {
        Stand::InGenerator(at) => {
            if is_new(instruction_at(&op.generator, *at)) {
                Pending::New
            } else {
                Pending::Shared
            }
        }
        Stand::InList(_, entries, made) => match entries.items().get(*made) {
            None => Pending::End,
            Some(_) => Pending::Shared,
        },
        Stand::InWrapUp(at, _, _) => {
            let instr = instruction_at(&op.wrapup, *at);
            if is_new(instr) {
                Pending::New
            } else if is_end(instr) {
                Pending::End
            } else {
                Pending::Shared
            }
        }
    }
}

impl SourceState {
    /// The replies of a caller, by its number, in order.
    pub fn replies(&self, caller: u32) -> &[SourceReply]
        requires { caller < length self.now.callers }
        ensures { result.now ≡ source_replies self.now caller }
    {
        match self.machine.callers.items().get(caller as usize) {
            None => &[],
            Some(caller) => caller.replies.items(),
        }
    }

    /// Where a caller's operation stands, by its number; none exactly if the caller is idle.
    pub fn standing(&self, caller: u32) -> Option<Standing>
        requires { caller < length self.now.callers }
        ensures { result ≡ standing_by (slice_get self.now.callers caller) }
    {
        let callers = self.machine.callers.items();
        match callers.get(caller as usize) {
            None => None,
            Some(caller) => match &caller.running {
                None => None,
                Some(running) => Some(standing_of(running)),
            },
        }
    }

    /// What a register of a caller holds, whose operation runs. An idle caller has none, and 0 stands for that.
    pub fn held(&self, caller: u32, register: Reg) -> Held
        requires { caller < length self.now.callers }
        ensures { result ≡ held_by (slice_get self.now.callers caller) register }
    {
        let callers = self.machine.callers.items();
        match callers.get(caller as usize) {
            None => Held::Number(0),
            Some(caller) => match &caller.running {
                None => Held::Number(0),
                Some(running) => held_in(running, register),
            },
        }
    }

    /// What the next access of a caller is, by its number. The state is one of a run of the text.
    pub fn pending(&self, normal: &Normal, caller: u32) -> Pending
        requires run { IsOfSourceRun normal.now self.now }
        requires known { caller < length self.now.callers }
        ensures { result ≡ pending_by normal.now (slice_get self.now.callers caller) }
    {
        let callers = self.machine.callers.items();
        match callers.get(caller as usize) {
            None => Pending::Idle,
            Some(caller) => match &caller.running {
                None => Pending::Idle,
                Some(running) => match normal.text().ops.items().get(running.op as usize) {
                    None => Pending::Shared,
                    Some(op) => pending_in(op, &running.stand),
                },
            },
        }
    }
}
