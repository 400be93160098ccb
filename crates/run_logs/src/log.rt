//! Events of the source machine, written down as callers step.

ghost use Rattle.std.specs.Prelude.{◌≡◌, ◌≤◌, ◌<◌, ◌+◌, ◌^◌, true, OnOk, OnErr, IfOk};
ghost use Rattle.std.specs.List.{list_all};
ghost use Rattle.source_machine.specs.Calls.{IsOfSourceRun};
ghost use Rattle.source_machine.specs.declared.event.SourceEvent.TheVariants as events;
ghost use Rattle.run_logs.specs.Logged.{named_event, is_sized, unused_after, is_restart, recording_start, logged, logged_all, IsCutShort, Makes};

use caller_steps::Call;
use core_entries::Sign;
use norm_check::Normal;
use norm_lang::list::Listed;
use source_machine::{SourceEvent, SourceState, StepError, step};
use std::alloc::{AllocError, Global};
use std::marker::Model;

/// The source machine beside a run, the least name that isn't used, and the events so far.
#[derive(Drop)]
pub struct Log {
    machine: SourceState,
    unused: u64,
    events: Vec<SourceEvent>,
}

impl Model for Log {
    ghost use Rattle.std.specs.Prelude.{◌≡◌, ◌≤◌, ◌+◌, ◌^◌, true, length};
    ghost use Rattle.std.specs.List.{list_all};
    ghost use Rattle.run_logs.specs.Logged.{Recording, is_sized};

    ghost Value = { Recording };

    ghost view = { λ l. record { machine = l.machine; unused = l.unused; events = l.events.items } };

    ghost invariant = { λ l. (l.unused ≤ 2 ^ 33 + length l.events.items) × (list_all is_sized l.events.items ≡ true) };
}

fn begin_event(caller: u32, op: u8, args: [u64; 4]) -> SourceEvent
    ensures same { result ≡ events.Begin caller op args }
    ensures sized { is_sized result ≡ true }
{
    SourceEvent::Begin { caller, op, args }
}

/// The event that a sign gives. A `new` makes the least name that isn't used.
fn named_event(caller: u32, call: Call, unused: u64, sign: Sign) -> SourceEvent
    ensures same { result ≡ named_event caller call unused sign }
    ensures sized { is_sized result ≡ true }
{
    match sign {
        Sign::Begin => {
            let args = call.args;
            begin_event(caller, call.op, args)
        },
        Sign::Access | Sign::End => SourceEvent::Access { caller, name: 0 },
        Sign::Fresh => SourceEvent::Access {
            caller,
            name: unused,
        },
        Sign::Restart => SourceEvent::Restart { caller },
        Sign::Full => SourceEvent::GiveUp {
            caller,
            phase: None,
        },
        Sign::Phases(p) => SourceEvent::GiveUp {
            caller,
            phase: Some(p),
        },
    }
}

/// Makes an event, if it is enabled. If memory runs out, the machine stands as it was.
fn make(
    alloc: Global,
    normal: &Normal,
    event: &SourceEvent,
    machine: &mut SourceState,
) -> Result<bool, AllocError>
    requires { IsOfSourceRun normal.now machine.old }
    ensures made { IfOk result (Makes normal.now machine.old event.now machine.new) }
    ensures kept { OnErr result (machine.new ≡ machine.old) }
    ensures runs { IsOfSourceRun normal.now machine.new }
{
    match step(alloc, machine, normal, event) {
        Ok(()) => Ok(true),
        Err(StepError::NotEnabled) => Ok(false),
        Err(StepError::Memory) => Err(AllocError),
    }
}

fn is_restart(sign: Sign) -> bool
    ensures { result ≡ is_restart sign }
{
    matches!(sign, Sign::Restart)
}

/// The least name that isn't used after a sign.
fn unused_after(sign: Sign, unused: u64) -> u64
    requires { unused < 2 ^ 63 }
    ensures same { result ≡ unused_after sign unused }
    ensures few { result ≤ unused + 1 }
{
    match sign {
        Sign::Fresh => unused + 1,
        Sign::Begin | Sign::Access | Sign::Restart | Sign::End | Sign::Full | Sign::Phases(_) =>
            unused,
    }
}

impl Log {
    /// There is a further name: a law for those who hold a log.
    fn kept(&self)
        ensures { self.now.unused < 2 ^ 63 }
    {
        let _ = self.events.as_slice().len();
    }

    /// Before the first event: the callers, at least one, are idle, and the names of so many initial nodes are used.
    ///
    /// # Errors
    /// Memory ran out.
    pub fn new(alloc: Global, normal: &Normal, callers: u32, nodes: u32) -> Result<Log, AllocError>
        requires some { 1 ≤ callers }
        ensures made { IfOk result (λ log. log ≡ recording_start normal.now callers nodes) }
        ensures runs { IfOk result (λ log. IsOfSourceRun normal.now log.machine) }
    {
        let machine = SourceState::start(alloc, normal, callers)?;
        Ok(Log {
            machine,
            unused: nodes as u64 + 1,
            events: Vec::new(alloc),
        })
    }

    /// The events so far.
    pub fn events(&self) -> &[SourceEvent]
        ensures { result.now ≡ self.now.events }
    {
        self.events.as_slice()
    }

    /// The events, in order.
    pub fn into_events(self) -> Listed<SourceEvent>
        ensures same { result ≡ self.events }
        ensures sized { list_all is_sized result ≡ true }
    {
        let Log { events, .. } = self;
        Listed::from_vec(events)
    }

    /// Writes a sign of a caller that runs this call. A restart that the source doesn't enable is left out, and nothing else is. Room for
    /// the event is had before it is made, so that nothing has changed if memory runs out.
    fn write(
        &mut self,
        alloc: Global,
        normal: &Normal,
        caller: u32,
        call: Call,
        sign: Sign,
    ) -> Result<(), AllocError>
        requires { IsOfSourceRun normal.now self.old.machine }
        ensures written { OnOk result (self.new ≡ logged normal.now caller call self.old sign) }
        ensures kept { OnErr result (self.new ≡ self.old) }
        ensures runs { IsOfSourceRun normal.now self.new.machine }
    {
        self.kept();
        let unused = unused_after(sign, self.unused);
        let event = named_event(caller, call, self.unused, sign);
        self.events.reserve(1)?;
        let enabled = make(alloc, normal, &event, &mut self.machine)?;
        if enabled || !is_restart(sign) {
            self.events.push_reserved(event);
            self.unused = unused;
        }
        Ok(())
    }

    /// Writes the signs of a step of a caller that runs this call, in order.
    ///
    /// # Errors
    /// Memory ran out. Only the first signs are written then, or none.
    pub fn write_all(
        &mut self,
        alloc: Global,
        normal: &Normal,
        caller: u32,
        call: Call,
        signs: &[Sign],
    ) -> Result<(), AllocError>
        requires { IsOfSourceRun normal.now self.old.machine }
        ensures written { OnOk result (self.new ≡ logged_all normal.now caller call signs.now self.old) }
        ensures cut { OnErr result (IsCutShort normal.now caller call signs.now self.old self.new) }
        ensures runs { IsOfSourceRun normal.now self.new.machine }
    {
        for sign in signs {
            self.write(alloc, normal, caller, call, *sign)?;
        }
        Ok(())
    }
}
