//! What the lines of a document after its text say so far.

ghost use Rattle.std.specs.Prelude.{◌≡◌, [], length, replicate, IfOk};
ghost use Rattle.documents.specs.DocumentRead.{default_slots, empty_tail, is_after_text, may_set_fuel, with_slots, whole_scripts, with_script, with_schedule, document_of};
ghost use Rattle.documents.specs.TailShown.{stage_shown, tail_shown, slots_shown};

use crate::document::{Document, Numbers, Script, Scripts, Turns};
use crate::limits::{DEFAULT_FIRST, DEFAULT_FUEL, DEFAULT_LAST, DEFAULT_SLOTS};
use crate::settings::Slots;
use norm_lang::list::Listed;
use norm_lang::text::{Text, Version};
use std::alloc::{AllocError, Global};
use std::mem;

/// Where after a document's text the next line stands.
#[derive(Clone, Copy, PartialEq, Eq)]
pub(crate) enum Stage {
    /// After the text, and maybe lines that set slots: each setting may follow.
    Slots,
    /// After `phases`.
    Fuel,
    /// After `fuel`.
    Scripts,
    /// In a script.
    Calls,
    /// After `schedule`.
    Turns,
}

impl Stage {
    /// Whether slots and phases may be set here.
    pub(crate) fn is_after_text(self) -> bool
        ensures { result ≡ is_after_text (stage_shown self) }
    {
        matches!(self, Stage::Slots)
    }

    /// Whether the fuel may be set here.
    pub(crate) fn may_set_fuel(self) -> bool
        ensures { result ≡ may_set_fuel (stage_shown self) }
    {
        matches!(self, Stage::Slots | Stage::Fuel)
    }
}

/// The slots of each kind in a document that doesn't set them.
fn default_slots(alloc: Global, kinds: usize) -> Result<Numbers, AllocError>
    ensures { IfOk result (λ slots. slots ≡ replicate kinds default_slots) }
{
    Ok(Listed::from_vec(vec![in alloc; DEFAULT_SLOTS; kinds]?))
}

/// The version of the lines and the text before them, the settings, the scripts that are whole, the script that lines stand
/// in, and the turns. Slots may still be set of the kinds from `next_kind` on.
#[derive(Drop)]
pub(crate) struct Tail {
    pub(crate) version: Version,
    pub(crate) text: Text,
    pub(crate) stage: Stage,
    pub(crate) next_kind: usize,
    pub(crate) slots: Numbers,
    pub(crate) first: u64,
    pub(crate) last: u64,
    pub(crate) fuel: u64,
    pub(crate) scripts: Scripts,
    pub(crate) script: Script,
    pub(crate) schedule: Turns,
}

impl Tail {
    /// No line after the text has been read: the settings are the defaults.
    pub(crate) fn empty(alloc: Global, version: Version, text: Text) -> Result<Tail, AllocError>
        ensures says { IfOk result (λ tail. tail_shown tail ≡ empty_tail version text.kinds) }
        ensures kept { IfOk result (λ tail. tail.text ≡ text) }
    {
        let slots = default_slots(alloc, text.kinds.items().len())?;
        Ok(Tail {
            version,
            text,
            stage: Stage::Slots,
            next_kind: 0,
            slots,
            first: DEFAULT_FIRST,
            last: DEFAULT_LAST,
            fuel: DEFAULT_FUEL,
            scripts: Listed::empty(alloc),
            script: Listed::empty(alloc),
            schedule: Listed::empty(alloc),
        })
    }

    /// The slots of a kind are set, and may be set of later kinds.
    pub(crate) fn set_slots(&mut self, slots: Slots)
        ensures says { tail_shown self.new ≡ with_slots (tail_shown self.old) (slots_shown slots) }
        ensures kept { self.new.text ≡ self.old.text }
    {
        self.slots.replace(slots.owner as usize, slots.count);
        self.next_kind = slots.owner as usize + 1;
    }

    /// How many scripts there are, with the one that lines stand in.
    pub(crate) fn script_count(&self) -> usize
        ensures { result ≡ length (whole_scripts (tail_shown self.now)) }
    {
        let whole = self.scripts.items().len();
        if self.stage == Stage::Calls {
            whole + 1
        } else {
            whole
        }
    }

    /// The script that lines stood in is whole.
    fn end_script(&mut self, alloc: Global) -> Result<(), AllocError>
        ensures says { IfOk result (λ _. tail_shown self.new ≡ record (tail_shown self.old) { scripts = whole_scripts (tail_shown self.old); script = [] }) }
        ensures kept { self.new.text ≡ self.old.text }
    {
        let script = mem::replace(&mut self.script, Listed::empty(alloc));
        if self.stage == Stage::Calls {
            self.scripts.push(script)?;
        }
        Ok(())
    }

    /// The next script begins.
    pub(crate) fn begin_script(&mut self, alloc: Global) -> Result<(), AllocError>
        ensures says { IfOk result (λ _. tail_shown self.new ≡ with_script (tail_shown self.old)) }
        ensures kept { self.new.text ≡ self.old.text }
    {
        self.end_script(alloc)?;
        self.stage = Stage::Calls;
        Ok(())
    }

    /// The schedule begins.
    pub(crate) fn begin_schedule(&mut self, alloc: Global) -> Result<(), AllocError>
        ensures says { IfOk result (λ _. tail_shown self.new ≡ with_schedule (tail_shown self.old)) }
        ensures kept { self.new.text ≡ self.old.text }
    {
        self.end_script(alloc)?;
        self.stage = Stage::Turns;
        Ok(())
    }

    /// The document of the text and of what is said after it.
    pub(crate) fn into_document(self, alloc: Global) -> Result<Document, AllocError>
        ensures { IfOk result (λ document. document ≡ document_of self.text (tail_shown self)) }
    {
        let mut tail = self;
        tail.end_script(alloc)?;
        Ok(Document {
            text: tail.text,
            slots: tail.slots,
            first: tail.first,
            last: tail.last,
            fuel: tail.fuel,
            scripts: tail.scripts,
            schedule: tail.schedule,
        })
    }
}
