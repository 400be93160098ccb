//! What the lines of a target have said of its operations so far.

ghost use Rattle.std.specs.Prelude.{◌≡◌, ◌≤◌, length, IfOk};
ghost use Rattle.line_words.specs.Answered.{Gives};
ghost use Rattle.target_code.specs.TargetLimits.{is_target_new, target_news_in, target_news_of};
ghost use Rattle.target_reader.specs.TargetGrammar.{no_target_op, no_ops, target_code_so_far, with_one_more, has_place, with_target_op, with_whole_target_op, finished_ops};
ghost use Rattle.target_reader.specs.OpsShown.{part_shown, draft_shown};

use line_words::fault::{Fault, Stop};
use norm_lang::list::Listed;
use norm_lang::text::Instr;
use std::alloc::{AllocError, Global};
use std::mem;
use target_code::limits::MOST_TARGET_INSTRS;
use target_code::target::{TargetInstr, TargetOp, TargetOps};

/// Where among the operations the next line stands.
#[derive(Clone, Copy, PartialEq, Eq)]
pub(crate) enum Part {
    /// Before the first.
    Outside,
    /// After the line that begins one.
    Begun,
    /// In a generator.
    Generator,
    /// In a wrap-up.
    WrapUp,
}

/// The operations that are whole, and the operation whose lines stand here.
#[derive(Drop)]
pub(crate) struct OpsDraft {
    pub(crate) part: Part,
    pub(crate) ops: TargetOps,
    pub(crate) op: TargetOp,
}

/// An operation without a name and without code.
fn no_operation(alloc: Global) -> TargetOp
    ensures { result ≡ no_target_op }
{
    TargetOp {
        name: Listed::empty(alloc),
        args: 0,
        generator: Listed::empty(alloc),
        wrapup: Listed::empty(alloc),
    }
}

fn new(instr: &TargetInstr) -> bool
    ensures { result ≡ is_target_new instr.now }
{
    matches!(instr, TargetInstr::Plain(Instr::New(..)))
}

/// How many `new` a method has.
#[tactic(auto, using(crate::proofs::TargetNews::news_more, crate::proofs::TargetNews::news_same))]
fn news_in(code: &[TargetInstr]) -> usize
    ensures news { result ≡ target_news_in code.now }
    ensures few { result ≤ length code.now }
{
    let mut news = 0;
    for instr in code {
        if new(instr) {
            news += 1;
        }
    }
    news
}

impl OpsDraft {
    /// No operation is begun.
    pub(crate) fn start(alloc: Global) -> OpsDraft
        ensures { draft_shown result ≡ no_ops }
    {
        OpsDraft {
            part: Part::Outside,
            ops: Listed::empty(alloc),
            op: no_operation(alloc),
        }
    }

    pub(crate) fn begin_op(&mut self, op: TargetOp)
        ensures { draft_shown self.new ≡ with_target_op (draft_shown self.old) op }
    {
        self.part = Part::Begun;
        self.op = op;
    }

    /// Adds the operation whose lines stood here to those that are whole.
    pub(crate) fn end_op(&mut self, alloc: Global) -> Result<(), Stop>
        ensures { Gives (λ _. draft_shown self.new) result (with_whole_target_op (draft_shown self.old)) }
    {
        if self.op.wrapup.items().is_empty() {
            return Err(Stop::Fault(Fault::Form));
        }
        let op = mem::replace(&mut self.op, no_operation(alloc));
        self.ops.push(op)?;
        Ok(())
    }

    /// The instructions so far of the method whose lines stand here.
    fn code(&self) -> &[TargetInstr]
        ensures { result.now ≡ target_code_so_far (part_shown self.now.part) self.now.op }
    {
        if self.part == Part::Generator {
            self.op.generator.items()
        } else {
            self.op.wrapup.items()
        }
    }

    /// Whether the method has room for one more instruction.
    pub(crate) fn has_place(&self) -> bool
        ensures { result ≡ has_place (draft_shown self.now) }
    {
        self.code().len() < MOST_TARGET_INSTRS
    }

    /// How many `new` the operation has whose lines stand here, in both methods.
    pub(crate) fn news(&self) -> usize
        ensures { result ≡ target_news_of self.now.op }
    {
        news_in(self.op.generator.items()) + news_in(self.op.wrapup.items())
    }

    pub(crate) fn add_instr(&mut self, instr: TargetInstr) -> Result<(), AllocError>
        ensures { IfOk result (λ _. draft_shown self.new ≡ with_one_more (draft_shown self.old) instr) }
    {
        if self.part == Part::Generator {
            self.op.generator.push(instr)
        } else {
            self.op.wrapup.push(instr)
        }
    }

    /// Makes the operations whole, unless a further line must follow.
    pub(crate) fn end(&mut self, alloc: Global) -> Result<(), Stop>
        ensures { Gives (λ _. self.new.ops) result (finished_ops (draft_shown self.old)) }
    {
        if self.part != Part::WrapUp {
            return Err(Stop::Fault(Fault::Form));
        }
        self.end_op(alloc)?;
        Ok(())
    }

    /// The operations that are whole. What else a draft holds is dropped here.
    pub(crate) fn into_ops(self) -> TargetOps
        ensures { result ≡ (draft_shown self).ops }
    {
        self.ops
    }
}
