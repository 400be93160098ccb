//! From the bytes of a certificate to the verdict on its run.

ghost use Rattle.std.specs.Prelude.{◌+◌, ◌<◌, ◌^◌, length, IfOk, IfErr};
ghost use Rattle.oa_text.specs.Lines.{lines_of};
ghost use Rattle.library_examples.specs.Judging.{IsVerdictOn, IsJudgingProblem};

use certificates::read_certificate;
use event_judge::Verdict;
use norm_parser::{ParseError, ParseFault};
use run_judge::judge;
use script_plans::RunFault;
use std::alloc::Global;

/// Why the bytes of a certificate give no verdict.
pub enum JudgingProblem {
    Memory,
    /// They spell no certificate: the first faulty line, and its first fault.
    Fault(ParseFault),
    /// The document of the certificate can't be run.
    NotRun(RunFault),
}

/// What is found of the certificate that the bytes spell: whether its events are a run of its text on memory that is never recycled,
/// which begins the calls of its scripts and agrees with its replies. The bytes have fewer than 2^32 - 1 lines.
///
/// # Errors
/// The first fault of the bytes, why the document can't be run, or that memory ran out.
pub fn judge_bytes(alloc: Global, input: &[u8]) -> Result<Verdict, JudgingProblem>
    requires { length (lines_of input.now) + 1 < 2 ^ 32 }
    ensures verdict { IfOk result (λ verdict. IsVerdictOn input.now verdict) }
    ensures problem { IfErr result (λ problem. IsJudgingProblem input.now problem) }
{
    match read_certificate(alloc, input) {
        Ok(certificate) => match judge(alloc, &certificate) {
            Ok(verdict) => Ok(verdict),
            Err(fault) => Err(JudgingProblem::NotRun(fault)),
        },
        Err(ParseError::Memory) => Err(JudgingProblem::Memory),
        Err(ParseError::Fault(fault)) => Err(JudgingProblem::Fault(fault)),
    }
}
