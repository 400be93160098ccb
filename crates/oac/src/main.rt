//! The program `oac`: reads a document from standard input, writes a header of C11, and ends with the status's number.
#![tactic(auto)]

use oac_cli::run_program;
use std::process::ExitCode;

fn main(rt: HostRuntime) -> ExitCode {
    ExitCode::from(run_program(&rt, rt.stderr()))
}
