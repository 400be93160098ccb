//! The program `oa`: reads standard input, writes standard output, and ends with the status's number.
#![tactic(auto)]

use oa_cli::run_program;
use std::process::ExitCode;

fn main(rt: HostRuntime) -> ExitCode {
    ExitCode::from(run_program(&rt, rt.stderr()))
}
