//! The program `oax`: reads standard input, writes standard output, and ends with the number of what was found.
#![tactic(auto)]

use oax_cli::run_program;
use std::process::ExitCode;

fn main(rt: HostRuntime) -> ExitCode {
    ExitCode::from(run_program(&rt, rt.stderr()))
}
