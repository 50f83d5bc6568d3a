//! The program `olr`.
#![tactic(auto)]

use olr_command_line::run_on_system;
use std::io;
use std::process::ExitCode;

fn main(rt: HostRuntime) -> io::Result<ExitCode> {
    run_on_system(&rt)
}
