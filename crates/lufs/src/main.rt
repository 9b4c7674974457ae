//! The program `lufs`: makes, checks and lists volumes with a log of their metadata, and serves scripts on them.
#![tactic(auto)]

mod program;

use program::{arguments, program};
use real_host::FileHost;
use std::env;
use std::process::ExitCode;

fn main(rt: HostRuntime) -> ExitCode {
    let arguments = arguments(rt.alloc(), env::args(&rt));
    program(rt.alloc(), &mut FileHost::new(rt), arguments)
}
