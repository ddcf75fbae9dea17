//! Reads a script of commands on a column from standard input, and prints an answer line for each.
#![tactic(auto)]

use runend_script::serve;
use std::process::ExitCode;
use vortex_runend::{ExecutionCtx, VortexSession, initialize};

fn main(rt: HostRuntime) -> ExitCode {
    let mut session = VortexSession::empty();
    initialize(&mut session);
    let mut ctx = ExecutionCtx::new(session, rt.alloc());
    let status = serve(
        &mut rt.stdin(),
        &mut rt.stdout(),
        &mut rt.stderr(),
        &mut ctx,
    );
    ExitCode::from(status)
}
