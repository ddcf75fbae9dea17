//! What lines set of the session.
ghost use Rattle.runend_script.specs.Session.{IsSetTo};

use crate::command::Setting;
use std::alloc::Allocator;
use vortex_runend::{ExecutionCtx, Thresholds, VortexSession, default_thresholds, initialize};

/// Sets either which kernels are registered, or the thresholds; the other of the two stays as it is.
pub fn set_session<A: Allocator + Copy>(setting: Setting, ctx: &mut ExecutionCtx<A>)
    ensures { IsSetTo setting ctx.old ctx.new }
{
    match setting {
        Setting::AllKernels => register_all(ctx.session_mut()),
        Setting::NoKernels => {
            let session = without_kernels(ctx.session());
            *ctx = ExecutionCtx::new(session, *ctx.allocator());
        }
        Setting::CrateThresholds => ctx.session_mut().set_thresholds(default_thresholds()),
        Setting::ZeroThresholds => ctx.session_mut().set_thresholds(Thresholds::default()),
    }
}

// Registers every kernel, and keeps the thresholds.
fn register_all(session: &mut VortexSession)
    ensures { IsSetTo Setting.AllKernels session.old session.new }
{
    let thresholds = session.thresholds();
    initialize(session);
    session.set_thresholds(thresholds);
}

// A session of these thresholds, with no kernel.
fn without_kernels(session: &VortexSession) -> VortexSession
    ensures { IsSetTo Setting.NoKernels session.now result }
{
    let mut bare = VortexSession::empty();
    bare.set_thresholds(session.thresholds());
    bare
}
