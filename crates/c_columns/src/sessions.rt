//! Sessions that C passes, as numbers and flags.
ghost use Rattle.std.specs.Prelude.{◌≡◌, ◌≢◌, false};
ghost use Rattle.c_columns.specs.Flags.{flag_of};
ghost use Rattle.c_columns.specs.Sessions.{HasAllKernels, IsSessionOf, thresholds_in};
ghost use Rattle.runend_array.specs.SessionForm.{crate_thresholds, is_registered_in};
ghost use Rattle.runend_array.specs.declared.session.Kernel.{Kernel};

use runend_array::{ExecutionCtx, Kernel, Thresholds, VortexSession};
use runend_commands::{KERNELS, default_thresholds};
use std::alloc::Global;

/// Holds a flag for each kernel, in the order of the kernels, 0 where it is not registered, and the thresholds by which
/// kernels choose.
#[repr(C)]
#[derive(Clone, Copy)]
pub struct Session {
    pub prefill_runs: usize,
    pub min_run_filter_rows: usize,
    pub filter_factor: usize,
    pub sorted_runs_per_index: usize,
    pub table_len_per_index: usize,
    pub unsorted_min_runs: usize,
    pub unsorted_runs_per_index: usize,
    pub kernels: [u8; 12],
}

/// Returns the context of this session.
pub fn context(alloc: Global, session: &Session) -> ExecutionCtx<Global>
    ensures { IsSessionOf session.now result }
{
    let mut built = VortexSession::empty();
    for kernel in KERNELS {
        register_where(&mut built, kernel, session.kernels[kernel as usize]);
    }
    built.set_thresholds(Thresholds {
        prefill_runs: session.prefill_runs,
        min_run_filter_rows: session.min_run_filter_rows,
        filter_factor: session.filter_factor,
        sorted_runs_per_index: session.sorted_runs_per_index,
        table_len_per_index: session.table_len_per_index,
        unsorted_min_runs: session.unsorted_min_runs,
        unsorted_runs_per_index: session.unsorted_runs_per_index,
    });
    ExecutionCtx::new(built, alloc)
}

/// Returns a context without kernels, for calls that ask none.
pub fn plain_context(alloc: Global) -> ExecutionCtx<Global> {
    ExecutionCtx::new(VortexSession::empty(), alloc)
}

/// Returns the session that has every kernel, and the thresholds that the ported crate sets.
pub fn initial() -> Session
    ensures thresholds { thresholds_in result ≡ crate_thresholds }
    ensures kernels { HasAllKernels result }
{
    let thresholds = default_thresholds();
    Session {
        prefill_runs: thresholds.prefill_runs,
        min_run_filter_rows: thresholds.min_run_filter_rows,
        filter_factor: thresholds.filter_factor,
        sorted_runs_per_index: thresholds.sorted_runs_per_index,
        table_len_per_index: thresholds.table_len_per_index,
        unsorted_min_runs: thresholds.unsorted_min_runs,
        unsorted_runs_per_index: thresholds.unsorted_runs_per_index,
        kernels: [1; 12],
    }
}

// Registers the kernel where the flag says so.
fn register_where(built: &mut VortexSession, kernel: Kernel, flag: u8)
    requires fresh { is_registered_in built.old kernel ≡ false }
    ensures registered { is_registered_in built.new kernel ≡ flag_of flag }
    ensures others { (k : Kernel) → k ≢ kernel → is_registered_in built.new k ≡ is_registered_in built.old k }
    ensures thresholds { built.new.thresholds ≡ built.old.thresholds }
{
    if flag != 0 {
        built.register(kernel);
    }
}
