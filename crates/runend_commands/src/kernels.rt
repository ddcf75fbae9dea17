//! What is registered in a session: every kernel, and the thresholds by which kernels choose.
ghost use Rattle.std.specs.Prelude.{◌≡◌, true};
ghost use Rattle.runend_array.specs.SessionForm.{crate_thresholds, is_registered_in};
ghost use Rattle.runend_array.specs.declared.session.Kernel.{Kernel};

use runend_array::{Kernel, Thresholds, VortexSession};

/// Lists every kernel, in the order in which they are declared.
pub const KERNELS: [Kernel; 12] = [
    Kernel::Slice,
    Kernel::Filter,
    Kernel::Take,
    Kernel::TakeFrom,
    Kernel::Compare,
    Kernel::Cast,
    Kernel::FillNull,
    Kernel::ScalarFn,
    Kernel::Sum,
    Kernel::MinMax,
    Kernel::IsConstant,
    Kernel::IsSorted,
];

/// Sets the least number of runs at which a decoder of booleans first fills all rows with what most runs show. That is
/// work for each row, which only pays where it spares many runs; with fewer runs it appends run by run.
const PREFILL_RUNS: usize = 32;

/// Sets the number of selected rows below which a filter takes rows one by one. A filter that keeps runs has costs that
/// do not shrink with the selection: it reads every run, and filters the values too.
const MIN_RUN_FILTER_SELECTED_ROWS: usize = 25;

/// Lets a filter take rows one by one where the runs are more than this many times the selected rows. Taking costs by
/// the selected row, and keeping runs costs by the run.
const TAKE_RUNS_PER_SELECTED_ROW: usize = 10;

/// Sets the greatest number of runs for each index at which sorted indices are merged with the ends. The merge reads
/// each run once, where a search reads a few runs for each index.
const SORTED_RUNS_PER_INDEX: usize = 16;

/// Sets the greatest number of rows for each index at which each row gets a bit, set where a run ends. The bits cost by
/// the word of 64 rows and by the run, and then give the run of an index by a count, where a search reads a few runs
/// for each index.
const TABLE_LEN_PER_INDEX: usize = 8;

/// Sets the least number of runs, 2 to the power of 19, at which indices may be sorted for a merge. Fewer ends stay in
/// the processor's cache, and are searched faster than indices are sorted.
const UNSORTED_MIN_RUNS: usize = 524_288;

/// Sets the greatest number of runs for each index at which indices are sorted and merged: a smaller one than
/// `SORTED_RUNS_PER_INDEX`, since the indices have to be sorted first.
const UNSORTED_RUNS_PER_INDEX: usize = 4;

/// Registers every kernel in the session, and sets the thresholds of the Rust crate.
pub fn initialize(session: &mut VortexSession)
    ensures kernels { (k : Kernel) → is_registered_in session.new k ≡ true }
    ensures thresholds { session.new.thresholds ≡ crate_thresholds }
{
    for kernel in KERNELS {
        session.register(kernel);
    }
    session.set_thresholds(default_thresholds());
}

/// Returns the thresholds of the Rust crate.
pub fn default_thresholds() -> Thresholds
    ensures { result ≡ crate_thresholds }
{
    Thresholds {
        prefill_runs: PREFILL_RUNS,
        min_run_filter_rows: MIN_RUN_FILTER_SELECTED_ROWS,
        filter_factor: TAKE_RUNS_PER_SELECTED_ROW,
        sorted_runs_per_index: SORTED_RUNS_PER_INDEX,
        table_len_per_index: TABLE_LEN_PER_INDEX,
        unsorted_min_runs: UNSORTED_MIN_RUNS,
        unsorted_runs_per_index: UNSORTED_RUNS_PER_INDEX,
    }
}
