//! Sessions: which kernels are registered, the thresholds by which they choose, and the context that
//! a call is given.
ghost use Rattle.std.specs.Prelude.{◌≡◌, ◌≢◌, true, false};
ghost use Rattle.runend_array.specs.SessionForm.{is_registered_in, no_thresholds};
ghost use Rattle.runend_array.specs.declared.session.Kernel.{Kernel};

use std::alloc::Allocator;
use std::marker::Model;

/// Names a kernel that serves run columns. Where it is not registered, a column is decoded first; rows, types, answers
/// and refusals are the same.
#[derive(Clone, Copy, Debug, PartialEq, Eq)]
pub enum Kernel {
    Slice,
    Filter,
    Take,
    TakeFrom,
    Compare,
    Cast,
    FillNull,
    ScalarFn,
    Sum,
    MinMax,
    IsConstant,
    IsSorted,
}

/// Holds the thresholds by which kernels choose between equal ways. They decide only form and cost. The default is 0
/// throughout.
#[derive(Clone, Copy, Debug, Default, PartialEq, Eq)]
pub struct Thresholds {
    /// Sets the least number of runs at which a decoder of booleans first fills all rows with what most runs show.
    pub prefill_runs: usize,
    /// Sets the number of selected rows below which a filter takes rows directly.
    pub min_run_filter_rows: usize,
    /// Lets a filter take rows directly where the selected rows times this number are fewer than the runs.
    pub filter_factor: usize,
    /// Sets the greatest number of runs for each index at which sorted indices are merged with the ends.
    pub sorted_runs_per_index: usize,
    /// Sets the greatest number of rows for each index at which a table says the run of each row.
    pub table_len_per_index: usize,
    /// Sets the least number of runs at which indices may be sorted for a merge.
    pub unsorted_min_runs: usize,
    /// Sets the greatest number of runs for each index at which indices may be sorted for a merge.
    pub unsorted_runs_per_index: usize,
}

/// Says which kernels are registered, and holds the thresholds by which they choose.
#[derive(Drop)]
pub struct VortexSession {
    registered: [bool; 12],
    thresholds: Thresholds,
}

impl Model for VortexSession {
    ghost use Rattle.runend_array.specs.SessionForm.{SessionForm};

    ghost Value = { SessionForm };

    ghost view = { λ s. record { flags = s.registered; thresholds = s.thresholds } };
}

impl VortexSession {
    /// Returns a session with no kernel, whose thresholds are all 0.
    pub fn empty() -> Self
        ensures none { (k : Kernel) → is_registered_in result k ≡ false }
        ensures thresholds { result.thresholds ≡ no_thresholds }
    {
        VortexSession {
            registered: [false; 12],
            thresholds: Thresholds::default(),
        }
    }

    /// Registers the kernel, which may be registered already. The thresholds and the other kernels
    /// stay as they are.
    pub fn register(&mut self, kernel: Kernel)
        ensures registered { is_registered_in self.new kernel ≡ true }
        ensures others { (k : Kernel) → k ≢ kernel → is_registered_in self.new k ≡ is_registered_in self.old k }
        ensures thresholds { self.new.thresholds ≡ self.old.thresholds }
    {
        self.registered[kernel as usize] = true;
    }

    /// Returns whether the kernel is registered.
    pub fn is_registered(&self, kernel: Kernel) -> bool
        ensures { result ≡ is_registered_in self.now kernel }
    {
        self.registered[kernel as usize]
    }

    /// Returns the thresholds by which kernels choose.
    pub fn thresholds(&self) -> Thresholds
        ensures { result ≡ self.now.thresholds }
    {
        self.thresholds
    }

    /// Sets the thresholds. Each kernel stays registered or not.
    pub fn set_thresholds(&mut self, thresholds: Thresholds)
        ensures set { self.new.thresholds ≡ thresholds }
        ensures kernels { (k : Kernel) → is_registered_in self.new k ≡ is_registered_in self.old k }
    {
        self.thresholds = thresholds;
    }
}

/// Holds what a call is given: its session, and the allocator of what it makes.
#[derive(Drop)]
pub struct ExecutionCtx<A: Allocator> {
    session: VortexSession,
    alloc: A,
}

impl<A: Allocator> Model for ExecutionCtx<A> {
    ghost use Rattle.runend_array.specs.SessionForm.{SessionForm};

    ghost Value = { SessionForm };

    ghost view = { λ context. context.session };
}

impl<A: Allocator + Copy> ExecutionCtx<A> {
    ghost use Rattle.std.specs.Prelude.{◌≡◌};
    ghost use Rattle.std.specs.Borrow.{sem};
    ghost use Rattle.runend_array.specs.SessionLends.{lends_session};

    /// Returns a context of this session, whose calls take memory from `alloc`.
    pub fn new(session: VortexSession, alloc: A) -> Self
        ensures { result ≡ session }
    {
        ExecutionCtx { session, alloc }
    }

    /// Returns the session.
    pub fn session(&self) -> &VortexSession
        ensures { result.now ≡ self.now }
    {
        &self.session
    }

    /// Returns the session, to be changed; the context keeps what is written to it.
    pub fn session_mut(&mut self) -> &mut VortexSession
        ensures* writes_back { sem 𝓛 (lends_session A.row A.Allocator self.entry result) }
        ensures value { result.now ≡ self.old }
    {
        &mut self.session
    }

    /// Returns the allocator.
    pub fn allocator(&self) -> &A {
        &self.alloc
    }
}
