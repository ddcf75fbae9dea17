//! The bound on the tests of a search, as numbers.
ghost use Rattle.std.specs.Prelude.{◌≡◌, ◌+◌, ◌≤◌, length};
ghost use Rattle.std.specs.List.Sorted.{IsStrictlyIncreasing};
ghost use Rattle.runend_windows.specs.Window.{run_at};

use crate::searches::first_past;
use column_core::{CountedEnds, UnsignedPType};

/// Finds a row by `first_past` where there is one run: at most 1 test.
pub fn first_past_of_one_run<E: UnsignedPType>(run: &mut CountedEnds<'_, E>, row: usize) -> usize
    requires { length run.old.ends ≡ 1 }
    ensures place { result ≡ run_at run.old.ends row }
    ensures same { run.new.ends ≡ run.old.ends }
    ensures cost { run.new.tests ≤ run.old.tests + 1 }
{
    first_past(run, row)
}

/// Finds a row by `first_past` over 4 runs: at most 3 tests.
pub fn first_past_of_four_runs<E: UnsignedPType>(
    four_runs: &mut CountedEnds<'_, E>,
    row: usize,
) -> usize
    requires increasing { IsStrictlyIncreasing four_runs.old.ends }
    requires four { length four_runs.old.ends ≡ 4 }
    ensures place { result ≡ run_at four_runs.old.ends row }
    ensures same { four_runs.new.ends ≡ four_runs.old.ends }
    ensures cost { four_runs.new.tests ≤ four_runs.old.tests + 3 }
{
    first_past(four_runs, row)
}

/// Finds a row by `first_past` over 524288 (2^19) runs: at most 20 tests.
pub fn first_past_of_524288_runs<E: UnsignedPType>(
    many_runs: &mut CountedEnds<'_, E>,
    row: usize,
) -> usize
    requires increasing { IsStrictlyIncreasing many_runs.old.ends }
    requires many { length many_runs.old.ends ≡ 524288 }
    ensures place { result ≡ run_at many_runs.old.ends row }
    ensures same { many_runs.new.ends ≡ many_runs.old.ends }
    ensures cost { many_runs.new.tests ≤ many_runs.old.tests + 20 }
{
    first_past(many_runs, row)
}
