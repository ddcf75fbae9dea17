//! The law of runs of commands. The function does nothing: its clause is the law.
ghost use Rattle.runend_commands.specs.Laws.{RunsAgree};

use std::alloc::Allocator;

/// Proves that two runs of the same commands, from equal plain columns and with no `OutOfMemory` among the answers,
/// have equal answers and end in equal plain columns, whatever the forms, kernels and thresholds.
/// For scanners: kernels and thresholds can be switched at will.
pub fn runs_agree<A: Allocator>()
    ensures { RunsAgree A }
{}
