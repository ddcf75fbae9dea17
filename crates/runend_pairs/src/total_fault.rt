//! Why running totals are refused.
ghost use Rattle.std.specs.Prelude.{◌≡◌};
ghost use Rattle.runend_pairs.specs.GroupFaults.{numbers_fault};
ghost use Rattle.runend_pairs.specs.declared.total_fault.TotalError.TheVariants.{Refused};

use column_core::{DType, VortexError, is_number_type};
use thiserror::Error;

/// Says why running totals are refused. Runs are counted from 0.
#[derive(Clone, Copy, Debug, Drop, PartialEq, Eq, Error)]
pub enum TotalError {
    /// Says that the column is not of integers, or that a growth of memory was refused.
    #[error("refused")]
    Refused(VortexError),
    /// Says that the total at the end of this run does not fit 64 bits, and that the totals of all runs before it do.
    #[error("Overflow")]
    Overflow { run: usize },
}

impl From<VortexError> for TotalError {
    ghost from_gives = { λ error given. given ≡ Refused error };

    fn from(error: VortexError) -> TotalError {
        TotalError::Refused(error)
    }
}

/// Returns why numbers of a type are not added up: `Unsupported` where they are not integers.
pub(crate) fn fault_of_numbers(dtype: DType) -> Option<VortexError>
    ensures { result ≡ numbers_fault dtype }
{
    if is_number_type(dtype) {
        None
    } else {
        Some(VortexError::Unsupported)
    }
}
