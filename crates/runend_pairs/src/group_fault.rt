//! Why groups are refused.
ghost use Rattle.std.specs.Prelude.{◌≡◌};
ghost use Rattle.runend_pairs.specs.GroupFaults.{groups_fault};
ghost use Rattle.runend_pairs.specs.declared.group_fault.GroupError.TheVariants.{Refused};

use crate::total_fault::fault_of_numbers;
use column_core::{DType, VortexError, fault_of_lists};
use thiserror::Error;

/// Says why groups are refused. Groups are counted from 0.
#[derive(Clone, Copy, Debug, Drop, PartialEq, Eq, Error)]
pub enum GroupError {
    /// Says that the columns do not go together, or that a growth of memory was refused.
    #[error("refused")]
    Refused(VortexError),
    /// Says that the sum of this group does not fit 64 bits, and those of all groups before it do.
    #[error("SumOverflow")]
    SumOverflow { group: usize },
}

impl From<VortexError> for GroupError {
    ghost from_gives = { λ error given. given ≡ Refused error };

    fn from(error: VortexError) -> GroupError {
        GroupError::Refused(error)
    }
}

/// Returns why values of a type are not grouped by keys of a type: `Unsupported` for keys that are lists, and for
/// values that are not integers; then `ColumnLength` where the numbers of values and of keys differ.
pub(crate) fn fault_of_groups(
    keys: DType,
    values: DType,
    key_count: usize,
    value_count: usize,
) -> Option<VortexError>
    ensures { result ≡ groups_fault keys values key_count value_count }
{
    if let Some(error) = fault_of_lists(keys) {
        return Some(error);
    }
    if let Some(error) = fault_of_numbers(values) {
        return Some(error);
    }
    if key_count == value_count {
        None
    } else {
        Some(VortexError::ColumnLength {
            left: key_count,
            right: value_count,
        })
    }
}
