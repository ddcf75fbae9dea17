//! Why a call on decimals is refused.
ghost use Rattle.std.specs.Prelude.{◌≡◌};
ghost use Rattle.column_base.specs.declared.error.VortexError.TheVariants.{OutOfMemory};
ghost use Rattle.runend_decimals.specs.Rows.{is_decimals};
ghost use Rattle.runend_decimals.specs.declared.fault.DecimalError.TheVariants.{Refused};
ghost use Rattle.runend_decimals.specs.declared.fault.RescaleError.TheVariants as rescale;

use column_core::{DType, VortexError};
use std::alloc::AllocError;
use thiserror::Error;

/// Says why a call on decimals is refused. Rows are counted from 0.
#[derive(Clone, Copy, Debug, Drop, PartialEq, Eq, Error)]
pub enum DecimalError {
    /// Says that the call does not serve the column, or that a growth of memory was refused.
    #[error("refused")]
    Refused(VortexError),
    /// Has the first row with which a sum has more digits than 38.
    #[error("Overflow")]
    Overflow { row: usize },
}

impl From<VortexError> for DecimalError {
    ghost from_gives = { λ error given. given ≡ Refused error };

    fn from(error: VortexError) -> DecimalError {
        DecimalError::Refused(error)
    }
}

/// Says why decimals are not written in the precision and scale asked for, or as integers. Rows are counted from 0.
#[derive(Clone, Copy, Debug, Drop, PartialEq, Eq, Error)]
pub enum RescaleError {
    /// Says that the call does not serve the column, or that a growth of memory was refused.
    #[error("refused")]
    Refused(VortexError),
    /// Has the first row whose decimal has more places than the scale asked for.
    #[error("Inexact")]
    Inexact { row: usize },
    /// Has the first row whose decimal has more digits than the precision asked for, or is past the type of integers.
    #[error("Overflow")]
    Overflow { row: usize },
}

impl From<VortexError> for RescaleError {
    ghost from_gives = { λ error given. given ≡ rescale.Refused error };

    fn from(error: VortexError) -> RescaleError {
        RescaleError::Refused(error)
    }
}

impl From<AllocError> for RescaleError {
    ghost from_gives = { λ _ given. given ≡ rescale.Refused OutOfMemory };

    fn from(_error: AllocError) -> RescaleError {
        RescaleError::Refused(VortexError::OutOfMemory)
    }
}

/// Returns whether the type is one of decimals.
pub(crate) fn is_decimal_type(dtype: DType) -> bool
    ensures { result ≡ is_decimals dtype }
{
    match dtype {
        DType::Decimal(_, _) => true,
        _ => false,
    }
}
