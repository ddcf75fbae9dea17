//! The values of runs of decimals written at another scale, one for each run.
ghost use Rattle.std.specs.Prelude.{◌≡◌, ℤ, length, map, min, option_map, FitsSigned, IfErr, IfOk, None};
ghost use Rattle.std.specs.Int.{w128};
ghost use Rattle.column_base.specs.declared.dtype.DType.TheVariants as types;
ghost use Rattle.column_base.specs.ValidityForm.{nullability_in};
ghost use Rattle.column_core.specs.DecimalForm.{decimal_dtype_of, optional_decimals};
ghost use Rattle.column_core.specs.Leaf.{OfDecimals, single_rows};
ghost use Rattle.runend_floats.specs.Runs.{AreWholeRuns};
ghost use Rattle.runend_windows.specs.Ends.{ends_of};
ghost use Rattle.runend_windows.specs.Window.{last_end, run_rows};
ghost use Rattle.runend_decimals.specs.Digits.{HasDigits};
ghost use Rattle.runend_decimals.specs.Rescaling.{stored_at, stored_by, IsRescaling};
ghost use Rattle.runend_decimals.specs.Scales.{decimal_row, rescaled, EachDecimal, IsHeldAt, IsHeldBy, IsRescaleRefusal, IsRescaleRefusalBy};

use crate::ends::first_row;
use crate::fault::RescaleError;
use crate::runs::decimal_at;
use crate::scaling::{Digits, Limits, Rescaling};
use column_core::{DecimalArray, DecimalDType, PrimitiveArray};
use std::alloc::Allocator;

/// Returns the values of these runs in another precision and scale. Refused with the first row that is not a decimal of
/// that type, and as `OutOfMemory`.
pub(crate) fn rescaled_decimals<A: Allocator + Copy>(
    alloc: A,
    ends: &PrimitiveArray<A>,
    values: &DecimalArray<A>,
    to: DecimalDType,
) -> Result<DecimalArray<A>, RescaleError>
    requires runs { AreWholeRuns ends.now }
    requires paired { length (optional_decimals values.now) ≡ length (ends_of ends.now) }
    ensures rows { IfOk result (λ decimals. single_rows (OfDecimals decimals) ≡
        map (λ n. decimal_row (option_map (rescaled values.now.decimal.scale to.scale) n))
        (optional_decimals values.now)) }
    ensures dtype { IfOk result (λ decimals. decimal_dtype_of decimals ≡
        types.Decimal to (nullability_in values.now.validity)) }
    ensures held { IfOk result (λ decimals.
        EachDecimal (IsHeldAt values.now.decimal.scale to.scale (HasDigits (min to.precision 38)))
        (run_rows (ends_of ends.now) (optional_decimals values.now) 0 (last_end (ends_of ends.now)))) }
    ensures refused { IfErr result
        (IsRescaleRefusal None values.now.decimal.scale to.scale (HasDigits (min to.precision 38))
        (run_rows (ends_of ends.now) (optional_decimals values.now) 0 (last_end (ends_of ends.now)))) }
{
    let validity = values.validity().try_clone(alloc)?;
    let limits = Digits::of(to.precision);
    let items = rescaled_items(alloc, ends, values, to.scale, &limits)?;
    Ok(DecimalArray::new_unchecked(items, to, validity))
}

/// Returns the items of these decimals at another scale, and the item of 0 for null. Refused with the first row whose
/// decimal has no item, and as `OutOfMemory`.
pub(crate) fn rescaled_items<Z: Copy + Drop, L: Limits<Z>, A: Allocator + Copy>(
    alloc: A,
    ends: &PrimitiveArray<A>,
    values: &DecimalArray<A>,
    scale: i8,
    limits: &L,
) -> Result<Vec<Z, A>, RescaleError>
    requires small { (n : ℤ) → L.has limits.now n → FitsSigned w128 n }
    requires runs { AreWholeRuns ends.now }
    requires paired { length (optional_decimals values.now) ≡ length (ends_of ends.now) }
    ensures items { IfOk result (λ items. map L.integer items.items ≡
        map (stored_at values.now.decimal.scale scale) (optional_decimals values.now)) }
    ensures held { IfOk result (λ items.
        EachDecimal (IsHeldAt values.now.decimal.scale scale (L.has limits.now))
        (run_rows (ends_of ends.now) (optional_decimals values.now) 0 (last_end (ends_of ends.now)))) }
    ensures refused { IfErr result (IsRescaleRefusal None values.now.decimal.scale scale (L.has limits.now)
        (run_rows (ends_of ends.now) (optional_decimals values.now) 0 (last_end (ends_of ends.now)))) }
{
    let rescaling = Rescaling::between(values.decimal_dtype().scale, scale);
    stored_items(alloc, ends, values, rescaling, limits)
}

// Returns the same by the powers of ten of the two scales.
fn stored_items<Z: Copy + Drop, L: Limits<Z>, A: Allocator + Copy>(
    alloc: A,
    ends: &PrimitiveArray<A>,
    values: &DecimalArray<A>,
    rescaling: Rescaling,
    limits: &L,
) -> Result<Vec<Z, A>, RescaleError>
    requires valid { IsRescaling rescaling }
    requires small { (n : ℤ) → L.has limits.now n → FitsSigned w128 n }
    requires runs { AreWholeRuns ends.now }
    requires paired { length (optional_decimals values.now) ≡ length (ends_of ends.now) }
    ensures items { IfOk result (λ items. map L.integer items.items ≡
        map (stored_by rescaling.dropped.places rescaling.added.places) (optional_decimals values.now)) }
    ensures held { IfOk result (λ items.
        EachDecimal (IsHeldBy rescaling.dropped.places rescaling.added.places (L.has limits.now))
        (run_rows (ends_of ends.now) (optional_decimals values.now) 0 (last_end (ends_of ends.now)))) }
    ensures refused { IfErr result (IsRescaleRefusalBy None rescaling.dropped.places rescaling.added.places
        (L.has limits.now)
        (run_rows (ends_of ends.now) (optional_decimals values.now) 0 (last_end (ends_of ends.now)))) }
{
    let mut items = Vec::with_capacity(alloc, values.len())?;
    for run in 0..values.len() {
        match rescaling.item(decimal_at(values, run), limits) {
            Ok(item) => items.push_reserved(item),
            Err(misfit) => return Err(misfit.at(first_row(ends, run))),
        }
    }
    Ok(items)
}
