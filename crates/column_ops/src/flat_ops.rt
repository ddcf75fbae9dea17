//! Operations on flat columns of any type.
ghost use Rattle.column_core.specs.FlatColumn.{leaf_of};

use crate::ops::ColumnOps;
use column_core::{DType, FlatColumn, Mask, ScalarValue, Validity, VortexError, VortexResult};
use std::alloc::Allocator;

impl<A: Allocator + Copy> ColumnOps<A> for FlatColumn<A> {
    ghost leaf = { λ column. leaf_of column };

    fn row_count(&self) -> usize {
        self.len()
    }

    fn column_dtype(&self) -> DType {
        self.dtype()
    }

    fn take_at(
        &self,
        alloc: A,
        positions: &[u64],
        validity: &Validity<A>,
    ) -> VortexResult<FlatColumn<A>> {
        match self {
            FlatColumn::Primitive(array) => {
                let taken = array.take_at(alloc, positions, validity)?;
                Ok(FlatColumn::Primitive(taken))
            }
            FlatColumn::Bool(array) => {
                let taken = array.take_at(alloc, positions, validity)?;
                Ok(FlatColumn::Bool(taken))
            }
            FlatColumn::Decimal(array) => {
                let taken = array.take_at(alloc, positions, validity)?;
                Ok(FlatColumn::Decimal(taken))
            }
            FlatColumn::VarBinView(array) => {
                let taken = array.take_at(alloc, positions, validity)?;
                Ok(FlatColumn::VarBinView(taken))
            }
        }
    }

    fn filter(&self, alloc: A, mask: &Mask<A>) -> VortexResult<FlatColumn<A>> {
        match self {
            FlatColumn::Primitive(array) => {
                let kept = array.filter(alloc, mask)?;
                Ok(FlatColumn::Primitive(kept))
            }
            FlatColumn::Bool(array) => {
                let kept = array.filter(alloc, mask)?;
                Ok(FlatColumn::Bool(kept))
            }
            FlatColumn::Decimal(array) => {
                let kept = array.filter(alloc, mask)?;
                Ok(FlatColumn::Decimal(kept))
            }
            FlatColumn::VarBinView(array) => {
                let kept = array.filter(alloc, mask)?;
                Ok(FlatColumn::VarBinView(kept))
            }
        }
    }

    fn fill_with(&self, alloc: A, value: &ScalarValue<A>) -> VortexResult<FlatColumn<A>> {
        match self {
            FlatColumn::Primitive(array) => {
                let filled = array.fill_with(alloc, value)?;
                Ok(FlatColumn::Primitive(filled))
            }
            FlatColumn::Bool(array) => {
                let filled = array.fill_with(alloc, value)?;
                Ok(FlatColumn::Bool(filled))
            }
            FlatColumn::Decimal(array) => {
                let filled = array.fill_with(alloc, value)?;
                Ok(FlatColumn::Decimal(filled))
            }
            FlatColumn::VarBinView(array) => {
                let filled = array.fill_with(alloc, value)?;
                Ok(FlatColumn::VarBinView(filled))
            }
        }
    }

    fn cast_to(&self, alloc: A, dtype: DType) -> VortexResult<FlatColumn<A>> {
        match self {
            FlatColumn::Primitive(array) => {
                let cast = array.cast_to(alloc, dtype)?;
                Ok(FlatColumn::Primitive(cast))
            }
            FlatColumn::Bool(array) => {
                let cast = array.cast_to(alloc, dtype)?;
                Ok(FlatColumn::Bool(cast))
            }
            FlatColumn::Decimal(array) => {
                let cast = array.cast_to(alloc, dtype)?;
                Ok(FlatColumn::Decimal(cast))
            }
            FlatColumn::VarBinView(array) => {
                let cast = array.cast_to(alloc, dtype)?;
                Ok(FlatColumn::VarBinView(cast))
            }
        }
    }
}
