//! A column that the caller holds by a pointer.
ghost use Rattle.std.specs.Prelude.{◌≡◌, Option, None, Some, IfSome, MatchOption};
ghost use Rattle.std.specs.Global.{Global};
ghost use Rattle.typed_columns.specs.Typed.{format_of};
ghost use Rattle.typed_columns.specs.declared.typed_column.TypedColumn.{TypedColumn};
ghost use Rattle.c_columns.specs.Handle.{array_in, column_code, format_in};

use crate::raw_box::RawBox;
use std::alloc::Global;
use std::marker::Model;
use std::{mem, ptr};
use typed_columns::TypedColumn;

/// Holds a column with its format on the heap, or none. C sees a pointer, null for no column, which it passes on and
/// never follows.
#[repr(C)]
pub struct Handle {
    at: *mut u8,
    alloc: Global,
    pub ghost column: { Option (TypedColumn Global) } by { column_code },
}

impl Model for Handle {
    ghost use Rattle.c_columns.specs.Handle.{holds};

    ghost also_owns = { λ h. holds h.alloc h.at h.column };
}

impl Drop for Handle {
    fn drop(self) {
        if let Some(parked) = self.into_parked() {
            drop(parked.from_raw());
        }
    }
}

impl Handle {
    /// Takes the column out, and leaves the handle empty.
    #[tactic(auto, using(crate::proofs::Held::array_none, crate::proofs::Held::array_some, crate::proofs::Held::format_some))]
    pub fn take(&mut self, alloc: Global) -> Option<Box<TypedColumn<Global>>>
        ensures gone { self.new.column ≡ None }
        ensures found { MatchOption result (self.old.column ≡ None) (λ boxed. self.old.column ≡ Some boxed.value) }
        ensures array { MatchOption result (array_in self.old.column ≡ None)
            (λ boxed. array_in self.old.column ≡ Some boxed.value.array) }
        ensures format { IfSome result (λ boxed. format_in self.old.column ≡ format_of boxed.value) }
    {
        let parked = mem::replace(self, Handle::empty(alloc)).into_parked()?;
        Some(parked.from_raw())
    }

    /// Puts a column in. The column that was there is freed.
    pub fn put(&mut self, boxed: Box<TypedColumn<Global>>)
        ensures { self.new.column ≡ Some boxed.value }
    {
        *self = Handle::of(RawBox::into_raw(boxed));
    }

    // A handle of no column.
    fn empty(alloc: Global) -> Handle
        ensures { result.column ≡ None }
    {
        Handle {
            at: ptr::null_mut(),
            alloc,
        }
    }

    // The handle of a column.
    fn of(parked: RawBox<TypedColumn<Global>, Global>) -> Handle
        ensures { result.column ≡ Some parked.value }
    {
        let RawBox { at, alloc } = parked;
        Handle {
            at: at.cast(),
            alloc,
        }
    }

    // What the handle holds.
    fn into_parked(self) -> Option<RawBox<TypedColumn<Global>, Global>>
        ensures { MatchOption result (self.column ≡ None) (λ parked. self.column ≡ Some parked.value) }
    {
        let Handle { at, alloc } = self;
        if at.is_null() {
            None
        } else {
            Some(RawBox {
                at: at.cast(),
                alloc,
            })
        }
    }
}
