//! A builder that the caller holds by a pointer.
ghost use Rattle.std.specs.Prelude.{◌≡◌, Option, None, Some, MatchOption};
ghost use Rattle.runend_builder.specs.Builder.{Built};
ghost use Rattle.c_columns.specs.Builders.{builder_code};

use crate::raw_box::RawBox;
use runend_builder::RunBuilder;
use std::alloc::Global;
use std::marker::Model;
use std::{mem, ptr};

/// Holds a builder on the heap, or none. C sees a pointer, null for no builder, which it passes on and never follows.
#[repr(C)]
pub struct BuilderHandle {
    at: *mut u8,
    alloc: Global,
    pub ghost built: { Option Built } by { builder_code },
}

impl Model for BuilderHandle {
    ghost use Rattle.c_columns.specs.Builders.{holds_builder};

    ghost also_owns = { λ h. holds_builder h.alloc h.at h.built };
}

impl Drop for BuilderHandle {
    fn drop(self) {
        if let Some(parked) = self.into_parked() {
            drop(parked.from_raw());
        }
    }
}

impl BuilderHandle {
    /// Takes the builder out, and leaves the handle empty.
    pub fn take(&mut self, alloc: Global) -> Option<Box<RunBuilder<Global>>>
        ensures gone { self.new.built ≡ None }
        ensures found { MatchOption result (self.old.built ≡ None) (λ boxed. self.old.built ≡ Some boxed.value) }
    {
        let parked = mem::replace(self, BuilderHandle::empty(alloc)).into_parked()?;
        Some(parked.from_raw())
    }

    /// Puts a builder in. The builder that was there is freed.
    pub fn put(&mut self, boxed: Box<RunBuilder<Global>>)
        ensures { self.new.built ≡ Some boxed.value }
    {
        *self = BuilderHandle::of(RawBox::into_raw(boxed));
    }

    // A handle of no builder.
    fn empty(alloc: Global) -> BuilderHandle
        ensures { result.built ≡ None }
    {
        BuilderHandle {
            at: ptr::null_mut(),
            alloc,
        }
    }

    // The handle of a builder.
    fn of(parked: RawBox<RunBuilder<Global>, Global>) -> BuilderHandle
        ensures { result.built ≡ Some parked.value }
    {
        let RawBox { at, alloc } = parked;
        BuilderHandle {
            at: at.cast(),
            alloc,
        }
    }

    // What the handle holds.
    fn into_parked(self) -> Option<RawBox<RunBuilder<Global>, Global>>
        ensures { MatchOption result (self.built ≡ None) (λ parked. self.built ≡ Some parked.value) }
    {
        let BuilderHandle { at, alloc } = self;
        if at.is_null() {
            None
        } else {
            Some(RawBox {
                at: at.cast(),
                alloc,
            })
        }
    }
}
