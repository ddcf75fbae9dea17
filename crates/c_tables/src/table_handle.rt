//! A table that the caller holds by a pointer.
ghost use Rattle.std.specs.Prelude.{◌≡◌, Option, None, Some, MatchOption};
ghost use Rattle.tables.specs.Tables.{TableForm};
ghost use Rattle.c_tables.specs.TableHandle.{held_code};

use crate::raw_box::RawBox;
use std::alloc::Global;
use std::marker::Model;
use std::{mem, ptr};
use tables::Table;

/// Holds no table, or one on the heap. C sees a pointer, null for no table, which it passes on and never follows.
#[repr(C)]
pub struct TableHandle {
    at: *mut u8,
    alloc: Global,
    pub ghost table: { Option TableForm } by { held_code },
}

impl Model for TableHandle {
    ghost use Rattle.c_tables.specs.TableHandle.{holds_table};

    ghost also_owns = { λ h. holds_table h.alloc h.at h.table };
}

impl Drop for TableHandle {
    fn drop(self) {
        if let Some(parked) = self.into_parked() {
            drop(parked.from_raw());
        }
    }
}

impl TableHandle {
    /// Takes the table out, and leaves the handle empty.
    pub fn take(&mut self, alloc: Global) -> Option<Box<Table<Global>>>
        ensures gone { self.new.table ≡ None }
        ensures found { MatchOption result (self.old.table ≡ None) (λ boxed. self.old.table ≡ Some boxed.value) }
    {
        let parked = mem::replace(self, TableHandle::empty(alloc)).into_parked()?;
        Some(parked.from_raw())
    }

    /// Puts a table in. The table that was there is freed.
    pub fn put(&mut self, boxed: Box<Table<Global>>)
        ensures { self.new.table ≡ Some boxed.value }
    {
        *self = TableHandle::of(RawBox::into_raw(boxed));
    }

    // A handle of no table.
    fn empty(alloc: Global) -> TableHandle
        ensures { result.table ≡ None }
    {
        TableHandle {
            at: ptr::null_mut(),
            alloc,
        }
    }

    // The handle of a table.
    fn of(parked: RawBox<Table<Global>, Global>) -> TableHandle
        ensures { result.table ≡ Some parked.value }
    {
        let RawBox { at, alloc } = parked;
        TableHandle {
            at: at.cast(),
            alloc,
        }
    }

    // What the handle holds.
    fn into_parked(self) -> Option<RawBox<Table<Global>, Global>>
        ensures { MatchOption result (self.table ≡ None) (λ parked. self.table ≡ Some parked.value) }
    {
        let TableHandle { at, alloc } = self;
        if at.is_null() {
            None
        } else {
            Some(RawBox {
                at: at.cast(),
                alloc,
            })
        }
    }
}
