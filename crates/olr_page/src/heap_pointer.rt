//! A box as a bare pointer. It can be stored where no box can: in memory that a caller of an
//! exported function keeps.

ghost use Rattle.std.specs.Prelude.{◌≡◌};
ghost use Rattle.std.specs.Global.{Global};

use std::alloc::{Allocator, Global};
use std::marker::Model;

/// A pointer that owns a value on the heap.
pub(crate) struct HeapPointer<T> {
    /// Where the value lies.
    pub(crate) at: *mut T,
    pub(crate) ghost heap: { Global },
    pub(crate) ghost value: { T },
}

impl<T> Model for HeapPointer<T> {
    ghost use Rattle.std.specs.Box.Ownership.{box_owns};
    ghost use Rattle.std.specs.Global.{Global};

    ghost also_owns = { λ pointer. box_owns
        (⟦<Global as Allocator>⟧.dealloc_token pointer.heap) T.row pointer.at pointer.value };
}

impl<T> HeapPointer<T> {
    /// The pointer of a box.
    pub(crate) fn of(boxed: Box<T>) -> HeapPointer<T>
    where
        T: Drop,
        ensures { result.value ≡ boxed.value }
    {
        let at = Box::into_raw(boxed);
        HeapPointer { at }
    }

    /// The box again.
    pub(crate) fn into_box(self, alloc: Global) -> Box<T>
        ensures { result.value ≡ self.value }
    {
        let HeapPointer { at } = self;
        unsafe { Box::from_raw(alloc, at) }
    }
}
