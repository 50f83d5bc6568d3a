//! A map that the caller of the exported functions keeps between its calls.

ghost use Rattle.std.specs.Prelude.{◌≡◌, IsSome, None, Option, Some, is_some, option_map};
ghost use Rattle.std.specs.Box.{box_value};
ghost use Rattle.std.specs.Global.{Global};
ghost use Rattle.olr_road.specs.RoadMap.{RoadMap};

use crate::heap_pointer::HeapPointer;
use olr_road::Map;
use std::alloc::{Allocator, Global};
use std::marker::Model;
use std::{mem, ptr};

/// A pointer that owns a map on the heap, or owns nothing. The type that it points to isn't named,
/// since a caller in another language can't look into a map. It can't be dropped: a map is taken
/// out, or there is none.
#[repr(C)]
pub(crate) struct MapPointer {
    at: *mut u8,
    pub ghost heap: { Global },
    pub ghost map: { Option RoadMap },
}

impl Model for MapPointer {
    ghost use Rattle.std.specs.Global.{Global};
    ghost use Rattle.std.specs.Prelude.{Option};
    ghost use Rattle.olr_page.specs.Kept.{owned_at};
    ghost use Rattle.olr_road.specs.RoadMap.{RoadMap};
    ghost use Rattle.olr_road.specs.contracts.map.Map.{the_row};

    ghost also_owns = { λ pointer. owned_at the_row
        (⟦<Global as Allocator>⟧.dealloc_token pointer.heap) pointer.at pointer.map };
}

impl MapPointer {
    /// A pointer to nothing.
    fn none() -> MapPointer
        ensures { result.map ≡ None }
    {
        MapPointer {
            at: ptr::null_mut(),
        }
    }

    /// The pointer to a map.
    fn of(map: HeapPointer<Map>) -> MapPointer
        ensures { result.map ≡ Some map.value }
    {
        let HeapPointer { at } = map;
        MapPointer { at: at as *mut u8 }
    }

    /// What it points to.
    fn into_heap_pointer(self) -> HeapPointer<Map>
        requires { IsSome self.map }
        ensures { self.map ≡ Some result.value }
    {
        let MapPointer { at } = self;
        HeapPointer { at: at as *mut Map }
    }

    /// Ends a pointer that owns nothing.
    fn end(self)
        requires { self.map ≡ None }
    {
        let MapPointer { at: _ } = self;
    }
}

/// A map that was read, or none: the caller of the exported functions has memory for it, which
/// holds zeros before the first call, and hands it to each call again. It can't be dropped.
#[repr(C)]
pub struct KeptMap {
    is_there: bool,
    pub(crate) pointer: MapPointer,
    ghost fits: { is_there ≡ is_some pointer.map },
}

impl KeptMap {
    /// No map.
    fn none() -> KeptMap
        ensures { result.pointer.map ≡ None }
    {
        KeptMap {
            is_there: false,
            pointer: MapPointer::none(),
        }
    }

    /// This map.
    fn of(map: Box<Map>) -> KeptMap
        ensures { result.pointer.map ≡ Some map.value }
    {
        KeptMap {
            is_there: true,
            pointer: MapPointer::of(HeapPointer::of(map)),
        }
    }

    /// Keeps a map where there is none.
    pub(crate) fn put(&mut self, map: Box<Map>)
        requires { self.old.pointer.map ≡ None }
        ensures { self.new.pointer.map ≡ Some map.value }
    {
        let KeptMap {
            is_there: _,
            pointer,
        } = mem::replace(self, KeptMap::of(map));
        pointer.end();
    }

    /// Takes the map out, if there is one.
    pub(crate) fn take(&mut self, alloc: Global) -> Option<Box<Map>>
        ensures taken { option_map box_value result ≡ self.old.pointer.map }
        ensures none_left { self.new.pointer.map ≡ None }
    {
        let KeptMap { is_there, pointer } = mem::replace(self, KeptMap::none());
        if is_there {
            Some(pointer.into_heap_pointer().into_box(alloc))
        } else {
            pointer.end();
            None
        }
    }
}
