//! A specification that is ready, as a handle for C.
ghost use Rattle.std.specs.Prelude.{◌≡◌, Option, Some, None, option_map};
ghost use Rattle.std.specs.Coded.{coded_option};
ghost use Rattle.cddlseq_c.specs.Held.{Held, coded_held};

use crate::loose::Loose;
use crate::ready::Ready;
use std::alloc::Global;
use std::marker::Model;
use std::{mem, ptr};

/// What is ready, by the pointer to its box; or nothing, where that is null. To C it is a struct of one pointer.
#[repr(C)]
pub struct CddlseqHandle {
    at: *mut u8,
    alloc: Global,
    pub(crate) ghost value: { Option Held } by { coded_option coded_held },
}

impl Model for CddlseqHandle {
    ghost use Rattle.std_heap.specs.contracts.GlobalAllocator.TheImpl.{ghosts};
    ghost use Rattle.cddlseq_c.specs.Owned.{may_own};
    ghost use Rattle.cddlseq_c.specs.contracts.ready.Ready.{the_row};

    ghost also_owns = { λ h. may_own (ghosts.dealloc_token h.alloc) the_row h.at h.value };
}

impl CddlseqHandle {
    // Nothing: a null pointer.
    fn none(alloc: Global) -> CddlseqHandle
        ensures { result.value ≡ None }
    {
        CddlseqHandle {
            at: ptr::null_mut(),
            alloc,
        }
    }

    fn of(held: Loose<Ready, Global>) -> CddlseqHandle
        ensures { result.value ≡ Some held.value }
    {
        let Loose { at, alloc } = held;
        CddlseqHandle {
            at: at as *mut u8,
            alloc,
        }
    }

    // The box, if the pointer is not null.
    fn into_loose(self) -> Option<Loose<Ready, Global>>
        ensures { option_map (λ held. held.value) result ≡ self.value }
    {
        let CddlseqHandle { at, alloc } = self;
        if at.is_null() {
            return None;
        }
        Some(Loose {
            at: at as *mut Ready,
            alloc,
        })
    }

    // Takes out what is held, and leaves nothing.
    pub(crate) fn take(&mut self, alloc: Global) -> Option<Box<Ready>>
        ensures taken { option_map (λ held. held.value) result ≡ self.old.value }
        ensures left { self.new.value ≡ None }
    {
        match mem::replace(self, CddlseqHandle::none(alloc)).into_loose() {
            Some(held) => Some(held.into_box()),
            None => None,
        }
    }

    // Has this held from now on. What was held before is freed.
    pub(crate) fn put(&mut self, held: Box<Ready>)
        ensures { self.new.value ≡ Some held.value }
    {
        let next = CddlseqHandle::of(Loose::of(held));
        if let Some(before) = mem::replace(self, next).into_loose() {
            drop(Box::into_inner(before.into_box()));
        }
    }
}

// What is in its box shares nothing that is changed but the count of the table's owners.
unsafe impl Send for CddlseqHandle {}
