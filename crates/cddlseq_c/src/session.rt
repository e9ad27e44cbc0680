//! A stream that comes in pieces, as a handle for C.
ghost use Rattle.std.specs.Prelude.{◌≡◌, Option, Some, None, option_map};
ghost use Rattle.std.specs.Coded.{coded_option};
ghost use Rattle.cddlseq_c.specs.Fed.{Fed, coded_fed};

use crate::feeding::Feeding;
use crate::loose::Loose;
use std::alloc::Global;
use std::marker::Model;
use std::{mem, ptr};

/// A stream in pieces, by the pointer to its box; or nothing, where that is null. To C it is a struct of one pointer.
#[repr(C)]
pub struct CddlseqSession {
    at: *mut u8,
    alloc: Global,
    pub(crate) ghost value: { Option Fed } by { coded_option coded_fed },
}

impl Model for CddlseqSession {
    ghost use Rattle.std_heap.specs.contracts.GlobalAllocator.TheImpl.{ghosts};
    ghost use Rattle.cddlseq_c.specs.Owned.{may_own};
    ghost use Rattle.cddlseq_c.specs.contracts.feeding.Feeding.{the_row};

    ghost also_owns = { λ h. may_own (ghosts.dealloc_token h.alloc) the_row h.at h.value };
}

impl CddlseqSession {
    // Nothing: a null pointer.
    fn none(alloc: Global) -> CddlseqSession
        ensures { result.value ≡ None }
    {
        CddlseqSession {
            at: ptr::null_mut(),
            alloc,
        }
    }

    fn of(held: Loose<Feeding, Global>) -> CddlseqSession
        ensures { result.value ≡ Some held.value }
    {
        let Loose { at, alloc } = held;
        CddlseqSession {
            at: at as *mut u8,
            alloc,
        }
    }

    // The box, if the pointer is not null.
    fn into_loose(self) -> Option<Loose<Feeding, Global>>
        ensures { option_map (λ held. held.value) result ≡ self.value }
    {
        let CddlseqSession { at, alloc } = self;
        if at.is_null() {
            return None;
        }
        Some(Loose {
            at: at as *mut Feeding,
            alloc,
        })
    }

    // Takes out what is held, and leaves nothing.
    pub(crate) fn take(&mut self, alloc: Global) -> Option<Box<Feeding>>
        ensures taken { option_map (λ held. held.value) result ≡ self.old.value }
        ensures left { self.new.value ≡ None }
    {
        match mem::replace(self, CddlseqSession::none(alloc)).into_loose() {
            Some(held) => Some(held.into_box()),
            None => None,
        }
    }

    // Has this held from now on. What was held before is freed.
    pub(crate) fn put(&mut self, held: Box<Feeding>)
        ensures { self.new.value ≡ Some held.value }
    {
        let next = CddlseqSession::of(Loose::of(held));
        if let Some(before) = mem::replace(self, next).into_loose() {
            drop(Box::into_inner(before.into_box()));
        }
    }
}

// What is in its box shares nothing that is changed but the count of the table's owners.
unsafe impl Send for CddlseqSession {}
