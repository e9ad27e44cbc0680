//! Why a specification is not accepted.

ghost use Rattle.std.specs.Prelude.{◌≡◌};
ghost use Rattle.cddl_check.specs.Told.{refusal_of, refused};
ghost use Rattle.cddl_check.specs.declared.stopped.Stopped.TheVariants as Why;

use cddl_token::{Code, Refusal};
use check_terms::NoRoom;
use check_text::Fault;
use std::alloc::AllocError;

// Why a specification is not accepted: what the stages tell one another.
#[derive(Clone, Copy, Debug, PartialEq, Eq)]
pub(crate) enum Stopped {
    /// Memory was refused, or each number of 32 bits was taken.
    Memory,
    /// What is wrong, and where.
    Refused(Fault),
}

impl From<AllocError> for Stopped {
    ghost from_gives = { λ _ e. e ≡ Why.Memory };

    fn from(_e: AllocError) -> Stopped {
        Stopped::Memory
    }
}

impl From<NoRoom> for Stopped {
    ghost from_gives = { λ _ e. e ≡ Why.Memory };

    fn from(_e: NoRoom) -> Stopped {
        Stopped::Memory
    }
}

// It is refused for this, here.
pub(crate) fn refused(code: Code, at: usize) -> Stopped
    ensures { result ≡ refused code at }
{
    Stopped::Refused(Fault { code, at })
}

// The same, as callers are told.
pub(crate) fn refusal_of(why: Stopped) -> Refusal
    ensures { result ≡ refusal_of why }
{
    match why {
        Stopped::Refused(fault) => Refusal::At(fault.code, fault.at),
        Stopped::Memory => Refusal::Memory,
    }
}
