//! The place in which C holds a verifier.

ghost use Rattle.std.specs.Prelude.{◌≡◌, None, Some, is_some};
ghost use Rattle.std.specs.Option.{option_map};
ghost use Rattle.std.specs.Box.{box_value};
ghost use Rattle.wit_c.specs.Places.{Calls};

use crate::handle::Handle;
use crate::kept_verifier::KeptVerifier;
use crate::numbers::EMPTY_PLACE;
use crate::parts::Parts;
use std::alloc::Global;
use wit_model::{Call, SeatNo};

/// A place for a verifier: one of all zeroes is empty.
#[repr(C)]
#[derive(Drop)]
pub struct Place {
    full: bool,
    pub(crate) handle: Handle,
    ghost told: { full ≡ is_some handle.value },
}

impl Place {
    /// Whether it holds a verifier.
    pub(crate) fn is_full(&self) -> bool
        ensures { result ≡ is_some self.now.handle.value }
    {
        self.full
    }

    /// What it holds is taken out.
    #[inline(always)]
    pub(crate) fn take(&mut self, alloc: Global) -> Option<Box<KeptVerifier, Global>>
        ensures taken { self.old.handle.value ≡ option_map box_value result }
        ensures empty { self.new.handle.value ≡ None }
    {
        if !self.full {
            return None;
        }
        let empty = Place {
            full: false,
            handle: Handle::empty(alloc),
        };
        let old = std::mem::replace(self, empty);
        Some(old.handle.into_parts().into_box())
    }

    /// It holds this from now on.
    #[inline(always)]
    pub(crate) fn put(&mut self, kept: Box<KeptVerifier, Global>)
        ensures { self.new.handle.value ≡ Some kept.value }
    {
        *self = Place {
            full: true,
            handle: Handle::of(Parts::of(kept)),
        };
    }

    /// Its verifier is called.
    #[inline(always)]
    pub(crate) fn call(&mut self, alloc: Global, seat: SeatNo, call: Call) -> i64
        ensures { Calls seat.0 call self.old.handle.value result self.new.handle.value }
    {
        let Some(mut kept) = self.take(alloc) else {
            return EMPTY_PLACE;
        };
        let answer = kept.verifier.call(seat, call);
        let number = kept.keep(answer);
        self.put(kept);
        number
    }
}

// That a place may go to another thread.
fn sent<T: Send>(value: T) -> T {
    value
}

// Called by nobody: it is proved since a place is `Send`.
pub(crate) fn place_sent(place: Place) -> Place {
    sent(place)
}
