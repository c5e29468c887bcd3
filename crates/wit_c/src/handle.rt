//! A pointer that C may hold for a verifier.

ghost use Rattle.std.specs.Prelude.{◌≡◌, Some, None, Option, IsSome, IfSome};
ghost use Rattle.wit_c.specs.declared.kept_verifier.KeptVerifier.{KeptVerifier};

use crate::kept_verifier::KeptVerifier;
use crate::parts::Parts;
use std::alloc::Global;
use std::marker::Model;

/// A pointer to a verifier on the heap, or to nothing. It is a pointer to a byte, since C may hold
/// none to a value that keeps memory; only proofs see what it points to.
#[repr(C)]
#[derive(Drop)]
pub struct Handle {
    at: *mut u8,
    alloc: Global,
    pub(crate) ghost value: { Option KeptVerifier },
}

impl Model for Handle {
    ghost use Rattle.wit_c.specs.contracts.kept_verifier.KeptVerifier.{the_row as kept_row};
    ghost use Rattle.wit_c.specs.Owned.{owned};
    ghost use Rattle.std_heap.specs.contracts.GlobalAllocator.TheImpl.{ghosts};

    ghost also_owns = { λ h. owned (ghosts.dealloc_token h.alloc) kept_row h.at h.value };
}

// A verifier may go to another thread, and so may the right to free it.
unsafe impl Send for Handle {}

impl Handle {
    // A handle to nothing.
    pub(crate) fn empty(alloc: Global) -> Handle
        ensures { result.value ≡ None }
    {
        Handle {
            at: std::ptr::null_mut(),
            alloc,
        }
    }

    // A handle to what these parts of a box have.
    pub(crate) fn of(parts: Parts<KeptVerifier, Global>) -> Handle
        ensures { result.value ≡ Some parts.value }
    {
        let Parts { ptr, alloc } = parts;
        Handle {
            at: ptr as *mut u8,
            alloc,
        }
    }

    // The parts of the box that it has.
    pub(crate) fn into_parts(self) -> Parts<KeptVerifier, Global>
        requires { IsSome self.value }
        ensures { IfSome self.value (λ kept. result.value ≡ kept) }
    {
        let Handle { at, alloc } = self;
        Parts {
            ptr: at as *mut KeptVerifier,
            alloc,
        }
    }
}
