//! One block as a row of places, each empty or with a value in it, and links to its places.
//! Nothing outside this file follows a pointer.

ghost use Rattle.std.specs.Prelude.{◌≡◌, ℕ, ◌<◌, List, Option, Some, None, IfOk, ⊤};
ghost use Rattle.std.specs.Prelude.{length, replicate, get_or, slice_set};
ghost use Rattle.std.specs.Borrow.{sem};
ghost use Rattle.std.specs.Mem.{type_size};
ghost use Rattle.std.specs.Vec.Ownership.{FitsInBlock};
ghost use base.Fml.{ftrue};
ghost use denote.RawPtr.{Ptr};
ghost use Rattle.circular_buffer.specs.Ownership.{cells_own, cells_lent, deed_owns};
ghost use Rattle.wit_pool.specs.Places.{spot_at, spot, IsPlace, IsSpot};

use std::alloc::{AllocError, Allocator};
use std::marker::{Model, PhantomData, Send, Sync};
use std::mem::{align_of, size_of};

/// Where a place lies. It owns nothing, and only [`Cells`] follows it.
pub struct Link<T> {
    pub(crate) ptr: *mut T,
}

impl<T> Clone for Link<T> {
    ghost is_clone = { λ x y. y ≡ x };

    ghost is_infallible = { λ _. ⊤ };

    fn clone(&self) -> Result<Link<T>, AllocError> {
        Ok(*self)
    }
}

impl<T> Copy for Link<T> {}

unsafe impl<T> Send for Link<T> {}

unsafe impl<T> Sync for Link<T> {}

/// The owner of all places of a block and of what they hold. It takes no bytes.
pub struct Cells<T> {
    mark: PhantomData<*const T>,
    ghost at: { Ptr },
    ghost slots: { List (Option T) },
}

impl<T> Model for Cells<T> {
    ghost also_owns = { λ c. cells_own T.row c.at c.slots };

    ghost also_shares = { λ c _ κ. cells_lent T.row c.at c.slots κ };
}

unsafe impl<T: Send> Send for Cells<T> {}

unsafe impl<T: Sync> Sync for Cells<T> {}

/// The right to give a block back to where it came from. It takes no bytes.
pub struct Deed<T, A: Allocator> {
    mark: PhantomData<*const (T, A)>,
    ghost at: { Ptr },
    ghost len: { ℕ },
    ghost alloc: { A },
}

impl<T, A: Allocator> Model for Deed<T, A> {
    ghost also_owns = { λ d. deed_owns T.row (A.dealloc_token d.alloc) d.at d.len };

    ghost also_shares = { λ _ _ _. ftrue };
}

unsafe impl<T, A: Allocator + Send> Send for Deed<T, A> {}

// A `&` to a deed lends nothing.
unsafe impl<T, A: Allocator> Sync for Deed<T, A> {}

/// A block of empty places, linked to by its first.
///
/// # Errors
/// Want of memory alone.
pub(crate) fn allocate<T, A: Allocator>(
    alloc: &A,
    count: usize,
) -> Result<(Link<T>, Cells<T>, Deed<T, A>), AllocError>
    requires { FitsInBlock T.row count }
    ensures { IfOk result (λ r. (r.1.at ≡ r.0.ptr) × (r.1.slots ≡ replicate count None)
        × (r.2.at ≡ r.0.ptr) × (r.2.len ≡ count) × (r.2.alloc ≡ alloc.now)) }
{
    match alloc.allocate(count * size_of::<T>(), align_of::<T>()) {
        Ok(block) => {
            let first = Link {
                ptr: block as *mut T,
            };
            Ok((
                first,
                Cells { mark: PhantomData },
                Deed { mark: PhantomData },
            ))
        }
        Err(error) => Err(error),
    }
}

/// Gives a block back. What its places hold is forgotten, and not dropped.
pub(crate) fn deallocate<T, A: Allocator>(
    alloc: &A,
    first: Link<T>,
    count: usize,
    cells: Cells<T>,
    deed: Deed<T, A>,
)
    requires { (cells.at ≡ first.ptr) × (length cells.slots ≡ count)
        × (deed.at ≡ first.ptr) × (deed.len ≡ count) × (deed.alloc ≡ alloc.now) }
{
    let Cells { mark: _ } = cells;
    let Deed { mark: _ } = deed;
    unsafe {
        alloc.deallocate(
            first.ptr as *mut u8,
            count * size_of::<T>(),
            align_of::<T>(),
        );
    }
}

impl<T> Cells<T> {
    ghost use Rattle.wit_pool.specs.Lending.{LendsPlace};

    /// A link to a place of the block.
    pub(crate) fn link(&self, first: Link<T>, place: usize) -> Link<T>
        requires { (first.ptr ≡ self.now.at) × (place < length self.now.slots) }
        ensures { (result.ptr ≡ spot_at T.row self.now.at place)
            × (0 < type_size T.row → spot T.row self.now.at result.ptr ≡ place) }
    {
        unsafe {
            Link {
                ptr: first.ptr.add(place),
            }
        }
    }

    /// What a place holds.
    pub(crate) fn get(&self, link: Link<T>) -> &T
        requires { IsSpot T.row self.now.at self.now.slots link.ptr }
        ensures { get_or self.now.slots (spot T.row self.now.at link.ptr) None ≡ Some result.now }
    {
        unsafe { &*link.ptr }
    }

    /// What a place holds, to be changed where it lies.
    pub(crate) fn get_mut(&mut self, link: Link<T>) -> &mut T
        requires { IsSpot T.row self.old.at self.old.slots link.ptr }
        ensures* writes_back { sem 𝓛 (LendsPlace T.row self.entry link.ptr result) }
        ensures value { get_or self.old.slots (spot T.row self.old.at link.ptr) None
            ≡ Some result.now }
    {
        unsafe { &mut *link.ptr }
    }

    /// Puts a value into a place. The one that it held is forgotten, and not dropped.
    pub(crate) fn put(&mut self, link: Link<T>, item: T)
        requires { IsPlace T.row self.old.at self.old.slots link.ptr }
        ensures { (self.new.at ≡ self.old.at)
            × (self.new.slots
            ≡ slice_set self.old.slots (spot T.row self.old.at link.ptr) (Some item)) }
    {
        unsafe { link.ptr.write(item) }
    }
}
