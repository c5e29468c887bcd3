//! A value on the heap, seen as the value.

ghost use Rattle.std.specs.Prelude.{◌≡◌, IfOk};

use std::alloc::{AllocError, Global};
use std::marker::Model;
use std::sync::Arc;

/// A value on the heap, which may have several holders. Clauses see the value alone, and not where
/// it lies.
#[derive(Debug, Drop)]
pub struct Boxed<T> {
    inner: Arc<T>,
}

impl<T> Model for Boxed<T> {
    ghost Value = { T };

    ghost view = { λ b. b.inner.value };
}

impl<T> Boxed<T> {
    /// Puts a value on the heap.
    ///
    /// # Errors
    /// Want of memory alone.
    pub fn new(alloc: Global, value: T) -> Result<Boxed<T>, AllocError>
    where
        T: Drop,
        ensures { IfOk result (λ b. b ≡ value) }
    {
        Ok(Boxed {
            inner: Arc::new(alloc, value)?,
        })
    }

    /// A second box of the value, which stays where it lies.
    ///
    /// # Errors
    /// Want of memory alone, where nothing more can be counted: no heap is asked.
    pub fn share(&self) -> Result<Boxed<T>, AllocError>
        ensures { IfOk result (λ b. b ≡ self.now) }
    {
        Ok(Boxed {
            inner: Arc::try_clone(&self.inner)?,
        })
    }

    /// The value.
    pub fn get(&self) -> &T
        ensures { result.now ≡ self.now }
    {
        &self.inner
    }
}
