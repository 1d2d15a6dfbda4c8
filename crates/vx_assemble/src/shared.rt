//! Values with several owners.
ghost use Rattle.std.specs.Prelude.{◌≡◌, IfOk};

use std::alloc::{AllocError, Global};
use std::marker::Model;
use std::sync::Arc;

/// A value with several owners. *Model:* the value.
#[derive(Drop)]
pub(crate) struct Shared<T> {
    owner: Arc<T>,
}

impl<T> Model for Shared<T> {
    ghost Value = { T };

    ghost view = { λ s. s.owner.value };
}

impl<T: Drop> Shared<T> {
    /// Returns a value with one owner.
    ///
    /// # Errors
    ///
    /// `AllocError` if memory runs out.
    pub(crate) fn new(alloc: Global, value: T) -> Result<Shared<T>, AllocError>
        ensures { IfOk result (λ shared. shared ≡ value) }
    {
        match Arc::new(alloc, value) {
            Ok(owner) => Ok(Shared { owner }),
            Err(_) => Err(AllocError),
        }
    }

    /// Returns the same value, for one more owner. Takes no memory.
    ///
    /// # Errors
    ///
    /// `AllocError` if it has as many owners as can be counted.
    pub(crate) fn share(&self) -> Result<Shared<T>, AllocError>
        ensures { IfOk result (λ shared. shared ≡ self.now) }
    {
        let owner = self.owner.clone()?;
        Ok(Shared { owner })
    }

    /// Returns the value.
    pub(crate) fn value(&self) -> &T
        ensures { result.now ≡ self.now }
    {
        self.owner.as_ref()
    }
}
