//! Values with several owners, so that nobody copies what is large.
ghost use Rattle.std.specs.Prelude.{◌≡◌, IfOk, IfErr};

use std::alloc::{AllocError, Global};
use std::marker::Model;
use std::sync::Arc;

/// A value with several owners. A contract sees the value.
#[derive(Drop)]
pub struct Shared<T> {
    inner: Arc<T>,
}

impl<T> Model for Shared<T> {
    ghost use Rattle.std.specs.Arc.{arc_value};

    ghost Value = { T };

    ghost coded = { T.code };

    ghost view = { λ shared. arc_value shared.inner };
}

impl<T: Drop> Shared<T> {
    /// Moves the value to where it can be shared. Fails only if memory runs out.
    pub fn new(alloc: Global, value: T) -> Result<Self, AllocError>
        ensures { IfOk result (λ shared. shared ≡ value) }
    {
        let inner = Arc::new(alloc, value)?;
        Ok(Shared { inner })
    }

    /// One more owner of the same value. Nothing is copied. Fails only if memory runs out.
    pub fn share(&self) -> Result<Self, AllocError>
        ensures { IfOk result (λ shared. shared ≡ self.now) }
    {
        let inner = Arc::try_clone(&self.inner)?;
        Ok(Shared { inner })
    }

    /// The value itself if this is its only owner, and otherwise the same owner again.
    pub fn into_inner(self) -> Result<T, Self>
        ensures value { IfOk result (λ value. value ≡ self) }
        ensures kept { IfErr result (λ shared. shared ≡ self) }
    {
        match Arc::try_unwrap(self.inner) {
            Ok(value) => Ok(value),
            Err(inner) => Err(Shared { inner }),
        }
    }

    /// The value.
    pub fn get(&self) -> &T
        ensures { result.now ≡ self.now }
    {
        &*self.inner
    }
}
