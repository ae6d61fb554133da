//! What may be shared.

ghost use Rattle.std.specs.Prelude.{◌≡◌, IfOk};

use std::alloc::{AllocError, Global};
use std::marker::Model;
use std::sync::Arc;

/// What may be shared: a copy that costs little and is equal.
pub trait Share: Drop {
    /// A copy.
    fn share(&self) -> Result<Self, AllocError>
        ensures { IfOk result (λ copy. copy ≡ self.now) };
}

impl Share for u64 {
    fn share(&self) -> Result<u64, AllocError> {
        Ok(*self)
    }
}

/// A value with several owners. It is seen as the value itself.
#[derive(Drop)]
pub struct Joint<T> {
    value: Arc<T>,
}

impl<T> Model for Joint<T> {
    ghost Value = { T };

    ghost coded = { T.code };

    ghost view = { λ joint. joint.value.value };
}

impl<T> Joint<T> {
    /// The value with one owner.
    pub fn new(alloc: Global, value: T) -> Result<Joint<T>, AllocError>
    where
        T: Drop,
        ensures { IfOk result (λ joint. joint ≡ value) }
    {
        Ok(Joint {
            value: Arc::new(alloc, value)?,
        })
    }

    /// The value, for reading.
    pub fn get(&self) -> &T
        ensures { result.now ≡ self.now }
    {
        &self.value
    }
}

impl<T: Drop> Share for Joint<T> {
    fn share(&self) -> Result<Joint<T>, AllocError> {
        Ok(Joint {
            value: Arc::try_clone(&self.value)?,
        })
    }
}
