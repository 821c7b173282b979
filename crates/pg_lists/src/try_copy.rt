ghost use Rattle.std.specs.Prelude.{◌≡◌, IfOk};

use std::alloc::{AllocError, Global};

/// A value of which an exact copy can be made where there is memory for it.
///
/// Unlike `Clone`, the copy equals what was copied, all the way down.
pub trait TryCopy: Drop {
    /// Makes the copy, or refuses for want of memory alone.
    fn try_copy(&self, alloc: Global) -> Result<Self, AllocError>
        ensures { IfOk result (λ copied. copied ≡ self.now) };
}

impl TryCopy for u8 {
    fn try_copy(&self, _alloc: Global) -> Result<u8, AllocError> {
        Ok(*self)
    }
}

impl TryCopy for u64 {
    fn try_copy(&self, _alloc: Global) -> Result<u64, AllocError> {
        Ok(*self)
    }
}

impl TryCopy for u32 {
    fn try_copy(&self, _alloc: Global) -> Result<u32, AllocError> {
        Ok(*self)
    }
}

impl<T: TryCopy> TryCopy for Option<T> {
    fn try_copy(&self, alloc: Global) -> Result<Option<T>, AllocError> {
        match self {
            None => Ok(None),
            Some(value) => Ok(Some(value.try_copy(alloc)?)),
        }
    }
}

impl<T: TryCopy, E: TryCopy> TryCopy for Result<T, E> {
    fn try_copy(&self, alloc: Global) -> Result<Result<T, E>, AllocError> {
        match self {
            Ok(value) => Ok(Ok(value.try_copy(alloc)?)),
            Err(error) => Ok(Err(error.try_copy(alloc)?)),
        }
    }
}
