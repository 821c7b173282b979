ghost use Rattle.std.specs.Prelude.{◌≡◌, IfOk};

use pg_lists::{IsSame, TryCopy};
use std::alloc::{AllocError, Global};
use std::marker::Model;
use std::ops::Deref;
use std::sync::Arc;

/// A value that never changes and may have several owners, in any threads. Contracts see it as the
/// value.
///
/// A copy is one more owner: it takes no memory, and no longer than the copy of a number.
#[derive(Drop)]
pub struct Shared<T: Drop> {
    owner: Arc<T, Global>,
}

impl<T: Drop> Model for Shared<T> {
    ghost use Rattle.std.specs.Arc.{arc_value};

    ghost Value = { T };

    ghost coded = { T.code };

    ghost view = { λ shared. arc_value shared.owner };
}

impl<T: Drop> Shared<T> {
    /// The value with one owner.
    pub fn new(alloc: Global, value: T) -> Result<Shared<T>, AllocError>
        ensures { IfOk result (λ shared. shared ≡ value) }
    {
        let owner = Arc::new(alloc, value)?;
        Ok(Shared { owner })
    }
}

impl<T: Drop> Deref for Shared<T> {
    type Target = T;

    ghost use Rattle.std.specs.Prelude.{◌≡◌};

    ghost deref_gives = { λ shared value. value ≡ shared };

    fn deref(&self) -> &T
        ensures { result.now ≡ self.now }
    {
        &self.owner
    }
}

impl<T: Drop> TryCopy for Shared<T> {
    fn try_copy(&self, _alloc: Global) -> Result<Shared<T>, AllocError> {
        let owner = Arc::try_clone(&self.owner)?;
        Ok(Shared { owner })
    }
}

impl<T: IsSame + Drop> IsSame for Shared<T> {
    fn is_same(&self, other: &Shared<T>) -> bool {
        self.deref().is_same(other.deref())
    }
}
