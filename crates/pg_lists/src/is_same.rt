ghost use Rattle.std.specs.Prelude.{◌≡◌, ◌↔◌, IsTrue, take};

use crate::Items;

/// A value that can be compared with another without taking memory.
///
/// Unlike `PartialEq`, the answer is true exactly where the two are equal all the way down, as
/// contracts see them.
pub trait IsSame {
    /// Whether the two are the same.
    fn is_same(&self, other: &Self) -> bool
        ensures { IsTrue result ↔ (self.now ≡ other.now) };
}

impl IsSame for u8 {
    fn is_same(&self, other: &u8) -> bool {
        *self == *other
    }
}

impl IsSame for u32 {
    fn is_same(&self, other: &u32) -> bool {
        *self == *other
    }
}

impl<T: IsSame> IsSame for Option<T> {
    fn is_same(&self, other: &Option<T>) -> bool {
        match (self, other) {
            (None, None) => true,
            (Some(a), Some(b)) => a.is_same(b),
            _ => false,
        }
    }
}

impl<T: IsSame, E: IsSame> IsSame for Result<T, E> {
    fn is_same(&self, other: &Result<T, E>) -> bool {
        match (self, other) {
            (Ok(a), Ok(b)) => a.is_same(b),
            (Err(a), Err(b)) => a.is_same(b),
            _ => false,
        }
    }
}

impl<T: IsSame> IsSame for Items<T> {
    fn is_same(&self, other: &Items<T>) -> bool {
        are_same(self.as_slice(), other.as_slice())
    }
}

/// Whether the same items stand in both slices, in the same order.
pub fn are_same<T: IsSame>(a: &[T], b: &[T]) -> bool
    ensures { IsTrue result ↔ (a.now ≡ b.now) }
{
    if a.len() != b.len() {
        return false;
    }
    let mut at = 0;
    while at < a.len() {
        if !a[at].is_same(&b[at]) {
            return false;
        }
        at += 1;
    }
    true
}
