//! The order of lists of numbers.
ghost use Rattle.std.specs.Prelude.{◌↔◌, IsTrue};
ghost use Rattle.pg_ending.specs.Weight.{IsLess};

/// Whether the first list of numbers is less than the second: they have one length, and the first
/// number that differs is smaller in the first.
pub fn is_less(first: &[u64], second: &[u64]) -> bool
    ensures { IsTrue result ↔ IsLess first.now second.now }
{
    if first.len() != second.len() {
        return false;
    }
    for i in 0..first.len() {
        if first[i] != second[i] {
            return first[i] < second[i];
        }
    }
    false
}
