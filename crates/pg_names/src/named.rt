ghost use Rattle.std.specs.Prelude.{◌≡◌, ℕ, List};

use crate::Name;

/// What has a name.
pub trait Named: Drop {
    ghost named: { Self → List ℕ };

    /// The name that it has.
    fn name(&self) -> &Name
        ensures { result.now ≡ named self.now };
}
