ghost use Rattle.std.specs.Prelude.{◌≡◌};
ghost use Rattle.pg_multi.specs.Strengths.{conflicts, stronger};

/// How strong a lock on a row is, from the weakest to the strongest.
#[derive(Clone, Copy, Debug, Default, PartialEq, Eq, PartialOrd, Ord)]
pub enum Strength {
    /// `FOR KEY SHARE`: nobody may delete the row or change its key.
    #[default]
    KeyShare,
    /// `FOR SHARE`: nobody may change the row.
    Share,
    /// `FOR NO KEY UPDATE`: the holder may change the row, but not its key.
    NoKeyUpdate,
    /// `FOR UPDATE`: the holder may delete the row and change its key.
    Update,
}

impl Strength {
    /// The stronger of the two.
    pub fn stronger_of(self, other: Strength) -> Strength
        ensures { result ≡ stronger self other }
    {
        if self < other { other } else { self }
    }
}

/// Whether a lock that is asked for has to wait for one that another transaction holds.
pub fn conflicts(a: Strength, b: Strength) -> bool
    ensures { result ≡ conflicts a b }
{
    match a {
        Strength::KeyShare => b == Strength::Update,
        Strength::Share => b == Strength::NoKeyUpdate || b == Strength::Update,
        Strength::NoKeyUpdate => b != Strength::KeyShare,
        Strength::Update => true,
    }
}
