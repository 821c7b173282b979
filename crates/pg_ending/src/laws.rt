//! The laws of runs whose weight falls, as contracts.
ghost use Rattle.std.specs.Prelude.{◌≡◌, ℕ, List, Option, Some};
ghost use Rattle.pg_lists.specs.Numbered.{item_at, with_item};
ghost use Rattle.pg_ending.specs.Weight.{IsLess};
ghost use Rattle.pg_ending.specs.Runs.{Falls, Takes, IsRunOf};
ghost use Rattle.pg_ending.specs.Totals.{numbers_at, totals};

/// A run ends where each entry makes the weight of the state less.
pub fn falling_run_ends<S, E>()
    ensures { (next : S → Option E) (after : S → E → S) (weight : S → List ℕ) →
        Falls next after weight →
        (w : S) → (n : ℕ) × Takes next after n w }
{}

/// From a state there is at most one list of entries taken to the end.
pub fn run_is_one<S, E>()
    ensures { (next : S → Option E) (after : S → E → S) (w : S) (es fs : List E) →
        IsRunOf next after w es → IsRunOf next after w fs → es ≡ fs }
{}

/// Where the numbers of one party fall and no other party changes, the sums over all parties fall.
pub fn totals_fall<X>()
    ensures { (fs : List (ℕ → X → ℕ)) (xs : List X) (party : ℕ) (x y : X) → item_at xs party ≡
        Some x →
        IsLess (numbers_at fs party y) (numbers_at fs party x) →
        IsLess (totals fs (with_item xs party y)) (totals fs xs) }
{}
