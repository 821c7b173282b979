//! The laws of strengths and of a row's locks, each the contract of a function that does nothing.

ghost use Rattle.std.specs.Prelude.{◌≡◌, ◌≢◌, ◌≤◌, ◌↔◌, ℕ, List, None, Some, false, max, true};
ghost use Rattle.pg_multi.specs.declared.row_lock.RowLock.{RowLock};
ghost use Rattle.pg_multi.specs.declared.strength.Strength.{Strength};
ghost use Rattle.pg_multi.specs.declared.strength.Strength.TheVariants.{KeyShare, Update};
ghost use Rattle.pg_multi.specs.Strengths.{conflicts, rank_of, stronger};
ghost use Rattle.pg_multi.specs.Locks.{AreAscending, AreCompatible, IsBlockedBy, blocker, lock_joined, locks_left, strength_joined, strongest_of};

/// A lock conflicts with another exactly where the other conflicts with it.
pub fn conflicts_are_symmetric()
    ensures { (a b : Strength) → conflicts a b ≡ conflicts b a }
{}

/// An UPDATE lock conflicts with every lock.
pub fn update_conflicts_with_all()
    ensures { (other : Strength) → conflicts Update other ≡ true }
{}

/// A KEY SHARE lock conflicts with an UPDATE lock, and with no other.
pub fn key_share_conflicts_with_update()
    ensures { (other : Strength) → (conflicts KeyShare other ≡ true) ↔ (other ≡ Update) }
{}

/// What conflicts with a lock conflicts with each stronger one.
pub fn stronger_lock_conflicts_with_more()
    ensures { (weak strong other : Strength) → rank_of weak ≤ rank_of strong →
        conflicts weak other ≡ true → conflicts strong other ≡ true }
{}

/// The stronger of two has the higher rank of the two.
pub fn stronger_has_the_higher_rank()
    ensures { (a b : Strength) → rank_of (stronger a b) ≡ max (rank_of a) (rank_of b) }
{}

/// Who joins changes nothing of what others hold.
pub fn join_keeps_others()
    ensures { (locks : List RowLock) (xact other : ℕ) (strength : Strength) → other ≢ xact →
        strongest_of (lock_joined locks xact strength) other ≡ strongest_of locks other }
{}

/// Who joins holds the row at the stronger of the strength that it had and the one asked for.
pub fn join_keeps_the_stronger()
    ensures { (locks : List RowLock) (xact : ℕ) (strength : Strength) →
        strongest_of (lock_joined locks xact strength) xact
        ≡ Some (strength_joined (strongest_of locks xact) strength) }
{}

/// Who leaves changes nothing of what others hold.
pub fn leave_keeps_others()
    ensures { (locks : List RowLock) (xact other : ℕ) → other ≢ xact →
        strongest_of (locks_left locks xact) other ≡ strongest_of locks other }
{}

/// Who has left holds nothing.
pub fn left_lock_is_gone()
    ensures { (locks : List RowLock) (xact : ℕ) →
        strongest_of (locks_left locks xact) xact ≡ None }
{}

/// Locks stay ascending, whoever joins.
pub fn joined_locks_ascend()
    ensures { (locks : List RowLock) (xact : ℕ) (strength : Strength) → AreAscending locks →
        AreAscending (lock_joined locks xact strength) }
{}

/// Locks stay ascending, whoever leaves.
pub fn left_locks_ascend()
    ensures { (locks : List RowLock) (xact : ℕ) → AreAscending locks →
        AreAscending (locks_left locks xact) }
{}

/// The blocker blocks, and of all transactions that do it is the lowest.
pub fn blocker_is_lowest()
    ensures blocks { (locks : List RowLock) (me xact : ℕ) (strength : Strength) →
        AreAscending locks → blocker locks me strength ≡ Some xact →
        IsBlockedBy locks me strength xact }
    ensures lowest { (locks : List RowLock) (me xact other : ℕ) (strength : Strength) →
        AreAscending locks → blocker locks me strength ≡ Some xact →
        IsBlockedBy locks me strength other → xact ≤ other }
{}

/// Where there is no blocker, nobody blocks.
pub fn no_blocker_where_nobody_blocks()
    ensures { (locks : List RowLock) (me other : ℕ) (strength : Strength) →
        blocker locks me strength ≡ None → IsBlockedBy locks me strength other → ⊥ }
{}

/// What a transaction holds itself never blocks it.
pub fn own_lock_never_blocks()
    ensures { (locks : List RowLock) (me : ℕ) (strength : Strength) →
        blocker locks me strength ≢ Some me }
{}

/// Who holds a row alone has to wait for nobody.
pub fn only_holder_is_not_blocked()
    ensures { (locks : List RowLock) (me : ℕ) (strength : Strength) →
        ((other : ℕ) → other ≢ me → strongest_of locks other ≡ None) →
        blocker locks me strength ≡ None }
{}

/// Who joins does not change for whom it has to wait itself.
pub fn join_keeps_own_blocker()
    ensures { (locks : List RowLock) (me : ℕ) (strength asked : Strength) → AreAscending locks →
        blocker (lock_joined locks me strength) me asked ≡ blocker locks me asked }
{}

/// Who leaves is no blocker any more; another one that was the blocker still is, and where there
/// was none there is none. For whom it has to wait itself it does not change.
pub fn leave_keeps_blockers()
    ensures own { (locks : List RowLock) (me : ℕ) (strength : Strength) →
        blocker (locks_left locks me) me strength ≡ blocker locks me strength }
    ensures gone { (locks : List RowLock) (xact me : ℕ) (strength : Strength) →
        blocker (locks_left locks xact) me strength ≢ Some xact }
    ensures stays { (locks : List RowLock) (xact me : ℕ) (strength : Strength) (other : ℕ) →
        other ≢ xact → blocker locks me strength ≡ Some other →
        blocker (locks_left locks xact) me strength ≡ Some other }
    ensures none { (locks : List RowLock) (xact me : ℕ) (strength : Strength) →
        blocker locks me strength ≡ None → blocker (locks_left locks xact) me strength ≡ None }
{}

/// Locks that do not conflict stay so where one joins that has to wait for nobody.
pub fn joined_locks_are_compatible()
    ensures { (locks : List RowLock) (me : ℕ) (strength : Strength) → AreCompatible locks →
        blocker locks me strength ≡ None → AreCompatible (lock_joined locks me strength) }
{}

/// Locks that do not conflict stay so, whoever leaves.
pub fn left_locks_are_compatible()
    ensures { (locks : List RowLock) (xact : ℕ) → AreCompatible locks →
        AreCompatible (locks_left locks xact) }
{}

/// Where no locks conflict, who holds one has to wait for nobody at that strength, nor at a weaker
/// one.
pub fn holder_is_not_blocked()
    ensures { (locks : List RowLock) (me : ℕ) (strength held : Strength) → AreAscending locks →
        AreCompatible locks → strongest_of locks me ≡ Some held → rank_of strength ≤ rank_of held →
        blocker locks me strength ≡ None }
{}
