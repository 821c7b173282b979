use pg_xacts::On;

/// What came of a statement's wish to lock a row.
#[derive(Clone, Copy, Debug, PartialEq, Eq)]
pub enum Hold {
    /// The statement itself has written the row's newest version.
    Own,
    /// The row is gone.
    Gone,
    /// Another transaction holds a lock that conflicts.
    Blocked(On),
    /// The row is locked.
    Held,
}
