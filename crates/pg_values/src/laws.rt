ghost use Rattle.pg_values.specs.Laws.{AndMirrorsOr, OrMirrorsAnd, CompareMirrors, DivisionLeavesRemainder, FittedHasKind};

/// NOT of an AND is the OR of the negated sides.
pub fn and_mirrors_or()
    ensures { AndMirrorsOr }
{}

/// NOT of an OR is the AND of the negated sides.
pub fn or_mirrors_and()
    ensures { OrMirrorsAnd }
{}

/// With its sides exchanged a comparison answers the reverse, so that `a < b` is `b > a`.
pub fn compare_mirrors()
    ensures { CompareMirrors }
{}

/// A quotient and a remainder go together: the remainder is what the quotient leaves, is nearer to
/// zero than the divisor and has the dividend's sign.
pub fn division_leaves_remainder()
    ensures { DivisionLeavesRemainder }
{}

/// A fitted value is NULL or of the kind asked for.
pub fn fitted_has_kind()
    ensures { FittedHasKind }
{}
