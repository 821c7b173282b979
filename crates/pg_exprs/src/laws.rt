ghost use Rattle.pg_exprs.specs.Laws.{KindsAreKept, EvaluationNeedsNoMemory, ComparisonsMirror};

/// Over rows whose columns have the kinds of a shape, the value of an expression is NULL or of the
/// expression's kind.
pub fn kinds_are_kept()
    ensures { KindsAreKept }
{}

/// The definition of an expression's value knows no want of memory: only a call can refuse for it.
pub fn evaluation_needs_no_memory()
    ensures { EvaluationNeedsNoMemory }
{}

/// `a < b` says what `b > a` says, and likewise for the other comparisons: with its sides
/// exchanged, a comparison has the value of the mirrored one.
pub fn comparisons_mirror()
    ensures { ComparisonsMirror }
{}
