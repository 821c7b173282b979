ghost use Rattle.std.specs.Prelude.{◌≡◌};
ghost use Rattle.pg_values.specs.Truth.{and_truths, or_truths, not_truth};

/// Three-valued AND, where `None` is NULL.
pub fn and(a: Option<bool>, b: Option<bool>) -> Option<bool>
    ensures { result ≡ and_truths a b }
{
    match (a, b) {
        (Some(false), _) | (_, Some(false)) => Some(false),
        (Some(true), Some(true)) => Some(true),
        _ => None,
    }
}

/// Three-valued OR.
pub fn or(a: Option<bool>, b: Option<bool>) -> Option<bool>
    ensures { result ≡ or_truths a b }
{
    match (a, b) {
        (Some(true), _) | (_, Some(true)) => Some(true),
        (Some(false), Some(false)) => Some(false),
        _ => None,
    }
}

/// Three-valued NOT.
pub fn not(a: Option<bool>) -> Option<bool>
    ensures { result ≡ not_truth a }
{
    a.map(|truth| !truth)
}
