ghost use Rattle.std.specs.Prelude.{◌≡◌};
ghost use Rattle.pg_model.specs.Kinds.{may_be_stored as is_storable};

use pg_values::Kind;

/// Whether a value of the one kind may be stored in a column of the other.
pub fn may_be_stored(from: Option<Kind>, to: Kind) -> bool
    ensures { result ≡ is_storable from to }
{
    match from {
        None => true,
        Some(Kind::Bool) => matches!(to, Kind::Bool),
        Some(Kind::Int | Kind::Big) => matches!(to, Kind::Int | Kind::Big),
        Some(Kind::Text) => matches!(to, Kind::Text),
    }
}
