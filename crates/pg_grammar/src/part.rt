//! What a parse function gives back.
ghost use Rattle.std.specs.Prelude.{◌≡◌};
ghost use Rattle.pg_grammar.specs.Answers.{read, whole_of};

use crate::fault::Fault;

/// A value that was read, and the tokens behind it.
#[derive(Drop)]
pub struct Part<'a, T, V> {
    pub value: V,
    pub rest: &'a [T],
}

/// The value, if no token is left behind it; else the fault stands at the first that is left.
pub fn whole<T, V: Drop>(part: Part<'_, T, V>) -> Result<V, Fault>
    ensures { result ≡ whole_of (read part.entry.value part.entry.rest.now) }
{
    let Part { value, rest } = part;
    if rest.is_empty() {
        Ok(value)
    } else {
        Err(Fault::Syntax(rest.len()))
    }
}
