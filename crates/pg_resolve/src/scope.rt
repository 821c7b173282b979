ghost use Rattle.std.specs.Prelude.{◌≡◌, IfOk, IfErr};
ghost use Rattle.pg_exprs.specs.Columns.{column_kind};
ghost use Rattle.pg_resolve.specs.declared.fault.AnalyseFault.TheVariants.{Memory};
ghost use Rattle.pg_resolve.specs.declared.scope.Found.TheVariants.{Nowhere};
ghost use Rattle.pg_resolve.specs.Scope.{found_also, found_in, places, scope_kinds};

use crate::AnalyseFault;
use crate::name::number;
use pg_model::Columns;
use pg_names::{Name, Named, NamedItems};
use pg_shared::Shared;
use pg_values::Kind;

/// A source under the name that expressions know it by: its alias, or else its table's name.
#[derive(Drop)]
pub struct Known {
    pub name: Name,
    pub columns: Shared<Columns>,
}

impl Named for Known {
    ghost named = { λ known. known.name };

    fn name(&self) -> &Name {
        &self.name
    }
}

/// What an expression may name.
pub type Scope = NamedItems<Known>;

/// Where columns of a name stand.
#[derive(Clone, Copy, Debug, PartialEq, Eq)]
pub enum Found {
    Nowhere,
    /// In one source: its number, and the column's.
    At(u32, u32),
    /// In several sources.
    Several,
}

/// What is found, with one place more.
fn also(found: Found, source: u32, column: u32) -> Found
    ensures { result ≡ found_also found (source, column) }
{
    match found {
        Found::Nowhere => Found::At(source, column),
        Found::At(_, _) | Found::Several => Found::Several,
    }
}

/// Where the columns stand that a bare name may mean.
pub(crate) fn find_column(scope: &Scope, name: &[u8]) -> Result<Found, AnalyseFault>
    ensures ok { IfOk result (λ found. found ≡ found_in Nowhere (places scope.now name.now)) }
    ensures err { IfErr result (λ fault. fault ≡ Memory) }
{
    let sources = scope.as_slice();
    let mut found = Found::Nowhere;
    let mut at = 0;
    for known in sources {
        if let Some(column) = known.columns.find(name) {
            found = also(found, number(at)?, number(column)?);
        }
        at += 1;
    }
    Ok(found)
}

/// The kind of a column of a source, both by their numbers.
pub(crate) fn kind_at(scope: &Scope, source: u32, column: u32) -> Option<Kind>
    ensures { result ≡ column_kind (scope_kinds scope.now) source column }
{
    let known = scope.get(source as usize)?;
    let column = known.columns.get(column as usize)?;
    Some(column.kind)
}
