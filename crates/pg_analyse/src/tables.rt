ghost use Rattle.std.specs.Prelude.{◌≡◌, ◌≢◌, [], IfErr, IfOk, OnOk, None, Some};
ghost use Rattle.pg_model.specs.declared.error.SqlError.TheVariants.{NoRelation};
ghost use Rattle.pg_resolve.specs.declared.fault.AnalyseFault.TheVariants.{Error, Memory};
ghost use Rattle.pg_resolve.specs.Causes.{Stops};
ghost use Rattle.pg_analyse.specs.Queries.{existence_errors, table_named as named_table};

use pg_lexer::NameText;
use pg_lists::TryCopy;
use pg_model::{Catalogue, NamedTable, SqlError};
use pg_resolve::{AnalyseFault, name_of, number};
use std::alloc::Global;

/// The table of that name, with its number.
pub(crate) fn table_named(
    alloc: Global,
    catalogue: &Catalogue,
    name: &NameText,
) -> Result<NamedTable, AnalyseFault>
    ensures table { IfOk result (λ named. named_table catalogue.now name.now ≡ Some named) }
    ensures ok { OnOk result (existence_errors catalogue.now name.now ≡ []) }
    ensures none { IfErr result (λ fault.
        fault ≢ Memory → named_table catalogue.now name.now ≡ None) }
    ensures error { IfErr result (λ fault. fault ≢ Memory → fault ≡ Error (NoRelation name.now)) }
    ensures err { IfErr result (λ fault. Stops (existence_errors catalogue.now name.now) fault) }
{
    let Some(at) = catalogue.find(name.as_bytes()) else {
        return Err(AnalyseFault::Error(SqlError::NoRelation(name_of(alloc, name)?)));
    };
    let shape = catalogue.as_slice()[at].try_copy(alloc)?;
    let table = number(at)?;
    Ok(NamedTable { table, shape })
}
