ghost use Rattle.std.specs.Prelude.{◌≡◌, ◌≢◌, Err};
ghost use Rattle.pg_resolve.specs.declared.fault.AnalyseFault.TheVariants.{Memory};
ghost use Rattle.pg_analyse.specs.Analysis.{analysis};

use crate::built::is_built_statement;
use crate::changes::{analyse_delete, analyse_update};
use crate::inserts::analyse_insert;
use crate::queries::analyse_select;
use pg_model::{Catalogue, Statement};
use pg_parse_stmt::StmtTree;
use pg_resolve::AnalyseFault;
use std::alloc::Global;

/// The statement with its names resolved over the catalogue, or its first error. The version is the
/// script's.
#[tactic(auto, using(crate::proofs::Phases::no_errors, crate::proofs::Phases::an_error))]
pub fn analyse(
    alloc: Global,
    version: u32,
    catalogue: &Catalogue,
    tree: &StmtTree,
) -> Result<Statement, AnalyseFault>
    ensures { result ≢ Err Memory → result ≡ analysis catalogue.now tree.now }
{
    let _ = version;
    if !is_built_statement(tree) {
        return Err(AnalyseFault::Later);
    }
    match tree {
        StmtTree::Begin => Ok(Statement::Begin),
        StmtTree::Commit => Ok(Statement::Commit),
        StmtTree::Rollback => Ok(Statement::Rollback),
        StmtTree::Select(select) => {
            let select = analyse_select(alloc, catalogue, select)?;
            Ok(Statement::Select(select))
        }
        StmtTree::Insert(insert) => {
            let insert = analyse_insert(alloc, catalogue, insert)?;
            Ok(Statement::Insert(insert))
        }
        StmtTree::Update(update) => {
            let update = analyse_update(alloc, catalogue, update)?;
            Ok(Statement::Change(update))
        }
        StmtTree::Delete(delete) => {
            let delete = analyse_delete(alloc, catalogue, delete)?;
            Ok(Statement::Change(delete))
        }
        _ => Err(AnalyseFault::Later),
    }
}
