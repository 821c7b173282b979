//! A line is added to what has been read.
ghost use Rattle.std.specs.Prelude.{◌≡◌, ◌≤◌, ◌++◌, IfOk, OnOk, length, option_to_list};
ghost use Rattle.pg_model.specs.Limits.{most_sessions};
ghost use Rattle.pg_analyse.specs.Analysis.{analysis, declaration};
ghost use Rattle.pg_script.specs.Drafts.{IsAdded, IsFilled, IsGiven, IsSetUp, errors_in, with_name, with_names};
ghost use Rattle.pg_script.specs.Parts.{session_names, setup_insert, with_table};
ghost use Rattle.pg_script.specs.Reasons.{fault_reasons, setup_reasons};

use crate::draft::Draft;
use crate::reasons::{is_of_session, is_other, session_in};
use pg_analyse::{AnalyseFault, analyse, declare};
use pg_line::LineForm;
use pg_lists::TryCopy;
use pg_model::{Catalogue, Content, Line, SetupInsert, SetupRows, SqlError, Statement};
use pg_names::{Name, Names};
use pg_parse_stmt::StmtTree;
use std::alloc::{AllocError, Global};

/// Puts the name of a session behind the others, unless it is one of them.
fn add_session(alloc: Global, sessions: &mut Names, name: &Name) -> Result<(), AllocError>
    ensures { OnOk result (sessions.new ≡ with_name sessions.old name.now) }
{
    if sessions.find(name.as_slice()).is_none() {
        sessions.push(name.try_copy(alloc)?)?;
    }
    Ok(())
}

/// Declares the table of a CREATE, or answers its error.
#[tactic(auto, using(crate::proofs::Drafts::declares_table, crate::proofs::Drafts::declares_fine))]
fn declare_table(
    alloc: Global,
    catalogue: &mut Catalogue,
    tree: &StmtTree,
) -> Result<Option<SqlError>, AllocError>
    ensures tables { IfOk result (λ error.
        catalogue.new ≡ with_table catalogue.old (declaration catalogue.old tree.now)) }
    ensures error { IfOk result (λ error.
        errors_in error ≡ fault_reasons (declaration catalogue.old tree.now)) }
{
    match declare(alloc, catalogue, tree) {
        Ok(()) | Err(AnalyseFault::Later) => Ok(None),
        Err(AnalyseFault::Error(error)) => Ok(Some(error)),
        Err(AnalyseFault::Memory) => Err(AllocError),
    }
}

/// The statement over the catalogue, or why it is none.
fn analysed(
    alloc: Global,
    catalogue: &Catalogue,
    tree: &StmtTree,
) -> Result<Result<Statement, AnalyseFault>, AllocError>
    ensures { IfOk result (λ outcome. outcome ≡ analysis catalogue.now tree.now) }
{
    match analyse(alloc, 1, catalogue, tree) {
        Err(AnalyseFault::Memory) => Err(AllocError),
        outcome => Ok(outcome),
    }
}

/// Puts the INSERT of a setup line behind the others, or answers its error.
fn add_rows(
    alloc: Global,
    setup: &mut SetupRows,
    number: u32,
    catalogue: &Catalogue,
    tree: &StmtTree,
) -> Result<Option<SqlError>, AllocError>
    ensures rows { IfOk result (λ error. setup.new
        ≡ setup.old ++ option_to_list (setup_insert number (analysis catalogue.now tree.now))) }
    ensures error { IfOk result (λ error.
        errors_in error ≡ fault_reasons (analysis catalogue.now tree.now)) }
{
    match analysed(alloc, catalogue, tree)? {
        Ok(Statement::Insert(insert)) => {
            setup.push(SetupInsert { number, insert })?;
            Ok(None)
        }
        Ok(other) => {
            drop(other);
            Ok(None)
        }
        Err(AnalyseFault::Error(error)) => Ok(Some(error)),
        Err(_) => Ok(None),
    }
}

/// Adds the statement of a setup line, or answers its error.
#[tactic(auto, using(crate::proofs::Drafts::no_declaration, crate::proofs::Drafts::no_statement))]
fn set_up(alloc: Global, draft: &mut Draft, tree: &StmtTree) -> Result<Option<SqlError>, AllocError>
    ensures added { IfOk result (λ error. IsSetUp draft.old tree.now draft.new) }
    ensures error { IfOk result (λ error. errors_in error
        ≡ fault_reasons (declaration draft.old.catalogue tree.now)
        ++ fault_reasons (analysis draft.old.catalogue tree.now)) }
{
    if is_of_session(tree) {
        add_rows(
            alloc,
            &mut draft.setup,
            draft.number,
            &draft.catalogue,
            tree,
        )
    } else {
        declare_table(alloc, &mut draft.catalogue, tree)
    }
}

/// Gives a statement to a session that was named.
fn give(alloc: Global, draft: &mut Draft, name: &Name, tree: &StmtTree) -> Result<(), AllocError>
    requires { length draft.old.sessions ≤ most_sessions }
    ensures { OnOk result (IsGiven draft.old name.now tree.now draft.new) }
{
    let statement = match analysed(alloc, &draft.catalogue, tree)? {
        Ok(statement) => Ok(statement),
        Err(AnalyseFault::Error(error)) => Err(error),
        Err(_) => return Ok(()),
    };
    let session = draft.sessions.find(name.as_slice()).unwrap_or(0) as u32;
    draft.lines.push(Line {
        number: draft.number,
        content: Content::Given { session, statement },
    })?;
    Ok(())
}

/// Adds what a line says behind its session, or answers the error of a setup line.
fn add_content(
    alloc: Global,
    draft: &mut Draft,
    form: &LineForm,
) -> Result<Option<SqlError>, AllocError>
    requires { length draft.old.sessions ≤ most_sessions }
    ensures added { IfOk result (λ error. IsFilled draft.old form.now draft.new) }
    ensures error { IfOk result (λ error.
        errors_in error ≡ setup_reasons draft.old.catalogue form.now) }
{
    match form {
        LineForm::Setup(Ok(tree)) => set_up(alloc, draft, tree),
        LineForm::Given(session, Ok(tree)) => {
            give(alloc, draft, &session.name, tree)?;
            Ok(None)
        }
        _ => Ok(None),
    }
}

/// Adds a line to a draft, or answers the error of a setup line.
pub(crate) fn add(
    alloc: Global,
    draft: &mut Draft,
    form: &LineForm,
) -> Result<Option<SqlError>, AllocError>
    requires few { length (with_names draft.old.sessions (session_names form.now)) ≤ most_sessions }
    requires room { draft.old.number ≤ 1048577 }
    ensures added { IfOk result (λ error. IsAdded draft.old form.now draft.new) }
    ensures error { IfOk result (λ error.
        errors_in error ≡ setup_reasons draft.old.catalogue form.now) }
{
    if let Some(session) = session_in(form) {
        add_session(alloc, &mut draft.sessions, &session.name)?;
    }
    let error = add_content(alloc, draft, form)?;
    draft.past_setup = draft.past_setup || is_other(form);
    draft.number += 1;
    Ok(error)
}
