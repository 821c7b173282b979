//! Why a line is refused before its statement is analysed.
ghost use Rattle.std.specs.Prelude.{◌≡◌, not, nat_le, length};
ghost use Rattle.std.specs.Option.{option_copied};
ghost use Rattle.pg_model.specs.Limits.{most_sessions};
ghost use Rattle.pg_script.specs.Built.{is_later as says_later, is_later_statement as says_later_statement, is_short as is_short_name};
ghost use Rattle.pg_script.specs.Drafts.{early_reasons, first_of, is_other as is_other_line, named_by, with_names};
ghost use Rattle.pg_script.specs.Parts.{session_names};
ghost use Rattle.pg_script.specs.Reasons.{is_misplaced as is_misplaced_line, is_of_session as may_be_given, is_of_setup as may_be_setup, is_plain_insert as is_a_plain_insert, is_setup as is_setup_line, is_unknown as is_unknown_line, name_reasons, orders_steps as line_orders_steps, place_reasons, reason_of_place as placed_reason, statement_reasons};

use crate::draft::Draft;
use crate::fault::Reason;
use pg_analyse::{is_built_declaration, is_built_statement};
use pg_line::{LineForm, PlaceFault, SessionName};
use pg_model::Mode;
use pg_parse_stmt::{Insert, Rows, StmtTree};

/// The most sessions that a script names.
const MOST_SESSIONS: usize = 32;

/// The most bytes of a name.
const MOST_NAME_BYTES: usize = 63;

/// Whether the name of a session is no longer than 63 bytes.
fn is_short(session: &SessionName) -> bool
    ensures { result ≡ is_short_name session.now }
{
    session.name.as_slice().len() <= MOST_NAME_BYTES
}

/// Whether a statement is of the language and is not built.
fn is_later_statement(statement: &Result<StmtTree, PlaceFault>) -> bool
    ensures { result ≡ says_later_statement statement.now }
{
    match statement {
        Ok(tree) => !(is_built_statement(tree) || is_built_declaration(tree)),
        Err(_) => false,
    }
}

/// Whether a line without a place fault has a form that is not built.
fn is_later(form: &LineForm) -> bool
    ensures { result ≡ says_later form.now }
{
    match form {
        LineForm::Comment | LineForm::Unknown => false,
        LineForm::Setup(statement) => is_later_statement(statement),
        LineForm::Given(session, statement) => is_short(session) && is_later_statement(statement),
        LineForm::Pause(session, _) | LineForm::Go(session) | LineForm::Cut(session) => {
            is_short(session)
        }
    }
}

/// Whether a line has none of the forms.
fn is_unknown(form: &LineForm) -> bool
    ensures { result ≡ is_unknown_line form.now }
{
    matches!(form, LineForm::Unknown)
}

/// Whether a line orders the steps of a script.
fn orders_steps(form: &LineForm) -> bool
    ensures { result ≡ line_orders_steps form.now }
{
    matches!(
        form,
        LineForm::Pause(_, _) | LineForm::Go(_) | LineForm::Cut(_)
    )
}

/// Whether a line is a setup line.
fn is_setup(form: &LineForm) -> bool
    ensures { result ≡ is_setup_line form.now }
{
    matches!(form, LineForm::Setup(_))
}

/// Whether a line is neither a setup line nor a comment.
pub(crate) fn is_other(form: &LineForm) -> bool
    ensures { result ≡ is_other_line form.now }
{
    !matches!(form, LineForm::Setup(_) | LineForm::Comment)
}

/// The session that a line names, if it names one.
pub(crate) fn session_in(form: &LineForm) -> Option<&SessionName>
    ensures { named_by (option_copied result) ≡ session_names form.now }
{
    match form {
        LineForm::Comment | LineForm::Setup(_) | LineForm::Unknown => None,
        LineForm::Given(session, _)
        | LineForm::Pause(session, _)
        | LineForm::Go(session)
        | LineForm::Cut(session) => Some(session),
    }
}

/// Whether there are more sessions than may be with the one that a line names.
fn has_many_sessions(draft: &Draft, form: &LineForm) -> bool
    ensures { result ≡ not (nat_le
        (length (with_names draft.now.sessions (session_names form.now))) most_sessions) }
{
    let known = draft.sessions.len();
    let more = match session_in(form) {
        Some(session) => draft.sessions.find(session.name.as_slice()).is_none(),
        None => false,
    };
    if more {
        known >= MOST_SESSIONS
    } else {
        known > MOST_SESSIONS
    }
}

/// Whether an INSERT has VALUES and neither ON CONFLICT nor RETURNING.
fn is_plain_insert(insert: &Insert) -> bool
    ensures { result ≡ is_a_plain_insert insert.now }
{
    matches!(insert.rows, Rows::Values(_))
        && insert.conflict.is_none()
        && insert.returning.as_slice().is_empty()
}

/// Whether a setup line may have the statement.
fn is_of_setup(tree: &StmtTree) -> bool
    ensures { result ≡ may_be_setup tree.now }
{
    match tree {
        StmtTree::CreateTable(_) | StmtTree::CreateIndex(_) => true,
        StmtTree::Insert(insert) => is_plain_insert(insert),
        StmtTree::Begin
        | StmtTree::Commit
        | StmtTree::Rollback
        | StmtTree::Select(_)
        | StmtTree::Update(_)
        | StmtTree::Delete(_)
        | StmtTree::Merge(_) => false,
    }
}

/// Whether a session may be given the statement.
pub(crate) fn is_of_session(tree: &StmtTree) -> bool
    ensures { result ≡ may_be_given tree.now }
{
    !matches!(tree, StmtTree::CreateTable(_) | StmtTree::CreateIndex(_))
}

/// Whether the statement may not stand on a line of this form.
fn is_misplaced(form: &LineForm) -> bool
    ensures { result ≡ is_misplaced_line form.now }
{
    match form {
        LineForm::Setup(Ok(tree)) => !is_of_setup(tree),
        LineForm::Given(_, Ok(tree)) => !is_of_session(tree),
        _ => false,
    }
}

/// The reason that a place fault is.
fn placed(fault: PlaceFault) -> Reason
    ensures { result ≡ placed_reason fault }
{
    match fault {
        PlaceFault::Byte(at) => Reason::Byte(at),
        PlaceFault::Literal(at) => Reason::Literal(at),
        PlaceFault::LongName(at) => Reason::LongName(at),
        PlaceFault::Syntax(at) => Reason::Syntax(at),
        PlaceFault::Depth(at) => Reason::Depth(at),
        PlaceFault::Items(at) => Reason::Items(at),
    }
}

/// The place fault of a statement, if it has one.
fn statement_reason(statement: &Result<StmtTree, PlaceFault>) -> Option<Reason>
    ensures { result ≡ first_of (statement_reasons statement.now) }
{
    match statement {
        Ok(_) => None,
        Err(fault) => Some(placed(*fault)),
    }
}

/// The place fault of a session's name, if it has one.
fn name_reason(session: &SessionName) -> Option<Reason>
    ensures { result ≡ first_of (name_reasons session.now) }
{
    if is_short(session) {
        None
    } else {
        Some(Reason::LongName(session.place))
    }
}

/// The first place fault of a line, if it has one.
fn place_reason(form: &LineForm) -> Option<Reason>
    ensures { result ≡ first_of (place_reasons form.now) }
{
    match form {
        LineForm::Comment | LineForm::Unknown => None,
        LineForm::Setup(statement) => statement_reason(statement),
        LineForm::Given(session, statement) => match name_reason(session) {
            Some(reason) => Some(reason),
            None => statement_reason(statement),
        },
        LineForm::Pause(session, _) | LineForm::Go(session) | LineForm::Cut(session) => {
            name_reason(session)
        }
    }
}

/// The first reason to refuse a line behind those of a draft, as far as it is told without
/// analysis.
pub(crate) fn early_reason(draft: &Draft, form: &LineForm) -> Option<Reason>
    ensures { result ≡ first_of (early_reasons draft.now form.now) }
{
    if is_later(form) {
        Some(Reason::Later)
    } else if is_unknown(form) {
        Some(Reason::Line)
    } else if draft.mode == Mode::Free && orders_steps(form) {
        Some(Reason::Free)
    } else if is_setup(form) && draft.past_setup {
        Some(Reason::Order)
    } else if has_many_sessions(draft, form) {
        Some(Reason::Sessions)
    } else if is_misplaced(form) {
        Some(Reason::Place)
    } else {
        place_reason(form)
    }
}
