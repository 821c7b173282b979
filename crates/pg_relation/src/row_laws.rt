//! Laws of locks and versions over all journals: each is the contract of a function that does
//! nothing.

ghost use Rattle.std.specs.Prelude.{Contains, Ok, ◌≡◌, ◌≢◌, ◌<◌, ◌≤◌, ◌⊎◌, [], List, None, Some, length, slice_get, ℕ};
ghost use Rattle.pg_lists.specs.Numbered.{item_at};
ghost use Rattle.pg_multi.specs.declared.row_lock.RowLock.{RowLock};
ghost use Rattle.pg_multi.specs.declared.strength.Strength.{Strength};
ghost use Rattle.pg_multi.specs.declared.strength.Strength.TheVariants.{NoKeyUpdate};
ghost use Rattle.pg_multi.specs.Locks.{AreCompatible, blocker, strongest_of};
ghost use Rattle.pg_heap.specs.declared.row.Row.{Row};
ghost use Rattle.pg_heap.specs.declared.version.Version.{Version};
ghost use Rattle.pg_heap.specs.Current.{current, newest};
ghost use Rattle.pg_heap.specs.Rows.{AreNumbered, row_of};
ghost use Rattle.pg_model.specs.declared.journal.Entry.{Entry};
ghost use Rattle.pg_model.specs.declared.script.Script.{Script};
ghost use Rattle.pg_model.specs.declared.statement.Change.{Change};
ghost use Rattle.pg_model.specs.declared.statement.Statement.TheVariants as statement;
ghost use Rattle.pg_world.specs.declared.session.Progress.TheVariants.{Inside as inside};
ghost use Rattle.pg_world.specs.declared.session.Running.{Running};
ghost use Rattle.pg_world.specs.declared.session.SessionView.{SessionView};
ghost use Rattle.pg_world.specs.declared.session.Stage.TheVariants.{Locked as locked};
ghost use Rattle.pg_world.specs.declared.session.VersionName.{VersionName};
ghost use Rattle.pg_world.specs.declared.table.TableView.{TableView};
ghost use Rattle.pg_world.specs.Worlds.{session_of, table_of};
ghost use Rattle.pg_relation.specs.Journals.{IsLegal, world_after};
ghost use Rattle.pg_relation.specs.Lines.{statement_at};
ghost use Rattle.pg_relation.specs.Locking.{AreRising, HoldsAtLeast, IsFirstBy, IsHolding, IsRowOf, Runs, RunsOrCommitted, StandBehind};

/// In the world of every legal journal a table has its rows in order of their numbers, and a list
/// of locks for each.
pub fn rows_are_numbered()
    ensures numbered { (script : Script) (journal : List Entry) (number : ℕ) (table : TableView) →
        IsLegal script journal → table_of (world_after script journal) number ≡ Some table →
        AreNumbered table.rows }
    ensures listed { (script : Script) (journal : List Entry) (number : ℕ) (table : TableView) →
        IsLegal script journal → table_of (world_after script journal) number ≡ Some table →
        length table.locks ≡ length table.rows }
{}

/// In the world of every legal journal no two transactions hold a row at strengths that conflict,
/// and each that holds one runs.
pub fn locks_are_compatible()
    ensures compatible { (script : Script) (journal : List Entry) (number row_number : ℕ)
        (row : Row) (locks : List RowLock) → IsLegal script journal →
        IsRowOf (world_after script journal) number row_number row locks → AreCompatible locks }
    ensures running { (script : Script) (journal : List Entry) (number row_number : ℕ) (row : Row)
        (locks : List RowLock) (xact : ℕ) (held : Strength) → IsLegal script journal →
        IsRowOf (world_after script journal) number row_number row locks →
        strongest_of locks xact ≡ Some held → Runs (world_after script journal).transactions xact }
{}

/// In the world of every legal journal a transaction that runs and has changed a row, which it did
/// not insert, holds it at NO KEY UPDATE or more strongly.
pub fn changed_rows_are_held()
    ensures { (script : Script) (journal : List Entry) (number row_number : ℕ) (row : Row)
        (locks : List RowLock) (version : Version) → IsLegal script journal →
        IsRowOf (world_after script journal) number row_number row locks →
        Contains row.versions version →
        Runs (world_after script journal).transactions version.writer →
        IsFirstBy version.writer row.versions ⊎ HoldsAtLeast locks version.writer NoKeyUpdate }
{}

/// In the world of every legal journal at most one transaction that runs has versions of a row, and
/// they stand behind all others.
pub fn one_running_writer()
    ensures one { (script : Script) (journal : List Entry) (number row_number : ℕ) (row : Row)
        (locks : List RowLock) (version other : Version) → IsLegal script journal →
        IsRowOf (world_after script journal) number row_number row locks →
        Contains row.versions version → Contains row.versions other →
        Runs (world_after script journal).transactions version.writer →
        Runs (world_after script journal).transactions other.writer →
        version.writer ≡ other.writer }
    ensures behind { (script : Script) (journal : List Entry) (number row_number : ℕ) (row : Row)
        (locks : List RowLock) (xact : ℕ) → IsLegal script journal →
        IsRowOf (world_after script journal) number row_number row locks →
        Runs (world_after script journal).transactions xact → StandBehind xact row.versions }
{}

/// In the world of every legal journal the versions of a transaction that runs, as the open one of
/// a session does, stand behind all others in each row of each table.
pub fn own_versions_are_last()
    ensures running { (script : Script) (journal : List Entry) (at : ℕ) (table : TableView)
        (xact : ℕ) → IsLegal script journal →
        table_of (world_after script journal) at ≡ Some table →
        Runs (world_after script journal).transactions xact →
        (number earlier later : ℕ) (row : Row) (one other : Version) →
        row_of table.rows number ≡ Some row → earlier < later →
        slice_get row.versions earlier ≡ Some one → slice_get row.versions later ≡ Some other →
        one.writer ≡ xact → other.writer ≡ xact }
    ensures opened { (script : Script) (journal : List Entry) (at by : ℕ) (table : TableView)
        (session : SessionView) (xact : ℕ) → IsLegal script journal →
        table_of (world_after script journal) at ≡ Some table →
        session_of (world_after script journal) by ≡ Some session →
        session.transaction ≡ Some xact →
        (number earlier later : ℕ) (row : Row) (one other : Version) →
        row_of table.rows number ≡ Some row → earlier < later →
        slice_get row.versions earlier ≡ Some one → slice_get row.versions later ≡ Some other →
        one.writer ≡ xact → other.writer ≡ xact }
{}

/// In the world of every legal journal nobody holds a row that has no version, and a row that was
/// inserted by a transaction that runs is held by no other.
pub fn inserted_rows_are_free()
    ensures empty { (script : Script) (journal : List Entry) (number row_number : ℕ) (row : Row)
        (locks : List RowLock) (other : ℕ) → IsLegal script journal →
        IsRowOf (world_after script journal) number row_number row locks → row.versions ≡ [] →
        strongest_of locks other ≡ None }
    ensures inserted { (script : Script) (journal : List Entry) (number row_number : ℕ) (row : Row)
        (locks : List RowLock) (xact other : ℕ) → IsLegal script journal →
        IsRowOf (world_after script journal) number row_number row locks →
        Runs (world_after script journal).transactions xact → IsFirstBy xact row.versions →
        other ≢ xact → strongest_of locks other ≡ None }
{}

/// In the world of every legal journal an UPDATE or DELETE that has locked the row of its candidate
/// holds it, and the version of which it keeps the name is still the newest and the current one, is
/// there, and was not written by this command.
pub fn locked_rows_stay()
    ensures { (script : Script) (journal : List Entry) (number : ℕ) (session : SessionView)
        (running : Running) (change : Change) (name : VersionName) → IsLegal script journal →
        session_of (world_after script journal) number ≡ Some session →
        session.progress ≡ inside running →
        statement_at script number session ≡ Some (Ok (statement.Change change)) →
        running.stage ≡ locked name → IsHolding (world_after script journal) change running name }
{}

/// In the world of every legal journal a row has at most one version of a writer and a command, and
/// of one writer they rise by command; each writer runs or has committed, and while it is the open
/// transaction of a session, no command of it is later than the session's.
pub fn versions_are_named()
    ensures named { (script : Script) (journal : List Entry) (number row_number : ℕ) (row : Row)
        (locks : List RowLock) (one other : ℕ) (version same : Version) → IsLegal script journal →
        IsRowOf (world_after script journal) number row_number row locks →
        item_at row.versions one ≡ Some version → item_at row.versions other ≡ Some same →
        version.writer ≡ same.writer → version.command ≡ same.command → one ≡ other }
    ensures rising { (script : Script) (journal : List Entry) (number row_number : ℕ) (row : Row)
        (locks : List RowLock) → IsLegal script journal →
        IsRowOf (world_after script journal) number row_number row locks → AreRising row.versions }
    ensures writers { (script : Script) (journal : List Entry) (number row_number : ℕ) (row : Row)
        (locks : List RowLock) (version : Version) → IsLegal script journal →
        IsRowOf (world_after script journal) number row_number row locks →
        Contains row.versions version →
        RunsOrCommitted (world_after script journal).transactions version.writer }
    ensures commands { (script : Script) (journal : List Entry) (number row_number : ℕ) (row : Row)
        (locks : List RowLock) (version : Version) (by : ℕ) (session : SessionView) →
        IsLegal script journal →
        IsRowOf (world_after script journal) number row_number row locks →
        Contains row.versions version →
        session_of (world_after script journal) by ≡ Some session →
        session.transaction ≡ Some version.writer → version.command ≤ session.command }
{}

/// In the world of every legal journal, where a row has a current version for a transaction, which
/// would not have to wait for it at NO KEY UPDATE, that is the newest version of the row.
pub fn current_is_newest_when_free()
    ensures { (script : Script) (journal : List Entry) (number row_number : ℕ) (row : Row)
        (locks : List RowLock) (xact : ℕ) (version : Version) → IsLegal script journal →
        IsRowOf (world_after script journal) number row_number row locks →
        blocker locks xact NoKeyUpdate ≡ None →
        current (world_after script journal).transactions xact row ≡ Some version →
        newest row ≡ Some version }
{}
