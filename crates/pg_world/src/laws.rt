//! What the definitions say of one small table, worked by hand, and a law of placed rows: each is
//! the contract of a function that does nothing.

ghost use Rattle.std.specs.Prelude.{Err, None, Ok, Some, ◌≡◌, ◌∷◌, [], List};
ghost use Rattle.pg_values.specs.declared.value.Value.{Value};
ghost use Rattle.pg_exprs.specs.Tree.{literal};
ghost use Rattle.pg_xacts.specs.declared.me.Me.{Me};
ghost use Rattle.pg_xacts.specs.declared.transaction.XStatus.TheVariants.{Committed, RolledBack};
ghost use Rattle.pg_multi.specs.declared.strength.Strength.TheVariants.{NoKeyUpdate, Update};
ghost use Rattle.pg_model.specs.declared.error.SqlError.TheVariants as error;
ghost use Rattle.pg_model.specs.declared.journal.EntryAct.TheVariants as entry;
ghost use Rattle.pg_model.specs.declared.journal.Tag.TheVariants as tag;
ghost use Rattle.pg_model.specs.declared.statement.Statement.TheVariants as statement;
ghost use Rattle.pg_world.specs.declared.session.Stage.TheVariants.{Between as between, Found as found, Locked as locked, Placed as placed};
ghost use Rattle.pg_world.specs.declared.table.TableView.{TableView};
ghost use Rattle.pg_world.specs.Candidates.{candidates_of, insert_candidates, proposed_candidate, seen_rows};
ghost use Rattle.pg_world.specs.Changes.{values_to_hold};
ghost use Rattle.pg_world.specs.Choices.{choices};
ghost use Rattle.pg_world.specs.Choosing.{does, fails, waits};
ghost use Rattle.pg_world.specs.Replies.{proposed_values, reply_of};
ghost use Rattle.pg_world.specs.Sessions.{first_running};
ghost use Rattle.pg_world.specs.Tables.{commit, empty_table, next_row, placed_at, rollback, row_added, row_inserted, row_placed, table_after_end};
ghost use Rattle.pg_world.specs.Worked.{changed_rows, changing, delete_all, divide_all, fifth, first_candidate, first_seen, five_rows, five_stored, four_pairs, four_transactions, fourth_candidate, fourth_seen, insert_failing, insert_key, insert_keys, insert_swapped, int, locked_rows, one_by_zero, raise_all, raise_ten, replied_rows, row_t, second, second_seen, select_all, select_failing, select_greater, select_pairs, small_world, swapped_candidates, with_both, with_second, with_selected, unmade, with_taken_up, without_second, written_by};
ghost use Rattle.pg_world.specs.Worlds.{with_end};

/// What INSERTs propose: values in the order of the columns, fitted to them; a default for a column
/// that is left out; and the first error in the order written, where each row comes with its
/// defaults before the next one.
pub fn worked_inserts()
    ensures listed { insert_candidates insert_swapped ≡ Ok swapped_candidates }
    ensures defaults { insert_candidates insert_key
        ≡ Ok (proposed_candidate (row_t 1 7) ∷ []) }
    ensures written { insert_candidates insert_failing ≡ Err error.ZeroDivisor }
    ensures rows { insert_candidates (insert_keys (literal (int 1)) one_by_zero)
        ≡ Err error.IntRange }
    ensures row { insert_candidates (insert_keys one_by_zero (literal (int 1)))
        ≡ Err error.ZeroDivisor }
{}

/// What statements see of a table: rows whose writer is among the commits of the snapshot, and
/// those of earlier commands of their own transaction; no row that is gone.
pub fn worked_sight()
    ensures before { seen_rows four_transactions 1 fifth five_rows
        ≡ first_seen ∷ fourth_seen ∷ [] }
    ensures after { seen_rows four_transactions 2 fifth five_rows ≡ first_seen ∷ [] }
    ensures later { seen_rows four_transactions 1 (second 2) five_rows
        ≡ first_seen ∷ second_seen ∷ fourth_seen ∷ [] }
    ensures same { seen_rows four_transactions 2 (second 1) five_rows ≡ first_seen ∷ [] }
{}

/// What SELECTs return: the rows that they see, where their WHERE is true and not NULL; pairs of
/// two sources in nested order; and an error of the WHERE before one of an item.
#[tactic(auto, unfolding(crate::specs::Candidates::candidates_over))]
pub fn worked_selects()
    ensures all { candidates_of (statement.Select select_all) (five_rows ∷ []) four_transactions 1
        fifth ≡ Ok (first_candidate ∷ fourth_candidate ∷ []) }
    ensures null { candidates_of (statement.Select select_greater) (five_rows ∷ [])
        four_transactions 1 fifth ≡ Ok (first_candidate ∷ []) }
    ensures pairs { candidates_of (statement.Select select_pairs) (five_rows ∷ [])
        four_transactions 1 fifth ≡ Ok four_pairs }
    ensures first { candidates_of (statement.Select select_failing) (five_rows ∷ [])
        four_transactions 1 fifth ≡ Err error.IntRange }
{}

/// What a statement does next: an INSERT finds each candidate, places its row under the next number
/// and inserts it, and is then done; a SELECT is done at once; and an error fails the statement.
pub fn worked_choices()
    ensures first { choices (statement.Insert insert_swapped) (five_rows ∷ []) four_transactions
        (first_running (second 2) 1 (Ok swapped_candidates)) ≡ does (entry.Found 1) ∷ [] }
    ensures found { choices (statement.Insert insert_swapped) (five_rows ∷ []) four_transactions
        (with_taken_up 1 found) ≡ does (entry.Placed 0 6) ∷ [] }
    ensures placed { choices (statement.Insert insert_swapped) (five_rows ∷ []) four_transactions
        (with_taken_up 1 (placed 6)) ≡ does (entry.Inserted 0 6) ∷ [] }
    ensures next { choices (statement.Insert insert_swapped) (five_rows ∷ []) four_transactions
        (with_taken_up 1 between) ≡ does (entry.Found 2) ∷ [] }
    ensures done { choices (statement.Insert insert_swapped) (five_rows ∷ []) four_transactions
        with_both ≡ [] }
    ensures select { choices (statement.Select select_all) (five_rows ∷ []) four_transactions
        with_selected ≡ [] }
    ensures error { choices (statement.Select select_failing) (five_rows ∷ []) four_transactions
        (first_running fifth 1 (Err error.IntRange)) ≡ fails error.IntRange ∷ [] }
{}

/// What an UPDATE or DELETE takes up: each row that it sees and of which its WHERE is true.
#[tactic(auto, unfolding(crate::specs::Candidates::candidates_over))]
pub fn worked_change_candidates()
    ensures all { candidates_of (statement.Change raise_all) (five_rows ∷ []) four_transactions 1
        (second 2) ≡ Ok (unmade first_seen ∷ unmade second_seen ∷ unmade fourth_seen ∷ []) }
    ensures some { candidates_of (statement.Change raise_ten) (five_rows ∷ []) four_transactions 1
        (second 2) ≡ Ok (unmade first_seen ∷ []) }
{}

/// What it does with a row that it has found: it locks the row, a DELETE more strongly; it waits for
/// who holds a lock that conflicts, also where its own lock would be weaker; it passes a row that is
/// gone, or that it has changed already; and an error of its SET comes before any lock.
pub fn worked_locking()
    ensures free { choices (statement.Change raise_all) (five_rows ∷ []) four_transactions
        (changing (second 2) first_seen found) ≡ does (entry.Locked 0 1 NoKeyUpdate) ∷ [] }
    ensures delete { choices (statement.Change delete_all) (five_rows ∷ []) four_transactions
        (changing (second 2) first_seen found) ≡ does (entry.Locked 0 1 Update) ∷ [] }
    ensures own { choices (statement.Change delete_all) (locked_rows ∷ []) four_transactions
        (changing (second 2) first_seen found) ≡ does (entry.Locked 0 1 Update) ∷ [] }
    ensures held { choices (statement.Change raise_all) (locked_rows ∷ []) four_transactions
        (changing fifth first_seen found) ≡ waits 1 ∷ [] }
    ensures gone { choices (statement.Change raise_all) (five_rows ∷ []) four_transactions
        (changing (second 2) fourth_seen found) ≡ does entry.Passed ∷ [] }
    ensures twice { choices (statement.Change raise_all) (five_rows ∷ []) four_transactions
        (changing (second 1) second_seen found) ≡ does entry.Passed ∷ [] }
    ensures error { choices (statement.Change divide_all) (locked_rows ∷ []) four_transactions
        (changing fifth first_seen found) ≡ fails error.ZeroDivisor ∷ [] }
{}

/// What it does with a row that it has locked: it changes the version that it has seen; where
/// another is current it looks at that again, and passes the row unless its WHERE is true of it; and
/// it is this version of which SET makes the new values.
pub fn worked_second_looks()
    ensures seen { choices (statement.Change raise_ten) (five_rows ∷ []) four_transactions
        (changing (second 2) first_seen (locked (written_by 1))) ≡ does (entry.Updated 0 1) ∷ [] }
    ensures values { values_to_hold raise_all (five_rows ∷ [])
        (changing (second 2) first_seen (locked (written_by 1))) ≡ Ok (Some (row_t 1 11)) }
    ensures passed { choices (statement.Change raise_ten) (changed_rows ∷ []) four_transactions
        (changing (second 2) first_seen (locked (written_by 4))) ≡ does entry.Passed ∷ [] }
    ensures again { choices (statement.Change raise_all) (changed_rows ∷ []) four_transactions
        (changing (second 2) first_seen (locked (written_by 4))) ≡ does (entry.Updated 0 1) ∷ [] }
    ensures newer { values_to_hold raise_all (changed_rows ∷ [])
        (changing (second 2) first_seen (locked (written_by 4))) ≡ Ok (Some (row_t 1 13)) }
    ensures delete { choices (statement.Change delete_all) (changed_rows ∷ []) four_transactions
        (changing (second 2) first_seen (locked (written_by 4))) ≡ does (entry.Deleted 0 1) ∷ [] }
{}

/// What statements are answered: the tag counts the rows returned or inserted, an INSERT returns no
/// row, and integers are shown as bigints.
pub fn worked_replies()
    ensures select { reply_of (statement.Select select_all) with_selected
        ≡ record { tag = tag.Select 2; rows = replied_rows } }
    ensures insert { reply_of (statement.Insert insert_swapped) with_both
        ≡ record { tag = tag.Insert 2; rows = [] } }
    ensures proposed { proposed_values (with_taken_up 2 found) ≡ row_t 2 20 }
{}

/// What the end of a transaction leaves: of its table a rollback takes its versions away, a commit
/// leaves them, and both give up what it has placed; among the transactions it takes the next
/// place, or is rolled back.
pub fn worked_ends()
    ensures committed { with_end small_world 1 2 commit
        ≡ record small_world {
          tables = record five_rows { placed = [] } ∷ empty_table ∷ [];
          transactions = with_second (Committed 3) 3;
        } }
    ensures undone { with_end small_world 1 2 rollback
        ≡ record small_world {
          tables = without_second ∷ empty_table ∷ [];
          transactions = with_second RolledBack 2;
        } }
    ensures other { table_after_end 4 commit five_rows ≡ five_rows }
    ensures stored { row_inserted five_rows (second 3) 5 ≡ five_stored }
{}

/// A row that is placed and then inserted is a row added, where nothing was placed under its
/// number.
pub fn placed_row_is_added()
    ensures { (table : TableView) (me : Me) (values : List Value) →
        placed_at table.placed (next_row table) ≡ None →
        row_inserted (row_placed table me values) me (next_row table)
        ≡ row_added table me values }
{}
