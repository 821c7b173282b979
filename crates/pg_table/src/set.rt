ghost use Rattle.std.specs.Prelude.{◌≡◌, ◌<◌, IfOk, Some, length, map, ℕ};
ghost use Rattle.std.specs.Option.{option_copied, option_copied_mut};
ghost use Rattle.pg_lists.specs.Numbered.{item_at};
ghost use Rattle.pg_table.specs.States.{OwnStandBehind, TableState as StateOfTable, empty_state, state_ended, state_undone, table_shown};

use crate::Table;
use pg_model::Catalogue;
use std::alloc::{AllocError, Global};
use std::marker::Model;

/// The tables of a script, in order of declaration.
#[derive(Drop)]
pub struct TableSet {
    tables: Vec<Table>,
}

impl Model for TableSet {
    ghost use Rattle.std.specs.Prelude.{List};
    ghost use Rattle.pg_table.specs.States.{TableState};

    ghost Value = { List TableState };

    ghost view = { λ set. set.tables.items };
}

impl TableSet {
    ghost use Rattle.pg_table.specs.Lending.{LendsTable, LendsTableIf};
    ghost use Rattle.std.specs.Borrow.{sem};

    /// The empty tables of a catalogue, or a refusal for want of memory alone.
    pub fn new(alloc: Global, catalogue: &Catalogue) -> Result<TableSet, AllocError>
        ensures { IfOk result (λ set. set ≡ map (λ shape. empty_state) catalogue.now) }
    {
        let mut tables = Vec::new(alloc);
        for _shape in catalogue.as_slice() {
            tables.push(Table::new(alloc))?;
        }
        Ok(TableSet { tables })
    }

    /// How many tables there are.
    pub fn len(&self) -> usize
        ensures { result ≡ length self.now }
    {
        self.tables.len()
    }

    /// The tables, in order.
    pub fn as_slice(&self) -> &[Table]
        ensures { result.now ≡ self.now }
    {
        &self.tables
    }

    /// The table of a number, counted from 0, or `None` past the end.
    pub fn get(&self, number: usize) -> Option<&Table>
        ensures { option_copied result ≡ item_at self.now number }
    {
        self.tables.get(number)
    }

    /// The table of a number, counted from 0, to be changed where it stands.
    pub fn item_mut(&mut self, number: usize) -> &mut Table
        requires { number < length self.old }
        ensures* writes_back { sem 𝓛 (LendsTable self.entry number result) }
        ensures value { item_at self.old number ≡ Some result.now }
    {
        &mut self.tables[number]
    }

    /// The table of a number, counted from 0, to be changed where it stands, or `None` past the
    /// end.
    pub fn get_mut(&mut self, number: usize) -> Option<&mut Table>
        ensures* writes_back { sem 𝓛 (LendsTableIf self.entry number result) }
        ensures value { option_copied_mut result ≡ item_at self.old number }
    {
        self.tables.get_mut(number)
    }

    /// A transaction is rolled back in every table. This takes no memory, and costs what the
    /// transaction wrote and locked, and a look at each table.
    pub fn undo_all(&mut self, xact: u32)
        requires { (number : ℕ) (state : StateOfTable) → item_at self.old number ≡ Some state →
            OwnStandBehind xact (table_shown state) }
        ensures { self.new ≡ map (state_undone xact) self.old }
    {
        undo_each(&mut self.tables, xact);
    }

    /// A transaction has committed, in every table. This takes no memory, and costs what the
    /// transaction wrote and locked, and a look at each table.
    pub fn ended_all(&mut self, xact: u32)
        ensures { self.new ≡ map (state_ended xact) self.old }
    {
        end_each(&mut self.tables, xact);
    }
}

/// A transaction is rolled back in each of the tables.
#[tactic(auto, using(crate::proofs::Lists::each_changed))]
fn undo_each(tables: &mut [Table], xact: u32)
    requires { (number : ℕ) (state : StateOfTable) → item_at tables.old number ≡ Some state →
        OwnStandBehind xact (table_shown state) }
    ensures { tables.new ≡ map (state_undone xact) tables.old }
{
    for table in tables.iter_mut() {
        table.undo(xact);
    }
}

/// A transaction has committed, in each of the tables.
#[tactic(auto, using(crate::proofs::Lists::each_changed))]
fn end_each(tables: &mut [Table], xact: u32)
    ensures { tables.new ≡ map (state_ended xact) tables.old }
{
    for table in tables.iter_mut() {
        table.ended(xact);
    }
}
