//! Tables into which rows are only inserted: each row has one version at most, so that each
//! transaction can be rolled back.

ghost use Rattle.pg_table_tests.specs.Single.{AllAreSingle, AreSingle};

use pg_model::Catalogue;
use pg_table::{Table, TableSet};
use pg_values::Values;
use pg_xacts::Me;
use std::alloc::{AllocError, Global};

/// Such a table.
#[derive(Drop)]
pub struct Inserts {
    table: Table,
    ghost single: { AreSingle table },
}

impl Inserts {
    /// A table without rows.
    pub fn new(alloc: Global) -> Inserts {
        Inserts {
            table: Table::new(alloc),
        }
    }

    pub fn table(&self) -> &Table {
        &self.table
    }

    pub fn place(&mut self, me: Me, values: Values) -> Result<u64, AllocError> {
        let row = self.table.place(me, values)?;
        Ok(row)
    }

    pub fn add(&mut self, me: Me, values: Values) -> Result<(), AllocError> {
        self.table.add(me, values)?;
        Ok(())
    }

    pub fn settle(&mut self, row: u64) {
        self.table.settle(row);
    }

    pub fn undo(&mut self, xact: u32) {
        self.table.undo(xact);
    }

    pub fn ended(&mut self, xact: u32) {
        self.table.ended(xact);
    }
}

/// A set of such tables.
#[derive(Drop)]
pub struct InsertSet {
    tables: TableSet,
    ghost single: { AllAreSingle tables },
}

impl InsertSet {
    /// The empty tables of a catalogue.
    pub fn new(alloc: Global, catalogue: &Catalogue) -> Result<InsertSet, AllocError> {
        let tables = TableSet::new(alloc, catalogue)?;
        Ok(InsertSet { tables })
    }

    pub fn tables(&self) -> &TableSet {
        &self.tables
    }

    pub fn place(&mut self, number: usize, me: Me, values: Values) -> Result<(), AllocError> {
        place_in(&mut self.tables, number, me, values)
    }

    pub fn add(&mut self, number: usize, me: Me, values: Values) -> Result<(), AllocError> {
        add_in(&mut self.tables, number, me, values)
    }

    pub fn settle(&mut self, number: usize, row: u64) {
        settle_in(&mut self.tables, number, row);
    }

    pub fn undo_all(&mut self, xact: u32) {
        self.tables.undo_all(xact);
    }

    pub fn ended_all(&mut self, xact: u32) {
        self.tables.ended_all(xact);
    }
}

fn place_in(tables: &mut TableSet, number: usize, me: Me, values: Values) -> Result<(), AllocError>
    requires { AllAreSingle tables.old }
    ensures { AllAreSingle tables.new }
{
    if let Some(table) = tables.get_mut(number) {
        table.place(me, values)?;
    }
    Ok(())
}

fn add_in(tables: &mut TableSet, number: usize, me: Me, values: Values) -> Result<(), AllocError>
    requires { AllAreSingle tables.old }
    ensures { AllAreSingle tables.new }
{
    if let Some(table) = tables.get_mut(number) {
        table.add(me, values)?;
    }
    Ok(())
}

fn settle_in(tables: &mut TableSet, number: usize, row: u64)
    requires { AllAreSingle tables.old }
    ensures { AllAreSingle tables.new }
{
    if let Some(table) = tables.get_mut(number) {
        table.settle(row);
    }
}
