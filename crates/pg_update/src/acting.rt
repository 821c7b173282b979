ghost use Rattle.std.specs.Prelude.{◌≡◌, ◌≢◌, ◌∷◌, [], Err, None, OnErr, OnOk, Some, false, is_ok, map, true};
ghost use Rattle.pg_lists.specs.Numbered.{item_at, with_changed_item};
ghost use Rattle.pg_model.specs.declared.journal.EntryAct.TheVariants as entry;
ghost use Rattle.pg_relation.specs.Running.{running_acted, running_passed};
ghost use Rattle.pg_relation.specs.Weight.{under_way_count};
ghost use Rattle.pg_returning.specs.Outcomes.{outcome};
ghost use Rattle.pg_table.specs.States.{IsTable, TableState, row_staged_in, table_shown};
ghost use Rattle.pg_update.specs.Looks.{look_at as look_of};
ghost use Rattle.pg_update.specs.Steps.{CanChange, HoldsItsRow, IsAnswer, IsStep, IsUndrafted, change_choices_in, target_in, target_shown};
ghost use Rattle.pg_world.specs.Changes.{change_strength, locking_choices, partners_in as partners_of, table_at};
ghost use Rattle.pg_world.specs.Choosing.{does};
ghost use Rattle.pg_world.specs.declared.session.Stage.TheVariants.{Found as found, Locked as locked};
ghost use Rattle.pg_xacts.specs.Transactions.{Transactions};

use crate::Change;
use crate::holding::{
    current_version, erase_row, hold_row, name_of_current, stage_values, write_row,
};
use crate::look::{Look, look_at, values_as_seen};
use crate::partners::{partners_in, strength_for, target_row};
use pg_model::EntryAct;
use pg_plans::{Act, PlanFault};
use pg_table::{Hold, TableSet};
use pg_values::Values;
use pg_world::{Stage, VersionName};
use pg_xacts::Xacts;
use std::alloc::AllocError;

impl Change {
    /// Locks the row of the candidate taken up last, where what that would hold by the version seen
    /// has no error.
    pub(crate) fn lock_row(
        &mut self,
        change: &pg_model::Change,
        tables: &mut TableSet,
        xacts: &Xacts,
    ) -> Act
        requires planned { self.old.reading ≡ None }
        requires known { is_ok self.old.running.candidates ≡ true }
        requires stage { self.old.running.stage ≡ found }
        ensures choice { IsAnswer
            (change_choices_in change.now tables.old xacts.now self.old.running) self.old result }
        ensures step { IsStep change.now tables.old xacts.now self.old result self.new
            tables.new }
    {
        let partners = partners_in(&self.running);
        match values_as_seen(self.alloc, change, partners) {
            Ok(_) => self.hold(change, tables, xacts),
            Err(PlanFault::Error(error)) => Act::Failed(error),
            Err(PlanFault::Memory) => Act::Memory,
        }
    }

    /// Locks that row, unless it is passed or another transaction is waited for.
    fn hold(&mut self, change: &pg_model::Change, tables: &mut TableSet, xacts: &Xacts) -> Act
        requires planned { self.old.reading ≡ None }
        requires stage { self.old.running.stage ≡ found }
        ensures choice { IsAnswer (locking_choices change.now.target.table
            (table_at (map table_shown tables.old) change.now.target.table) xacts.now
            self.old.running.me (change_strength change.now.action) (target_in self.old.running))
            self.old result }
        ensures step { IsStep change.now tables.old xacts.now self.old result self.new
            tables.new }
    {
        let me = self.running.me;
        let table = change.target.table;
        let row = target_row(partners_in(&self.running));
        let strength = strength_for(&change.action);
        let name = name_of_current(tables, xacts, &me, table, row);
        match hold_row(tables, xacts, &me, table, row, strength) {
            Ok(Hold::Own) | Ok(Hold::Gone) => self.pass(),
            Ok(Hold::Blocked(on)) => Act::Blocked(on),
            Ok(Hold::Held) => {
                self.running.stage = Stage::Locked(name);
                self.staged = false;
                Act::Entry(EntryAct::Locked {
                    table,
                    row,
                    strength,
                })
            }
            Err(_) => Act::Memory,
        }
    }

    /// Passes the candidate.
    fn pass(&mut self) -> Act
        ensures act { result ≡ Act.Entry EntryAct.Passed }
        ensures machine { self.new
            ≡ record self.old { running = running_passed self.old.running } }
    {
        self.running.stage = Stage::Between;
        Act::Entry(EntryAct::Passed)
    }

    /// Looks at the row that is locked: its candidate is passed, or the row is erased, or what it is
    /// to hold is staged.
    pub(crate) fn change_row(
        &mut self,
        change: &pg_model::Change,
        name: VersionName,
        tables: &mut TableSet,
        xacts: &Xacts,
    ) -> Act
        requires planned { self.old.reading ≡ None }
        requires known { is_ok self.old.running.candidates ≡ true }
        requires stage { self.old.running.stage ≡ locked name }
        requires unstaged { self.old.staged ≡ false }
        requires holds { HoldsItsRow change.now tables.old xacts.now self.old.running name }
        requires free { IsUndrafted change.now tables.old self.old.running }
        ensures choice { IsAnswer
            (change_choices_in change.now tables.old xacts.now self.old.running) self.old result }
        ensures step { IsStep change.now tables.old xacts.now self.old result self.new
            tables.new }
    {
        match self.look(change, name, tables, xacts) {
            Ok(Look::Passed) => self.pass(),
            Ok(Look::ToHold(None)) => self.erase(change, tables),
            Ok(Look::ToHold(Some(values))) => match self.stage(change, tables, values) {
                Ok(()) => Act::Quiet,
                Err(_) => Act::Memory,
            },
            Err(PlanFault::Error(error)) => Act::Failed(error),
            Err(PlanFault::Memory) => Act::Memory,
        }
    }

    /// The look at the row that is locked.
    fn look(
        &self,
        change: &pg_model::Change,
        name: VersionName,
        tables: &TableSet,
        xacts: &Xacts,
    ) -> Result<Look, PlanFault>
        requires { HoldsItsRow change.now tables.now xacts.now self.now.running name }
        ensures { result ≢ Err PlanFault.Memory →
            outcome result ≡ look_of change.now
            (target_shown change.now tables.now self.now.running) name
            (partners_of self.now.running) }
    {
        let partners = partners_in(&self.running);
        let row = target_row(partners);
        match current_version(tables, xacts, &self.running.me, change.target.table, row) {
            Some(version) => look_at(self.alloc, change, name, version, partners),
            None => unreachable!(),
        }
    }

    /// The row gets a newest version that says that it is gone.
    fn erase(&mut self, change: &pg_model::Change, tables: &mut TableSet) -> Act
        requires planned { self.old.reading ≡ None }
        requires under_way { under_way_count self.old.running.stage ≡ 1 }
        requires free { CanChange tables.old change.now.target.table
            (target_in self.old.running) }
        ensures choice { IsAnswer
            (does (entry.Deleted change.now.target.table (target_in self.old.running)) ∷ [])
            self.old result }
        ensures step { (transactions : Transactions) →
            IsStep change.now tables.old transactions self.old result self.new tables.new }
    {
        let row = target_row(partners_in(&self.running));
        let table = change.target.table;
        match erase_row(tables, self.running.me, table, row) {
            Ok(()) => {
                self.count_act();
                Act::Entry(EntryAct::Deleted { table, row })
            }
            Err(_) => Act::Memory,
        }
    }

    /// Stages what the row is to hold; or refuses for want of memory alone and leaves the machine and
    /// the tables as they were.
    fn stage(
        &mut self,
        change: &pg_model::Change,
        tables: &mut TableSet,
        values: Values,
    ) -> Result<(), AllocError>
        requires { CanChange tables.old change.now.target.table (target_in self.old.running) }
        ensures machine { OnOk result (self.new ≡ record self.old { staged = true }) }
        ensures tables { OnOk result (tables.new
            ≡ with_changed_item
            (λ state. row_staged_in state self.old.running.me (target_in self.old.running) values)
            tables.old change.now.target.table) }
        ensures kept { (state : TableState) →
            item_at tables.old change.now.target.table ≡ Some state → IsTable state }
        ensures err { OnErr result ((self.new ≡ self.old) × (tables.new ≡ tables.old)) }
    {
        let row = target_row(partners_in(&self.running));
        stage_values(tables, self.running.me, change.target.table, row, values)?;
        self.staged = true;
        Ok(())
    }

    /// Writes what is staged for the row.
    pub(crate) fn write(&mut self, change: &pg_model::Change, tables: &mut TableSet) -> Act
        requires planned { self.old.reading ≡ None }
        requires under_way { under_way_count self.old.running.stage ≡ 1 }
        requires staged { self.old.staged ≡ true }
        ensures choice { IsAnswer
            (does (entry.Updated change.now.target.table (target_in self.old.running)) ∷ [])
            self.old result }
        ensures step { (transactions : Transactions) →
            IsStep change.now tables.old transactions self.old result self.new tables.new }
    {
        let row = target_row(partners_in(&self.running));
        let table = change.target.table;
        write_row(tables, table, row);
        self.staged = false;
        self.count_act();
        Act::Entry(EntryAct::Updated { table, row })
    }

    /// The candidate has had its act, which the tag counts.
    fn count_act(&mut self)
        requires { under_way_count self.old.running.stage ≡ 1 }
        ensures { self.new ≡ record self.old { running = running_acted self.old.running } }
    {
        prove!(self.running.acts < self.running.candidate);
        self.running.acts += 1;
        self.running.stage = Stage::Between;
    }
}
