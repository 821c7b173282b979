ghost use Rattle.std.specs.Prelude.{◌≡◌, ◌<◌, ◌≤◌, ◌-◌, ◌^◌, IfOk, OnErr, OnOk, Some, length, true};
ghost use Rattle.pg_lists.specs.Numbered.{with_changed_nth_item};
ghost use Rattle.pg_xacts.specs.Snapshots.{WasTakenOf, snapshot_of};
ghost use Rattle.pg_xacts.specs.Transactions.{beginner_of, is_among_commits, is_running, next_number, no_transactions, status_of, transaction_begun, transaction_committed, transaction_rolled_back};

use crate::{Snapshot, Transaction, XStatus, numbers};
use std::alloc::{AllocError, Global};
use std::marker::Model;

/// The transactions that were begun, and how each stands.
///
/// They are numbered from 1 in the order in which they were begun; transaction 0 is setup, which
/// has committed before all others.
#[derive(Drop)]
pub struct Xacts {
    alloc: Global,
    /// In order of their numbers.
    list: Vec<Transaction>,
    /// The numbers of those that run, ascending.
    running: Vec<u32>,
    /// How many have committed.
    commits: u32,
}

impl Model for Xacts {
    ghost use Rattle.pg_xacts.specs.Kept.{AreKept};
    ghost use Rattle.pg_xacts.specs.Transactions.{Transactions};

    ghost Value = { Transactions };

    ghost view = { λ x. record { list = x.list.items; commits = x.commits } };

    ghost invariant = { λ x.
        AreKept (record { list = x.list.items; commits = x.commits }) x.running.items };
}

impl Xacts {
    /// No transaction.
    pub fn new(alloc: Global) -> Xacts
        ensures { result ≡ no_transactions }
    {
        Xacts {
            alloc,
            list: Vec::new(alloc),
            running: Vec::new(alloc),
            commits: 0,
        }
    }

    /// How many transactions were begun.
    pub fn count(&self) -> u32
        ensures { result ≡ length self.now.list }
    {
        self.list.len() as u32
    }

    /// How many transactions have committed.
    pub fn commits(&self) -> u32
        ensures { result ≡ self.now.commits }
    {
        self.commits
    }

    /// Begins a transaction of a session, and answers its number; or refuses for want of memory
    /// alone and leaves the transactions as they were.
    pub fn begin(&mut self, session: u32) -> Result<u32, AllocError>
        requires { length self.old.list < 2 ^ 32 - 1 }
        ensures begun { OnOk result (self.new ≡ transaction_begun self.old session) }
        ensures number { IfOk result (λ number. number ≡ next_number self.old) }
        ensures err { OnErr result (self.new ≡ self.old) }
    {
        self.list.reserve(1)?;
        self.running.reserve(1)?;
        let number = self.list.len() as u32 + 1;
        self.list.push_reserved(Transaction {
            session,
            status: XStatus::Running,
        });
        self.running.push_reserved(number);
        Ok(number)
    }

    /// The session that began a transaction.
    pub fn session_of(&self, xact: u32) -> u32
        requires first { 0 < xact }
        requires begun { xact ≤ length self.now.list }
        ensures { beginner_of self.now xact ≡ Some result }
    {
        self.list[xact as usize - 1].session
    }

    /// The transaction takes the next place in the commit order. This takes no memory.
    pub fn commit(&mut self, xact: u32)
        requires { is_running self.old xact ≡ true }
        ensures { self.new ≡ transaction_committed self.old xact }
    {
        self.commits += 1;
        set_status(&mut self.list, xact, XStatus::Committed(self.commits));
        numbers::take_out(&mut self.running, xact);
    }

    /// The transaction is rolled back. This takes no memory.
    pub fn rollback(&mut self, xact: u32)
        requires { is_running self.old xact ≡ true }
        ensures { self.new ≡ transaction_rolled_back self.old xact }
    {
        set_status(&mut self.list, xact, XStatus::RolledBack);
        numbers::take_out(&mut self.running, xact);
    }

    /// How a transaction stands.
    pub fn status(&self, xact: u32) -> XStatus
        requires { xact ≤ length self.now.list }
        ensures { status_of self.now xact ≡ Some result }
    {
        match xact.checked_sub(1) {
            None => XStatus::Committed(0),
            Some(before) => self.list[before as usize].status,
        }
    }

    /// A snapshot that sees the commits so far, or refuses for want of memory alone.
    pub fn snapshot(&self) -> Result<Snapshot, AllocError>
        ensures taken { IfOk result (λ snapshot. snapshot ≡ snapshot_of self.now) }
        ensures known { IfOk result (WasTakenOf self.now) }
    {
        let next = self.list.len() as u64 + 1;
        Snapshot::new(self.alloc, self.commits, &self.running, next)
    }

    /// Whether a transaction is among the commits that a snapshot of these transactions sees.
    pub fn sees(&self, snapshot: &Snapshot, xact: u32) -> bool
        requires begun { xact ≤ length self.now.list }
        requires taken { WasTakenOf self.now snapshot.now }
        ensures { result ≡ is_among_commits self.now snapshot.now.commits xact }
    {
        match self.status(xact) {
            XStatus::Committed(_) => snapshot.had_ended(xact),
            XStatus::Running | XStatus::RolledBack => false,
        }
    }
}

/// The transaction of that number, where there is one, stands as given.
fn set_status(list: &mut Vec<Transaction>, xact: u32, status: XStatus)
    ensures { list.new.items ≡
        with_changed_nth_item (λ transaction. record transaction { status = status })
        list.old.items xact }
{
    let Some(before) = xact.checked_sub(1) else {
        return;
    };
    if let Some(transaction) = list.get_mut(before as usize) {
        transaction.status = status;
    }
}
