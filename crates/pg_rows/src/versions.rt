ghost use Rattle.std.specs.Prelude.{◌≡◌, ◌++◌, [], IfOk, OnOk};
ghost use Rattle.pg_heap.specs.Current.{is_live};
ghost use Rattle.pg_heap.specs.Seen.{is_seen};
ghost use Rattle.pg_rows.specs.Scans.{found_items, is_number};
ghost use Rattle.pg_rows.specs.Stores.{is_current_for, is_placed, is_settled};
ghost use Rattle.pg_xacts.specs.Snapshots.{WasTakenOf};
ghost use Rattle.pg_xacts.specs.Transactions.{is_among_commits, is_committed, is_running};

use crate::SeenVersion;
use pg_heap::{State, Version};
use pg_lists::{Items, TryCopy};
use pg_xacts::{Me, Snapshot, XStatus, Xacts};
use std::alloc::{AllocError, Global};

/// Whether a transaction runs.
fn runs(xacts: &Xacts, xact: u32) -> bool
    ensures { result ≡ is_running xacts.now xact }
{
    if xact > xacts.count() {
        return false;
    }
    matches!(xacts.status(xact), XStatus::Running)
}

/// Whether a transaction is among the commits that a snapshot sees.
fn is_among(xacts: &Xacts, snapshot: &Snapshot, xact: u32) -> bool
    requires { WasTakenOf xacts.now snapshot.now }
    ensures { result ≡ is_among_commits xacts.now snapshot.now.commits xact }
{
    if xact > xacts.count() {
        return false;
    }
    xacts.sees(snapshot, xact)
}

/// Whether no other running transaction than `xact` wrote a version.
pub fn is_current(xacts: &Xacts, xact: u32, version: &Version) -> bool
    ensures { result ≡ is_current_for xacts.now xact version.now }
{
    version.writer == xact || !runs(xacts, version.writer)
}

/// Whether a statement of `me` sees a version.
pub fn sees(xacts: &Xacts, snapshot: &Snapshot, me: &Me, version: &Version) -> bool
    requires { WasTakenOf xacts.now snapshot.now }
    ensures { result ≡ is_seen xacts.now snapshot.now.commits me.now version.now }
{
    if is_among(xacts, snapshot, version.writer) {
        return true;
    }
    version.writer == me.xact && version.command < me.command
}

/// Whether a transaction has committed.
fn has_committed(xacts: &Xacts, xact: u32) -> bool
    ensures { result ≡ is_committed xacts.now xact }
{
    if xact > xacts.count() {
        return false;
    }
    matches!(xacts.status(xact), XStatus::Committed(_))
}

/// Whether the writer of a version has committed.
pub fn is_live(xacts: &Xacts, version: &Version) -> bool
    ensures { result ≡ is_live xacts.now [] version.now }
{
    has_committed(xacts, version.writer)
}

/// Whether a version is one of its row.
pub fn stands(state: State) -> bool
    ensures { result ≡ is_settled state }
{
    match state {
        State::Settled => true,
        State::Placed | State::Dead => false,
    }
}

/// Whether a version waits for its row.
pub fn waits(state: State) -> bool
    ensures { result ≡ is_placed state }
{
    match state {
        State::Placed => true,
        State::Settled | State::Dead => false,
    }
}

/// Whether the number, if there is one, is that.
pub fn is_that(found: Option<u64>, number: u64) -> bool
    ensures { result ≡ is_number found number }
{
    match found {
        Some(found) => found == number,
        None => false,
    }
}

/// A copy of a version, or a refusal for want of memory alone.
pub fn copy_version(alloc: Global, version: &Version) -> Result<Version, AllocError>
    ensures { IfOk result (λ copy. copy ≡ version.now) }
{
    let values = version.values.try_copy(alloc)?;
    Ok(Version {
        values,
        writer: version.writer,
        command: version.command,
    })
}

/// Keeps what was found behind what was found before, or refuses for want of memory alone.
pub fn keep(seen: &mut Items<SeenVersion>, found: Option<SeenVersion>) -> Result<(), AllocError>
    ensures { OnOk result (seen.new ≡ seen.old ++ found_items found) }
{
    match found {
        Some(version) => seen.push(version),
        None => Ok(()),
    }
}
