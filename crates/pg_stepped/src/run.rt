ghost use Rattle.std.specs.Prelude.{◌≡◌, ◌<◌, ℕ, Err, false, IfOk, None, length, OnOk};
ghost use Rattle.pg_board.specs.Board.{HasMoved, MovedBy, first_board, has_ended, waits_for_lines};
ghost use Rattle.pg_board.specs.declared.fault.BoardFault.TheVariants.{Setup};
ghost use Rattle.pg_model.specs.declared.error.SqlError.{SqlError};
ghost use Rattle.pg_model.specs.declared.script.Mode.TheVariants.{Stepped};
ghost use Rattle.pg_waits.specs.Slots.{waits_for};
ghost use Rattle.pg_stepped.specs.Runs.{IsRun};
ghost use Rattle.pg_stepped.specs.Setups.{Raises, RaisesNone};

use pg_board::{Board, BoardFault, Step};
use pg_model::{Finished, Script};
use std::alloc::{AllocError, Global};

/// Runs a stepped script in the stepped order until each session has ended.
///
/// It refuses for want of memory, and otherwise exactly where an INSERT of setup raises an error:
/// the first that does, with its line.
pub fn replay(alloc: Global, script: &Script) -> Result<Finished, BoardFault>
    requires stepped { script.now.mode ≡ Stepped }
    ensures calm { IfOk result (λ finished. RaisesNone script.now) }
    ensures raised { (line : ℕ) (error : SqlError) → result ≡ Err (Setup line error)
        → Raises script.now line error }
    ensures run { IfOk result (IsRun script.now) }
{
    let board = match Board::new(alloc, script) {
        Ok(board) => board,
        Err(fault) => return Err(fault),
    };
    match run_to_end(board) {
        Ok(finished) => Ok(finished),
        Err(_) => Err(BoardFault::Memory),
    }
}

/// Makes one entry after the other, from the first on, until each session has ended.
#[tactic(auto, using(crate::proofs::Replaying::on_way_first, crate::proofs::Replaying::on_way_more, crate::proofs::Replaying::turns_fall, crate::proofs::Replaying::on_way_end))]
fn run_to_end(mut board: Board<'_>) -> Result<Finished, AllocError>
    requires { board ≡ first_board board.script }
    ensures { IfOk result (IsRun board.entry.script) }
{
    while let Some(session) = board.next() {
        move_next(&mut board, session)?;
    }
    match board.finish() {
        Ok(finished) => Ok(finished),
        Err((_, error)) => Err(error),
    }
}

/// Lets the session that moves next go on until it has made its move.
#[tactic(auto, using(crate::proofs::Going::has_moved))]
fn move_next(board: &mut Board<'_>, session: u32) -> Result<(), AllocError>
    requires within { session < length board.old.script.sessions }
    requires served { waits_for_lines board.old session ≡ false }
    requires unended { has_ended board.old session ≡ false }
    requires free { waits_for board.old.world.waits session ≡ None }
    ensures { OnOk result (HasMoved session board.old board.new) }
{
    let before = board.journal().len();
    loop {
        step_once(board, session)?;
        if board.journal().len() > before {
            return Ok(());
        }
    }
}

/// Lets the session make its next move, or come nearer to it.
fn step_once(board: &mut Board<'_>, session: u32) -> Result<(), AllocError>
    requires within { session < length board.old.script.sessions }
    requires served { waits_for_lines board.old session ≡ false }
    requires unended { has_ended board.old session ≡ false }
    requires free { waits_for board.old.world.waits session ≡ None }
    ensures { OnOk result (MovedBy session board.old board.new) }
{
    match board.step(session) {
        Step::Moved => Ok(()),
        Step::Memory => Err(AllocError),
        Step::Idle | Step::Closed => unreachable!(),
        Step::Waiting(_) => unreachable!(),
    }
}
