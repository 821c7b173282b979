// What is made of the words and the input, before anything is written.
ghost use Rattle.std.specs.Prelude.{◌≡◌, ◌≤◌, ◌+◌, Err, IfOk};
ghost use Rattle.pg_model.specs.declared.script.Mode.TheVariants.{Stepped};
ghost use Rattle.pg_outside.specs.Causes.{Rose};
ghost use Rattle.pg_outside.specs.Reads.{ReadsFront};
ghost use Rattle.pg_relation.specs.Journals.{world_after};
ghost use Rattle.pg_relation.specs.Printed.{tables_of};
ghost use Rattle.pg_script.specs.Reading.{most_bytes};
ghost use Rattle.pgrc.specs.Commands.{text_of as text_of_run};
ghost use Rattle.pgrc.specs.Prepared.{IsInput, IsOutcome, IsPrepared, IsReading, IsRefusal};

use crate::command::{Command, command_of};
use crate::refusals::refusal_line;
use pg_board::BoardFault;
use pg_lists::Items;
use pg_model::{Finished, Journal, Mode, Script};
use pg_outside::{ReadAll, Source, read_all};
use pg_print::{journal_text, print};
use pg_script::{Reason, ScriptFault, read_script};
use pg_stepped::replay;
use std::alloc::{AllocError, Global};

/// The most bytes of a script.
const MOST_BYTES: usize = 1048576;

/// A run of a script, and the text that is written of it.
#[derive(Drop)]
pub struct Run {
    pub script: Script,
    pub journal: Journal,
    pub text: Items<u8>,
}

/// Why there is no run.
#[derive(Debug, Drop)]
pub enum Fault {
    /// The words are no command.
    Usage,
    /// Memory was refused.
    Memory,
    /// The input is not run; the line that says where and why.
    Refused(Items<u8>),
    /// The source has failed.
    Read,
}

/// Reads the input of a command, and makes the run and the text of it.
#[tactic(auto, using(crate::proofs::Fronts::reads_nothing, crate::proofs::Outcomes::outcome_prepared))]
pub fn prepare<S: Source>(alloc: Global, words: &[String], source: &mut S) -> Result<Run, Fault>
    ensures prepared { IsPrepared words.now (S.left source.old) (S.left source.new) result }
    ensures unread { result ≡ Err Fault.Usage → source.new ≡ source.old }
    ensures short { ReadsFront (S.left source.old) (S.left source.new) (most_bytes + 1) }
    ensures failed { result ≡ Err Fault.Read → Rose (S.faults source.old) (S.faults source.new) }
    ensures later { S.faults source.old ≤ S.faults source.new }
{
    let Some(command) = command_of(words) else {
        return Err(Fault::Usage);
    };
    match read_source(alloc, source) {
        Ok(script) => run_script(alloc, command, script),
        Err(fault) => Err(fault),
    }
}

/// Refuses a line for a reason.
fn refuse(alloc: Global, line: u32, reason: &Reason) -> Fault
    ensures { IsRefusal line reason.now result }
{
    match refusal_line(alloc, line, reason) {
        Ok(text) => Fault::Refused(text),
        Err(_) => Fault::Memory,
    }
}

/// Reads the script that a source gives.
fn read_source<S: Source>(alloc: Global, source: &mut S) -> Result<Script, Fault>
    ensures input { IsInput (S.left source.old) (S.left source.new) result }
    ensures short { ReadsFront (S.left source.old) (S.left source.new) (most_bytes + 1) }
    ensures failed { result ≡ Err Fault.Read → Rose (S.faults source.old) (S.faults source.new) }
    ensures later { S.faults source.old ≤ S.faults source.new }
{
    match read_all(alloc, source, MOST_BYTES) {
        ReadAll::All(bytes) | ReadAll::TooLong(bytes) => read_stepped(alloc, bytes.as_slice()),
        ReadAll::Failed => Err(Fault::Read),
        ReadAll::Memory => Err(Fault::Memory),
    }
}

/// Reads bytes as a stepped script.
#[tactic(auto, using(crate::proofs::TurnedAway::refused_by_reader))]
fn read_stepped(alloc: Global, bytes: &[u8]) -> Result<Script, Fault>
    ensures { IsReading bytes.now result }
{
    match read_script(alloc, bytes) {
        Ok(script) => match script.mode {
            Mode::Stepped => Ok(script),
            Mode::Free => Err(refuse(alloc, 1, &Reason::Free)),
        },
        Err(ScriptFault::Refused { line, reason }) => Err(refuse(alloc, line, &reason)),
        Err(ScriptFault::Memory) => Err(Fault::Memory),
    }
}

/// Runs a script, and makes the text that a command writes of it.
fn run_script(alloc: Global, command: Command, script: Script) -> Result<Run, Fault>
    requires { script.mode ≡ Stepped }
    ensures { IsOutcome command script result }
{
    match replay(alloc, &script) {
        Ok(finished) => match text_of(alloc, command, &script, &finished) {
            Ok(text) => Ok(Run {
                script,
                journal: finished.journal,
                text,
            }),
            Err(_) => Err(Fault::Memory),
        },
        Err(BoardFault::Setup { line, error }) => {
            Err(refuse(alloc, line, &Reason::Error(error)))
        }
        Err(BoardFault::Memory) => Err(Fault::Memory),
    }
}

/// What a command writes of a run.
fn text_of(
    alloc: Global,
    command: Command,
    script: &Script,
    finished: &Finished,
) -> Result<Items<u8>, AllocError>
    requires { finished.now.tables ≡ tables_of (world_after script.now finished.now.journal) }
    ensures { IfOk result (λ text. text ≡ text_of_run command script.now finished.now.journal) }
{
    match command {
        Command::Replay => print(alloc, script, finished),
        Command::Trace => journal_text(alloc, script, finished.journal.as_slice()),
    }
}
