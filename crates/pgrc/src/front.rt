ghost use Rattle.std.specs.Prelude.{◌≡◌, ◌≤◌};
ghost use Rattle.pgrc.specs.Answers.{IsAnswer, IsEmpty, outside};
ghost use Rattle.pgrc.specs.Prepared.{IsWritten, fault_text, status_at};
ghost use Rattle.pgrc.specs.Statuses.{IsTold, status_text};

use crate::messages::tell;
use crate::prepare::{Fault, Run, prepare};
use crate::status::{Report, Status};
use pg_lists::Items;
use pg_model::Script;
use pg_outside::{Gate, Sink, Source, write_all};
use std::alloc::Global;
use std::sync::Wait;
use std::thread::Threads;

/// Carries out a command.
///
/// `words` are those behind the program's name. What a command prints goes to `sink`, all of it
/// made before the first write; a line to `errors` says why nothing or not all of it was written.
pub fn top<R: Threads + Wait + Sync, S: Source, K: Sink, E: Sink, G: Gate + Sync>(
    _rt: &R,
    alloc: Global,
    words: &[String],
    source: &mut S,
    sink: &mut K,
    errors: &mut E,
    _gate: &G,
) -> Report
    ensures { IsAnswer words.now
        (outside source.old (S.left source.old) (S.faults source.old)
        sink.old (K.taken sink.old) (K.faults sink.old)
        (E.taken errors.old) (E.faults errors.old))
        (outside source.new (S.left source.new) (S.faults source.new)
        sink.new (K.taken sink.new) (K.faults sink.new)
        (E.taken errors.new) (E.faults errors.new))
        result }
{
    replay_top(alloc, words, source, sink, errors)
}

/// Carries out a command on one thread.
///
/// `words` are those behind the program's name. What a command prints goes to `sink`, all of it
/// made before the first write; a line to `errors` says why nothing or not all of it was written.
pub fn replay_top<S: Source, K: Sink, E: Sink>(
    alloc: Global,
    words: &[String],
    source: &mut S,
    sink: &mut K,
    errors: &mut E,
) -> Report
    ensures { IsAnswer words.now
        (outside source.old (S.left source.old) (S.faults source.old)
        sink.old (K.taken sink.old) (K.faults sink.old)
        (E.taken errors.old) (E.faults errors.old))
        (outside source.new (S.left source.new) (S.faults source.new)
        sink.new (K.taken sink.new) (K.faults sink.new)
        (E.taken errors.new) (E.faults errors.new))
        result }
{
    match prepare(alloc, words, source) {
        Ok(run) => deliver(run, sink, errors),
        Err(fault) => turn_away(alloc, fault, errors),
    }
}

/// Writes the text of a run.
fn deliver<K: Sink, E: Sink>(run: Run, sink: &mut K, errors: &mut E) -> Report
    ensures script { result.script ≡ run.script }
    ensures journal { result.journal ≡ run.journal }
    ensures written { IsWritten (K.taken sink.old) (K.taken sink.new)
        (K.faults sink.old) (K.faults sink.new) run.text result.status }
    ensures told { IsTold (E.taken errors.old) (E.taken errors.new)
        (E.faults errors.old) (E.faults errors.new) (status_text result.status) }
    ensures sink_later { K.faults sink.old ≤ K.faults sink.new }
    ensures errors_later { E.faults errors.old ≤ E.faults errors.new }
{
    let Run {
        script,
        journal,
        text,
    } = run;
    let status = match write_all(sink, text.as_slice()) {
        Ok(()) => Status::Done,
        Err(_) => {
            tell(errors, b"write failed\n");
            Status::WriteFault
        }
    };
    Report {
        status,
        script,
        journal,
    }
}

/// Says why there is no run.
fn turn_away<E: Sink>(alloc: Global, fault: Fault, errors: &mut E) -> Report
    ensures status { result.status ≡ status_at fault }
    ensures empty { IsEmpty result }
    ensures told { IsTold (E.taken errors.old) (E.taken errors.new)
        (E.faults errors.old) (E.faults errors.new) (fault_text fault) }
    ensures later { E.faults errors.old ≤ E.faults errors.new }
{
    let status = match fault {
        Fault::Usage => {
            tell(errors, b"usage: pgrc replay, trace\n");
            Status::Usage
        }
        Fault::Memory => {
            tell(errors, b"out of memory\n");
            Status::Memory
        }
        Fault::Refused(line) => {
            tell(errors, line.as_slice());
            Status::Refused
        }
        Fault::Read => {
            tell(errors, b"read failed\n");
            Status::ReadFault
        }
    };
    Report {
        status,
        script: Script::empty(alloc),
        journal: Items::new(alloc),
    }
}
