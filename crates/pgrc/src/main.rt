//! The program: it replays a script of database sessions and prints their replies and the tables,
//! or each step of the run.
#![tactic(auto)]

ghost use Rattle.std.specs.Prelude.{◌≡◌};
ghost use Rattle.pgrc.specs.Statuses.{exit_status as exit_status_of};

mod command;
mod front;
mod messages;
mod prepare;
mod refusals;
mod status;

use crate::front::top;
use crate::messages::tell;
use crate::status::Status;
use pg_outside::{NoGate, StderrSink, StdinSource, StdoutSink};
use std::io::ErrorKind;
use std::process::ExitCode;
use std::rt::Env;
use std::{env, io};

fn main(rt: HostRuntime) -> ExitCode {
    let words = match words_behind_name(&rt) {
        Ok(words) => words,
        Err(error) if error.kind() == ErrorKind::OutOfMemory => {
            tell(&mut StderrSink::new(rt.stderr()), b"out of memory\n");
            return ExitCode::from(exit_status(Status::Memory));
        }
        // Words that the system does not tell as text are no command.
        Err(_) => Vec::new(rt.alloc()),
    };
    let report = top(
        &rt,
        rt.alloc(),
        words.as_slice(),
        &mut StdinSource::new(rt.stdin()),
        &mut StdoutSink::new(rt.stdout()),
        &mut StderrSink::new(rt.stderr()),
        &NoGate,
    );
    ExitCode::from(exit_status(report.status))
}

/// The words behind the program's name.
fn words_behind_name(rt: &(impl Env + AllocGlobal)) -> io::Result<Vec<String>> {
    let mut words = Vec::new(rt.alloc());
    for word in env::args(rt)?.skip(1) {
        words.push(word)?;
    }
    Ok(words)
}

/// The exit status of the program.
fn exit_status(status: Status) -> u8
    ensures { result ≡ exit_status_of status }
{
    match status {
        Status::Done => 0,
        Status::Usage => 2,
        Status::Memory => 3,
        Status::Refused => 4,
        Status::ReadFault => 5,
        Status::WriteFault => 6,
    }
}

#[cfg(test)]
mod tests;
