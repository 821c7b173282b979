//! The reading of a script.
ghost use Rattle.std.specs.Prelude.{◌≡◌, ◌≤◌, length};
ghost use Rattle.std.specs.Option.{option_copied};
ghost use Rattle.pg_model.specs.Scripts.{IsScript};
ghost use Rattle.pg_script.specs.Bytes.{bytes_behind, lines_behind};
ghost use Rattle.pg_script.specs.Drafts.{HasParts, IsBodyAnswer, IsFormAnswer, IsLineAnswer, IsLinesAnswer};
ghost use Rattle.pg_script.specs.Reading.{IsRead};

use crate::add::add;
use crate::draft::Draft;
use crate::fault::{Reason, ScriptFault};
use crate::heading::read_heading;
use crate::lines::next_line;
use crate::reasons::early_reason;
use pg_line::{LineForm, read_line};
use pg_model::{Mode, Script};
use std::alloc::Global;

/// The most bytes of a script.
const MOST_BYTES: usize = 1048576;

/// Adds a line of that form to a draft, or refuses it.
#[tactic(auto, using(crate::proofs::Firsts::few_sessions, crate::proofs::Answering::refused_early, crate::proofs::Answering::refused_late, crate::proofs::Answering::added))]
fn take_form(alloc: Global, draft: &mut Draft, form: &LineForm) -> Result<(), ScriptFault>
    requires { draft.old.number ≤ 1048577 }
    ensures { IsFormAnswer draft.old form.now draft.new result }
{
    let number = draft.number;
    if let Some(reason) = early_reason(draft, form) {
        return Err(ScriptFault::Refused {
            line: number,
            reason,
        });
    }
    match add(alloc, draft, form)? {
        Some(error) => Err(ScriptFault::Refused {
            line: number,
            reason: Reason::Error(error),
        }),
        None => Ok(()),
    }
}

/// Reads a line behind those of a draft.
#[tactic(auto, using(crate::proofs::Answering::answered))]
fn read_one(alloc: Global, draft: &mut Draft, line: &[u8]) -> Result<(), ScriptFault>
    requires short { length line.now ≤ 1048576 }
    requires room { draft.old.number ≤ 1048577 }
    ensures { IsLineAnswer draft.old line.now draft.new result }
{
    let form = read_line(alloc, 1, line)?;
    let answer = take_form(alloc, draft, &form);
    drop(form);
    answer
}

/// Reads the lines behind the first.
#[tactic(auto, using(crate::proofs::Answering::lines_read))]
fn read_lines(alloc: Global, draft: &mut Draft, text: Option<&[u8]>) -> Result<(), ScriptFault>
    requires within { bytes_behind (option_copied text) ≤ 1048576 }
    requires first { draft.old.number ≡ 2 }
    ensures { IsLinesAnswer draft.old (lines_behind (option_copied text.entry)) draft.new result }
{
    let mut rest = text;
    while let Some(bytes) = rest {
        let (line, behind) = next_line(bytes);
        read_one(alloc, draft, line)?;
        rest = behind;
    }
    Ok(())
}

/// The script of a draft.
fn into_script(draft: Draft) -> Script
    requires { IsScript draft.sessions draft.catalogue draft.setup draft.lines }
    ensures { HasParts draft result }
{
    Script {
        version: 1,
        mode: draft.mode,
        sessions: draft.sessions,
        catalogue: draft.catalogue,
        setup: draft.setup,
        lines: draft.lines,
    }
}

/// Reads the lines behind the header of a script in that mode.
#[tactic(auto, using(crate::proofs::Fitting::draft_fits, crate::proofs::Answering::body_taken, crate::proofs::Answering::body_stopped))]
fn read_body(alloc: Global, mode: Mode, text: Option<&[u8]>) -> Result<Script, ScriptFault>
    requires { bytes_behind (option_copied text) ≤ 1048576 }
    ensures { IsBodyAnswer mode (lines_behind (option_copied text.entry)) result }
{
    let mut draft = Draft::new(alloc, mode);
    match read_lines(alloc, &mut draft, text) {
        Ok(()) => Ok(into_script(draft)),
        Err(fault) => {
            drop(draft);
            Err(fault)
        }
    }
}

/// Reads the bytes of a script: the script that they say, or the first line that is refused and the
/// first reason.
#[tactic(auto, using(crate::proofs::Answering::body_read, crate::proofs::Says::headless))]
pub fn read_script(alloc: Global, bytes: &[u8]) -> Result<Script, ScriptFault>
    ensures { IsRead bytes.now result }
{
    if bytes.len() > MOST_BYTES {
        return Err(ScriptFault::Refused {
            line: 0,
            reason: Reason::Size,
        });
    }
    let (first, rest) = next_line(bytes);
    match read_heading(first) {
        Some(mode) => read_body(alloc, mode, rest),
        None => Err(ScriptFault::Refused {
            line: 1,
            reason: Reason::Header,
        }),
    }
}
