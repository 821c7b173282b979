ghost use Rattle.std.specs.Prelude.{◌≡◌};
ghost use Rattle.pgrc.specs.Commands.{command_of as command_of_words};

/// What the program is asked to do.
#[derive(Clone, Copy, Debug, PartialEq, Eq)]
pub enum Command {
    /// Runs a stepped script, and writes the replies and the tables.
    Replay,
    /// Runs a stepped script, and writes each entry of its journal.
    Trace,
}

/// The command that the words are, if they are one.
pub fn command_of(words: &[String]) -> Option<Command>
    ensures { result ≡ command_of_words words.now }
{
    match words {
        [word] if word.as_str() == "replay" => Some(Command::Replay),
        [word] if word.as_str() == "trace" => Some(Command::Trace),
        _ => None,
    }
}
