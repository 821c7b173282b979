//! What is proved of the reading alone.
ghost use Rattle.pg_script.specs.Laws.{BytesAreRefusedOnce, BytesSayOneScript, NoScriptIsRefused};

/// Bytes say at most one script.
pub fn bytes_say_one_script()
    ensures { BytesSayOneScript }
{}

/// Bytes that say a script are not refused.
pub fn no_script_is_refused()
    ensures { NoScriptIsRefused }
{}

/// Bytes are refused at one line, for one reason.
pub fn bytes_are_refused_once()
    ensures { BytesAreRefusedOnce }
{}
