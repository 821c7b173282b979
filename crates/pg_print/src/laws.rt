ghost use Rattle.pg_print.specs.Laws.{OneEntryForEachLine};

/// Two entries of a script's journal that have one line are one entry.
///
/// Their sessions, those waited for and their tables are the script's, their numbers have 64 bits,
/// the rows of their replies hold no 32-bit integer, as a reply keeps an integer as a bigint, and
/// what their errors name are names.
pub fn one_entry_for_each_line()
    ensures { OneEntryForEachLine }
{}
