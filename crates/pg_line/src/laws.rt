//! What is proved of the definitions alone.
ghost use Rattle.pg_line.specs.Laws.{EachFormIsWithin, EachLineHasAtMostOneForm};

/// A line has at most one form.
pub fn each_line_has_at_most_one_form()
    ensures { EachLineHasAtMostOneForm }
{}

/// What a line says keeps the limits of the language: its session has a name, and its statement is
/// one that can be written.
pub fn each_form_is_within()
    ensures { EachFormIsWithin }
{}
