ghost use Rattle.pg_lexer.specs.Laws.{AtMostOneReading, EachLineIsRead, KeywordsAreTheirSpellings, NoMoreTokensThanBytes};

/// A line has at most one reading.
pub fn at_most_one_reading()
    ensures { AtMostOneReading }
{}

/// Each line has a reading.
pub fn each_line_is_read()
    ensures { EachLineIsRead }
{}

/// A reserved word is found by its spelling, and by nothing else.
pub fn keywords_are_their_spellings()
    ensures { KeywordsAreTheirSpellings }
{}

/// A line has no more tokens than bytes.
pub fn no_more_tokens_than_bytes()
    ensures { NoMoreTokensThanBytes }
{}
