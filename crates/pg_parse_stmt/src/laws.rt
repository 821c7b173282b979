//! What is proved of the grammar alone.
ghost use Rattle.pg_parse_stmt.specs.Laws.{AtMostOneStatement, EachStatementIsSpelled, EachStatementIsWithin, NoWordIsAnAliasWithoutAs, ReservedWordsAreNoNames, WordsThatMayBeNames};

/// A list of tokens is at most one statement.
pub fn at_most_one_statement()
    ensures { AtMostOneStatement }
{}

/// Every statement within the limits has a spelling: at most 64 nodes on a path and 8 sources, and literals and names
/// that can be written.
pub fn each_statement_is_spelled()
    ensures { EachStatementIsSpelled }
{}

/// A statement that is read is within these limits.
pub fn each_statement_is_within()
    ensures { EachStatementIsWithin }
{}

/// A reserved word is a name nowhere, but for the words that may be names.
pub fn reserved_words_are_no_names()
    ensures { ReservedWordsAreNoNames }
{}

/// The words that may be names are names wherever a name may stand.
pub fn words_that_may_be_names()
    ensures { WordsThatMayBeNames }
{}

/// But none of them is an alias without AS.
pub fn no_word_is_an_alias_without_as()
    ensures { NoWordIsAnAliasWithoutAs }
{}
