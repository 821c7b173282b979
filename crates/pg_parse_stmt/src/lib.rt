//! Statements from tokens: the tree, or the first bad place.
#![tactic(auto)]

mod create;
mod front;
mod insert;
mod laws;
mod list;
mod merge;
mod place;
mod select;
mod source;
mod statement;
mod tree;
mod update;
mod word;

pub use laws::{
    at_most_one_statement, each_statement_is_spelled, each_statement_is_within,
    no_word_is_an_alias_without_as, reserved_words_are_no_names, words_that_may_be_names,
};
pub use place::parse_stmt;
pub use statement::read_statement;
pub use tree::{
    Addition, Assignment, Change, ColumnConstraint, ColumnPart, ColumnRule, Conflict,
    ConflictTarget, CreateIndex, CreateTable, Delete, Direction, Element, Insert, Item, Joined,
    LockStrength, LockWait, Locking, Merge, Names, NullsPlace, OrderKey, QuerySource, Rows, Select,
    Source, Sources, StmtTree, Subselect, TableConstraint, TablePart, TableRef, Tuple, Update,
    Upsert, ValuesSource, When,
};
