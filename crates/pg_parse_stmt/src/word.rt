//! What one token says, where a rule goes by it.
ghost use Rattle.std.specs.Prelude.{◌≡◌, MatchOption};
ghost use Rattle.pg_grammar.specs.Answers.{Lacks, Reads};
ghost use Rattle.pg_grammar.specs.Languages.{Took, one};
ghost use Rattle.pg_grammar.specs.Parts.{seen};
ghost use Rattle.pg_parse_stmt.specs.Behind.{any};

use crate::front::Read;
use crate::tree::{Direction, LockStrength, NullsPlace};
use pg_grammar::{Fault, Part};
use pg_lexer::{Keyword, Sign, Token};
use pg_values::Kind;

/// A value that one token stands for.
pub(crate) trait OneToken: Copy {
    ghost use Rattle.std.specs.Prelude.{◌≡◌, Option};
    ghost use Rattle.pg_grammar.proofs.Words.{Spelled};
    ghost use Rattle.pg_grammar.specs.Languages.{one};
    ghost use Rattle.pg_lexer.specs.declared.token.Token.{Token};

    ghost value_of: { Token → Option Self };

    fn of(token: &Token) -> Option<Self>
        ensures { result ≡ value_of token.now };

    /// Some token has one.
    ghost spelled: { Spelled (one value_of) };
}

/// The value of the first token, and the tokens behind it.
pub(crate) fn accept<T: OneToken>(tokens: &[Token]) -> Option<(T, &[Token])>
    ensures { MatchOption result (Lacks T.value_of tokens.now) (λ p. Took T.value_of tokens.now p.0 p.1.now) }
{
    let (first, rest) = tokens.split_first()?;
    let value = T::of(first)?;
    Some((value, rest))
}

/// The value of the first token, which has to have one.
#[tactic(auto, using(crate::proofs::Exits::reads_took, crate::proofs::Exits::reads_lacked))]
pub(crate) fn expect<T: OneToken + Drop>(tokens: &[Token]) -> Read<'_, T>
    ensures { Reads (one T.value_of) any tokens.now (seen result) }
{
    match accept::<T>(tokens) {
        Some((value, rest)) => Ok(Part { value, rest }),
        None => Err(Fault::Syntax(tokens.len())),
    }
}

/// What a statement begins with.
#[derive(Clone, Copy, Debug, PartialEq, Eq)]
pub(crate) enum Lead {
    Begin,
    /// `COMMIT` or `END`
    Commit,
    /// `ROLLBACK` or `ABORT`
    Rollback,
    Select,
    Insert,
    Update,
    Delete,
    Merge,
    Create,
}

impl OneToken for Lead {
    ghost use Rattle.pg_parse_stmt.specs.Spellings.{spelled_lead};
    ghost use Rattle.pg_parse_stmt.specs.Words.{lead_of};

    ghost value_of = { lead_of };

    #[tactic(auto, unfolding(crate::specs::Words::lead_of))]
    fn of(token: &Token) -> Option<Lead> {
        match token {
            Token::Keyword(Keyword::Begin) => Some(Lead::Begin),
            Token::Keyword(Keyword::Commit) => Some(Lead::Commit),
            Token::Keyword(Keyword::End) => Some(Lead::Commit),
            Token::Keyword(Keyword::Rollback) => Some(Lead::Rollback),
            Token::Keyword(Keyword::Abort) => Some(Lead::Rollback),
            Token::Keyword(Keyword::Select) => Some(Lead::Select),
            Token::Keyword(Keyword::Insert) => Some(Lead::Insert),
            Token::Keyword(Keyword::Update) => Some(Lead::Update),
            Token::Keyword(Keyword::Delete) => Some(Lead::Delete),
            Token::Keyword(Keyword::Merge) => Some(Lead::Merge),
            Token::Keyword(Keyword::Create) => Some(Lead::Create),
            _ => None,
        }
    }

    ghost spelled = { spelled_lead };
}

/// What stands between two sources.
#[derive(Clone, Copy, Debug, PartialEq, Eq)]
pub(crate) enum Link {
    Comma,
    Inner,
    Join,
}

impl OneToken for Link {
    ghost use Rattle.pg_parse_stmt.specs.Spellings.{spelled_link};
    ghost use Rattle.pg_parse_stmt.specs.Words.{link_of};

    ghost value_of = { link_of };

    #[tactic(auto, unfolding(crate::specs::Words::link_of))]
    fn of(token: &Token) -> Option<Link> {
        match token {
            Token::Sign(Sign::Comma) => Some(Link::Comma),
            Token::Keyword(Keyword::Inner) => Some(Link::Inner),
            Token::Keyword(Keyword::Join) => Some(Link::Join),
            _ => None,
        }
    }

    ghost spelled = { spelled_link };
}

/// What a change of a row begins with.
#[derive(Clone, Copy, Debug, PartialEq, Eq)]
pub(crate) enum ChangeWord {
    Update,
    Delete,
    Do,
}

impl OneToken for ChangeWord {
    ghost use Rattle.pg_parse_stmt.specs.Spellings.{spelled_change};
    ghost use Rattle.pg_parse_stmt.specs.Words.{change_of};

    ghost value_of = { change_of };

    #[tactic(auto, unfolding(crate::specs::Words::change_of))]
    fn of(token: &Token) -> Option<ChangeWord> {
        match token {
            Token::Keyword(Keyword::Update) => Some(ChangeWord::Update),
            Token::Keyword(Keyword::Delete) => Some(ChangeWord::Delete),
            Token::Keyword(Keyword::Do) => Some(ChangeWord::Do),
            _ => None,
        }
    }

    ghost spelled = { spelled_change };
}

/// What a constraint begins with, behind its name.
#[derive(Clone, Copy, Debug, PartialEq, Eq)]
pub(crate) enum ConstraintWord {
    Primary,
    Unique,
    Check,
}

impl OneToken for ConstraintWord {
    ghost use Rattle.pg_parse_stmt.specs.Spellings.{spelled_constraint};
    ghost use Rattle.pg_parse_stmt.specs.Words.{constraint_of};

    ghost value_of = { constraint_of };

    #[tactic(auto, unfolding(crate::specs::Words::constraint_of))]
    fn of(token: &Token) -> Option<ConstraintWord> {
        match token {
            Token::Keyword(Keyword::Primary) => Some(ConstraintWord::Primary),
            Token::Keyword(Keyword::Unique) => Some(ConstraintWord::Unique),
            Token::Keyword(Keyword::Check) => Some(ConstraintWord::Check),
            _ => None,
        }
    }

    ghost spelled = { spelled_constraint };
}

/// What stands first of what is behind a column's kind.
#[derive(Clone, Copy, Debug, PartialEq, Eq)]
pub(crate) enum RuleWord {
    Not,
    Default,
    /// `CONSTRAINT`
    Named,
    Unnamed(ConstraintWord),
}

impl OneToken for RuleWord {
    ghost use Rattle.pg_parse_stmt.specs.Spellings.{spelled_rule};
    ghost use Rattle.pg_parse_stmt.specs.Words.{rule_of};

    ghost value_of = { rule_of };

    #[tactic(auto, unfolding(crate::specs::Words::rule_of))]
    fn of(token: &Token) -> Option<RuleWord> {
        match token {
            Token::Keyword(Keyword::Not) => Some(RuleWord::Not),
            Token::Keyword(Keyword::Default) => Some(RuleWord::Default),
            Token::Keyword(Keyword::Constraint) => Some(RuleWord::Named),
            Token::Keyword(Keyword::Primary) => Some(RuleWord::Unnamed(ConstraintWord::Primary)),
            Token::Keyword(Keyword::Unique) => Some(RuleWord::Unnamed(ConstraintWord::Unique)),
            Token::Keyword(Keyword::Check) => Some(RuleWord::Unnamed(ConstraintWord::Check)),
            _ => None,
        }
    }

    ghost spelled = { spelled_rule };
}

impl OneToken for Kind {
    ghost use Rattle.pg_parse_stmt.specs.Spellings.{spelled_kind};
    ghost use Rattle.pg_parse_stmt.specs.Words.{kind_of};

    ghost value_of = { kind_of };

    #[tactic(auto, unfolding(crate::specs::Words::kind_of))]
    fn of(token: &Token) -> Option<Kind> {
        match token {
            Token::Keyword(Keyword::Integer) => Some(Kind::Int),
            Token::Keyword(Keyword::Int) => Some(Kind::Int),
            Token::Keyword(Keyword::Bigint) => Some(Kind::Big),
            Token::Keyword(Keyword::Text) => Some(Kind::Text),
            Token::Keyword(Keyword::Boolean) => Some(Kind::Bool),
            Token::Keyword(Keyword::Bool) => Some(Kind::Bool),
            _ => None,
        }
    }

    ghost spelled = { spelled_kind };
}

impl OneToken for Direction {
    ghost use Rattle.pg_parse_stmt.specs.Spellings.{spelled_direction};
    ghost use Rattle.pg_parse_stmt.specs.Words.{direction_of};

    ghost value_of = { direction_of };

    #[tactic(auto, unfolding(crate::specs::Words::direction_of))]
    fn of(token: &Token) -> Option<Direction> {
        match token {
            Token::Keyword(Keyword::Asc) => Some(Direction::Ascending),
            Token::Keyword(Keyword::Desc) => Some(Direction::Descending),
            _ => None,
        }
    }

    ghost spelled = { spelled_direction };
}

impl OneToken for NullsPlace {
    ghost use Rattle.pg_parse_stmt.specs.Spellings.{spelled_nulls};
    ghost use Rattle.pg_parse_stmt.specs.Words.{nulls_of};

    ghost value_of = { nulls_of };

    #[tactic(auto, unfolding(crate::specs::Words::nulls_of))]
    fn of(token: &Token) -> Option<NullsPlace> {
        match token {
            Token::Keyword(Keyword::First) => Some(NullsPlace::First),
            Token::Keyword(Keyword::Last) => Some(NullsPlace::Last),
            _ => None,
        }
    }

    ghost spelled = { spelled_nulls };
}

impl OneToken for LockStrength {
    ghost use Rattle.pg_parse_stmt.specs.Spellings.{spelled_strength};
    ghost use Rattle.pg_parse_stmt.specs.Words.{strength_of};

    ghost value_of = { strength_of };

    #[tactic(auto, unfolding(crate::specs::Words::strength_of))]
    fn of(token: &Token) -> Option<LockStrength> {
        match token {
            Token::Keyword(Keyword::Key) => Some(LockStrength::KeyShare),
            Token::Keyword(Keyword::Share) => Some(LockStrength::Share),
            Token::Keyword(Keyword::No) => Some(LockStrength::NoKeyUpdate),
            Token::Keyword(Keyword::Update) => Some(LockStrength::Update),
            _ => None,
        }
    }

    ghost spelled = { spelled_strength };
}
