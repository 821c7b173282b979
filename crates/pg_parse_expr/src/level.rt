ghost use Rattle.std.specs.Prelude.{◌≡◌};
ghost use Rattle.pg_parse_expr.specs.Levels.{op_at};
ghost use Rattle.pg_parse_expr.specs.Operators.{compare_op};

use pg_exprs::{Arithmetic, BinaryOp, Comparison};
use pg_lexer::{Keyword, Sign, Token};

/// The levels of binary operators that group to the left, loosest first.
#[derive(Clone, Copy)]
pub(crate) enum Level {
    Or,
    And,
    Concat,
    Sum,
    Product,
}

#[tactic(auto, unfolding(crate::specs::Operators::or_op, crate::specs::Operators::and_op, crate::specs::Operators::concat_op, crate::specs::Operators::sum_op, crate::specs::Operators::product_op))]
impl Level {
    /// The level's operator that a token is, if it is one.
    pub(crate) fn op(self, token: &Token) -> Option<BinaryOp>
        ensures { result ≡ op_at self token.now }
    {
        match (self, token) {
            (Level::Or, Token::Keyword(Keyword::Or)) => Some(BinaryOp::Or),
            (Level::And, Token::Keyword(Keyword::And)) => Some(BinaryOp::And),
            (Level::Concat, Token::Sign(Sign::Concat)) => Some(BinaryOp::Concat),
            (Level::Sum, Token::Sign(Sign::Plus)) => Some(BinaryOp::Compute(Arithmetic::Add)),
            (Level::Sum, Token::Sign(Sign::Minus)) => Some(BinaryOp::Compute(Arithmetic::Subtract)),
            (Level::Product, Token::Sign(Sign::Star)) => {
                Some(BinaryOp::Compute(Arithmetic::Multiply))
            }
            (Level::Product, Token::Sign(Sign::Slash)) => {
                Some(BinaryOp::Compute(Arithmetic::Divide))
            }
            (Level::Product, Token::Sign(Sign::Percent)) => {
                Some(BinaryOp::Compute(Arithmetic::Remainder))
            }
            _ => None,
        }
    }
}

/// The comparison that a token is, if it is one.
#[tactic(auto, unfolding(crate::specs::Operators::compare_op))]
pub(crate) fn comparison_op(token: &Token) -> Option<BinaryOp>
    ensures { result ≡ compare_op token.now }
{
    let comparison = match token {
        Token::Sign(Sign::Equal) => Comparison::Equal,
        Token::Sign(Sign::NotEqual) => Comparison::NotEqual,
        Token::Sign(Sign::Less) => Comparison::Less,
        Token::Sign(Sign::LessOrEqual) => Comparison::LessOrEqual,
        Token::Sign(Sign::Greater) => Comparison::Greater,
        Token::Sign(Sign::GreaterOrEqual) => Comparison::GreaterOrEqual,
        _ => return None,
    };
    Some(BinaryOp::Compare(comparison))
}
