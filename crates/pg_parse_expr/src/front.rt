//! What stands first.
ghost use Rattle.std.specs.Prelude.{◌≡◌, ◌∷◌, MatchOption, IfOk, IsTrue, ◌↔◌};
ghost use Rattle.pg_grammar.specs.Answers.{Lacks, Misses};
ghost use Rattle.pg_grammar.specs.Languages.{Took};
ghost use Rattle.pg_lexer.specs.declared.token.Token.TheVariants.{Keyword as word_token, Sign as sign_token};
ghost use Rattle.pg_parse_expr.specs.Operators.{value_of, literal_of, name_of, number_value, compare_op};
ghost use Rattle.pg_parse_expr.specs.Levels.{op_at};

use crate::level::{Level, comparison_op};
use crate::tree::ExprTree;
use pg_exprs::BinaryOp;
use pg_grammar::Part;
use pg_lexer::{Keyword, NameText, QuotedText, Sign, Token};
use pg_values::{Text, Value};
use std::alloc::{AllocError, Global};

fn is_word(token: &Token, word: Keyword) -> bool
    ensures { IsTrue result ↔ (token.now ≡ word_token word) }
{
    match token {
        Token::Keyword(keyword) => *keyword == word,
        _ => false,
    }
}

fn is_sign(token: &Token, sign: Sign) -> bool
    ensures { IsTrue result ↔ (token.now ≡ sign_token sign) }
{
    match token {
        Token::Sign(other) => *other == sign,
        _ => false,
    }
}

/// The tokens behind a reserved word, if it stands first.
pub fn accept_word(tokens: &[Token], word: Keyword) -> Option<&[Token]>
    ensures { MatchOption result (Misses (word_token word) tokens.now) (λ rest. tokens.now ≡ word_token word ∷ rest.now) }
{
    let (first, rest) = tokens.split_first()?;
    if is_word(first, word) {
        Some(rest)
    } else {
        None
    }
}

/// The tokens behind a sign, if it stands first.
pub fn accept_sign(tokens: &[Token], sign: Sign) -> Option<&[Token]>
    ensures { MatchOption result (Misses (sign_token sign) tokens.now) (λ rest. tokens.now ≡ sign_token sign ∷ rest.now) }
{
    let (first, rest) = tokens.split_first()?;
    if is_sign(first, sign) {
        Some(rest)
    } else {
        None
    }
}

/// The operator of a level that stands first, and the tokens behind it.
pub(crate) fn operator<'a>(level: Level, tokens: &'a [Token]) -> Option<(BinaryOp, &'a [Token])>
    ensures { MatchOption result (Lacks (op_at level) tokens.now) (λ p. Took (op_at level) tokens.now p.0 p.1.now) }
{
    let (first, rest) = tokens.split_first()?;
    let op = level.op(first)?;
    Some((op, rest))
}

/// The comparison that stands first, and the tokens behind it.
pub(crate) fn comparison_sign(tokens: &[Token]) -> Option<(BinaryOp, &[Token])>
    ensures { MatchOption result (Lacks compare_op tokens.now) (λ p. Took compare_op tokens.now p.0 p.1.now) }
{
    let (first, rest) = tokens.split_first()?;
    let op = comparison_op(first)?;
    Some((op, rest))
}

/// The value of an integer literal.
fn number_value(number: u64) -> Option<Value>
    ensures { result ≡ number_value number }
{
    if number <= 2147483647 {
        Some(Value::Int(number as i32))
    } else if number <= 9223372036854775807 {
        Some(Value::Big(number as i64))
    } else {
        None
    }
}

/// The value of a token that is a literal: a number, a text, TRUE, FALSE or NULL. Refuses for
/// want of memory alone.
#[tactic(auto, unfolding(crate::specs::Operators::value_of))]
pub fn value_of(alloc: Global, token: &Token) -> Result<Option<Value>, AllocError>
    ensures { IfOk result (λ value. value ≡ value_of token.now) }
{
    match token {
        Token::Integer(number) => Ok(number_value(*number)),
        Token::Quoted(text) => Ok(Some(Value::Text(text_of(alloc, text)?))),
        Token::Keyword(Keyword::True) => Ok(Some(Value::Bool(true))),
        Token::Keyword(Keyword::False) => Ok(Some(Value::Bool(false))),
        Token::Keyword(Keyword::Null) => Ok(Some(Value::Null)),
        _ => Ok(None),
    }
}

/// The literal that a token is, if it is one.
#[tactic(auto, unfolding(crate::specs::Operators::literal_of))]
fn literal_of(alloc: Global, token: &Token) -> Result<Option<ExprTree>, AllocError>
    ensures { IfOk result (λ tree. tree ≡ literal_of token.now) }
{
    match value_of(alloc, token)? {
        Some(value) => Ok(Some(ExprTree::literal(value))),
        None => Ok(None),
    }
}

fn text_of(alloc: Global, text: &QuotedText) -> Result<Text, AllocError>
    ensures { IfOk result (λ value. value ≡ text.now) }
{
    Text::from_slice(alloc, text.as_bytes())
}

/// The name that a token is, if it may be one; some reserved words may. Refuses for want of memory
/// alone.
#[tactic(auto, unfolding(crate::specs::Operators::name_of))]
pub fn name_of(alloc: Global, token: &Token) -> Result<Option<NameText>, AllocError>
    ensures { IfOk result (λ name. name ≡ name_of token.now) }
{
    match token {
        Token::Name(name) => Ok(Some(name.copy(alloc)?)),
        Token::Keyword(word) if word.may_be_name() => Ok(Some(NameText::from_slice(
            alloc,
            word.spelling(),
        )?)),
        _ => Ok(None),
    }
}

/// The literal that stands first, and the tokens behind it.
pub(crate) fn literal<'a>(
    alloc: Global,
    tokens: &'a [Token],
) -> Result<Option<Part<'a, Token, ExprTree>>, AllocError>
    ensures { IfOk result (λ o. MatchOption o (Lacks literal_of tokens.now) (λ p. Took literal_of tokens.now p.value p.rest.now)) }
{
    let (first, rest) = match tokens.split_first() {
        Some(pair) => pair,
        None => return Ok(None),
    };
    match literal_of(alloc, first)? {
        Some(value) => Ok(Some(Part { value, rest })),
        None => Ok(None),
    }
}

/// The name that stands first, and the tokens behind it.
pub(crate) fn name<'a>(
    alloc: Global,
    tokens: &'a [Token],
) -> Result<Option<Part<'a, Token, NameText>>, AllocError>
    ensures { IfOk result (λ o. MatchOption o (Lacks name_of tokens.now) (λ p. Took name_of tokens.now p.value p.rest.now)) }
{
    let (first, rest) = match tokens.split_first() {
        Some(pair) => pair,
        None => return Ok(None),
    };
    match name_of(alloc, first)? {
        Some(value) => Ok(Some(Part { value, rest })),
        None => Ok(None),
    }
}
