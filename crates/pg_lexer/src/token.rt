ghost use Rattle.std.specs.Prelude.{◌≡◌, ◌++◌, ◌∷◌, [], map, IfOk, OnErr, OnOk};
ghost use Rattle.pg_lexer.specs.Spans.{span_of};

use crate::keyword::Keyword;
use crate::sign::Sign;
use crate::text::{NameText, QuotedText};
use std::alloc::{AllocError, Global};
use std::marker::Model;

/// A token of a line.
#[derive(Debug, Drop, PartialEq, Eq)]
pub enum Token {
    /// A reserved word.
    Keyword(Keyword),
    /// An operator or a mark of punctuation.
    Sign(Sign),
    /// A word that is not reserved.
    Name(NameText),
    /// An integer literal, at most 9223372036854775807.
    Integer(u64),
    /// A text literal, by its value.
    Quoted(QuotedText),
}

/// A token with its span in the line; places count bytes from 1.
#[derive(Debug, Drop, PartialEq, Eq)]
pub struct Spanned {
    pub token: Token,
    /// The place of the token's first byte.
    pub start: u32,
    /// The place behind its last byte.
    pub end: u32,
}

/// What is bad about a line, with its place; places count bytes from 1.
#[derive(Clone, Copy, Debug, PartialEq, Eq)]
pub enum BadPlace {
    /// The byte belongs to no token.
    Byte(u32),
    /// The literal that begins here is not ended or too large.
    Literal(u32),
    /// The name that begins here is longer than 63 bytes.
    Name(u32),
}

/// Where a token stands in a line; places count bytes from 1.
#[derive(Clone, Copy, Debug, PartialEq, Eq)]
pub struct Span {
    /// The place of the token's first byte.
    pub start: u32,
    /// The place behind its last byte.
    pub end: u32,
}

/// Tokens in the order of their places, with their spans.
#[derive(Debug, Drop)]
pub struct Tokens {
    tokens: Vec<Token>,
    spans: Vec<Span>,
}

impl Model for Tokens {
    ghost use Rattle.std.specs.Prelude.{◌≡◌, List, length};
    ghost use Rattle.pg_lexer.specs.declared.token.Spanned.{Spanned};
    ghost use Rattle.pg_lexer.specs.Spans.{tokens_with_spans};

    ghost Value = { List Spanned };

    ghost view = { λ t. tokens_with_spans t.tokens.items t.spans.items };

    ghost invariant = { λ t. length t.tokens.items ≡ length t.spans.items };
}

impl Tokens {
    /// No tokens, with room for so many.
    pub(crate) fn with_room(alloc: Global, room: usize) -> Result<Tokens, AllocError>
        ensures { IfOk result (λ tokens. tokens ≡ []) }
    {
        let tokens = Vec::with_capacity(alloc, room)?;
        let spans = Vec::with_capacity(alloc, room)?;
        Ok(Tokens { tokens, spans })
    }

    #[tactic(auto, using(crate::proofs::Spans::one_more))]
    pub(crate) fn push(&mut self, token: Spanned) -> Result<(), AllocError>
        ensures ok { OnOk result (self.new ≡ self.old ++ token ∷ []) }
        ensures err { OnErr result (self.new ≡ self.old) }
    {
        self.tokens.reserve(1)?;
        self.spans.reserve(1)?;
        let Spanned { token, start, end } = token;
        self.tokens.push_reserved(token);
        self.spans.push_reserved(Span { start, end });
        Ok(())
    }

    /// The tokens alone.
    #[tactic(auto, using(crate::proofs::Spans::tokens_of))]
    pub fn tokens(&self) -> &[Token]
        ensures { result.now ≡ map (λ s. s.token) self.now }
    {
        self.tokens.as_slice()
    }

    /// Their spans alone.
    #[tactic(auto, using(crate::proofs::Spans::spans_of))]
    pub fn spans(&self) -> &[Span]
        ensures { result.now ≡ map span_of self.now }
    {
        self.spans.as_slice()
    }
}

/// What stands at the front of some bytes: a token and its length in bytes, or what is bad.
#[derive(Drop)]
pub(crate) enum Found {
    Token(Token, usize),
    Bad(BadPlace),
}
