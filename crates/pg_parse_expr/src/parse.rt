//! Expressions by recursive descent. A function's depth is how many nodes stand above what it reads.
ghost use Rattle.std.specs.Prelude.{◌≡◌, ◌∷◌, ◌++◌, ◌≤◌, ◌<◌, ◌+◌, suc, length, replicate, IfOk, MatchResult, MatchOption};
ghost use Rattle.pg_grammar.specs.declared.fault.Fault.TheVariants.{Memory};
ghost use Rattle.pg_grammar.specs.Answers.{Reads, Misses};
ghost use Rattle.pg_grammar.specs.Languages.{Took, more};
ghost use Rattle.pg_grammar.specs.Parts.{seen};
ghost use Rattle.pg_lexer.specs.declared.keyword.Keyword.TheVariants.{Is};
ghost use Rattle.pg_lexer.specs.declared.sign.Sign.TheVariants.{Open};
ghost use Rattle.pg_lexer.specs.declared.token.Token.TheVariants.{Keyword as word_token, Sign as sign_token};
ghost use Rattle.pg_parse_expr.specs.Behind.{behind_factor, behind_concatenation, behind_comparison, behind_predicate, behind_expr};
ghost use Rattle.pg_parse_expr.specs.Grammar.{operation, concatenation, compared as compared_rule, comparison as comparison_rule, test as test_rule, tested as tested_rule, predicate as predicate_rule, negation as negation_rule, factor as factor_rule, expr_at};
ghost use Rattle.pg_parse_expr.specs.Levels.{op_at, operand_at, before_at, behind_at, step_at, chain_at};
ghost use Rattle.pg_parse_expr.specs.Operators.{compare_op};
ghost use Rattle.pg_parse_expr.specs.Rest.{distinct_operand, behind_factor_at, behind_product_at, behind_sum_at, behind_concatenation_at, behind_comparison_at, behind_predicate_at, behind_conjunction_at, closed as closed_rule};
ghost use Rattle.pg_parse_expr.specs.Tree.{height, unary, binary};

use crate::alone::lone_literal;
use crate::front::{accept_sign, accept_word, comparison_sign, operator};
use crate::leaf::leaf;
use crate::level::Level;
use crate::tree::ExprTree;
use pg_exprs::{BinaryOp, UnaryOp};
use pg_grammar::{Fault, Part};
use pg_lexer::{Keyword, Sign, Token};
use std::alloc::Global;

/// The most nodes on a path.
const MAX_DEPTH: u32 = ExprTree::MAX_HEIGHT;

type Read<'a> = Result<Part<'a, Token, ExprTree>, Fault>;

/// An expression at the front.
#[cycle(expr)]
#[tactic(auto, using(crate::proofs::Bracketing::chain_or, crate::proofs::LoneLiterals::alone_read, crate::proofs::Leaves::literal_low, crate::proofs::Steps::reads_memory))]
pub fn expr<'a>(alloc: Global, tokens: &'a [Token], depth: u32) -> Read<'a>
    requires { depth ≤ 64 }
    ensures reads { Reads (expr_at depth) (behind_expr) tokens.now (seen result) }
    ensures low { IfOk result (λ p. depth + height p.value ≤ 64) }
{
    if depth < MAX_DEPTH {
        if let Some(whole) = lone_literal(alloc, tokens)? {
            return Ok(whole);
        }
    }
    match chain(alloc, Level::Or, tokens, depth) {
        Ok(part) => Ok(part),
        Err(fault) => Err(fault),
    }
}

/// Operands with operators of one level between them.
#[cycle(expr)]
#[tactic(auto, using(crate::proofs::Steps::chain_failed, crate::proofs::Steps::chain_read))]
fn chain<'a>(alloc: Global, level: Level, tokens: &'a [Token], depth: u32) -> Read<'a>
    requires { depth ≤ 64 }
    ensures reads { Reads (chain_at level depth) (behind_at level) tokens.now (seen result) }
    ensures low { IfOk result (λ p. depth + height p.value ≤ 64) }
{
    match operand(alloc, level, tokens, depth) {
        Ok(first) => chain_behind(alloc, level, first, depth),
        Err(fault) => Err(fault),
    }
}

/// An operand of a level.
#[cycle(expr)]
#[tactic(auto, using(crate::proofs::Bracketing::operand_or, crate::proofs::Bracketing::operand_concat, crate::proofs::Bracketing::operand_sum))]
fn operand<'a>(alloc: Global, level: Level, tokens: &'a [Token], depth: u32) -> Read<'a>
    requires { depth ≤ 64 }
    ensures reads { Reads (operand_at level depth) (before_at level) tokens.now (seen result) }
    ensures low { IfOk result (λ p. depth + height p.value ≤ 64) }
{
    match level {
        Level::Or => chain(alloc, Level::And, tokens, depth),
        Level::And => negation(alloc, tokens, depth),
        Level::Concat => chain(alloc, Level::Sum, tokens, depth),
        Level::Sum => chain(alloc, Level::Product, tokens, depth),
        Level::Product => factor(alloc, tokens, depth),
    }
}

/// The operators of a level behind a tree, with their right operands.
#[cycle(expr)]
#[tactic(auto, using(crate::proofs::Steps::chain_turn, crate::proofs::Steps::chain_turn_failed, crate::proofs::Steps::chain_end, crate::proofs::Steps::step_shorter, crate::proofs::Steps::leads_here))]
fn chain_behind<'a>(
    alloc: Global,
    level: Level,
    first: Part<'a, Token, ExprTree>,
    depth: u32,
) -> Read<'a>
    requires { depth + height first.value ≤ 64 }
    ensures reads { Reads (more (step_at level depth) first.entry.value) (behind_at level) first.entry.rest.now (seen result) }
    ensures low { IfOk result (λ p. depth + height p.value ≤ 64) }
{
    let Part {
        value: mut left,
        mut rest,
    } = first;
    while let Some((op, behind)) = operator(level, rest) {
        match operation(alloc, level, op, left, rest, behind, depth) {
            Ok(part) => {
                left = part.value;
                rest = part.rest;
            }
            Err(fault) => return Err(fault),
        }
    }
    Ok(Part { value: left, rest })
}

/// One operator of a level behind a tree, and its right operand.
#[cycle(expr)]
#[tactic(auto, using(crate::proofs::Steps::chain_steps, crate::proofs::Steps::reads_memory, crate::proofs::Weights::weights))]
fn operation<'a>(
    alloc: Global,
    level: Level,
    op: BinaryOp,
    left: ExprTree,
    tokens: &'a [Token],
    behind: &'a [Token],
    depth: u32,
) -> Read<'a>
    requires fits { depth + height left ≤ 64 }
    requires takes { Took (op_at level) tokens.now op behind.now }
    ensures reads { Reads (step_at level depth left) (before_at level) tokens.now (seen result) }
    ensures low { IfOk result (λ p. depth + height p.value ≤ 64) }
{
    if depth + left.height() >= MAX_DEPTH {
        return Err(Fault::Deep(tokens.len()));
    }
    match operand(alloc, level, behind, depth + 1) {
        Ok(right) => joined(alloc, op, left, right),
        Err(fault) => Err(fault),
    }
}

/// An operator over two trees.
fn joined<'a>(
    alloc: Global,
    op: BinaryOp,
    left: ExprTree,
    right: Part<'a, Token, ExprTree>,
) -> Read<'a>
    requires left_fits { height left < 64 }
    requires right_fits { height right.value < 64 }
    ensures { MatchResult result (λ p. (p.value ≡ binary op left right.entry.value) × (p.rest.now ≡ right.entry.rest.now)) (λ e. e ≡ Memory) }
{
    let Part { value, rest } = right;
    let value = ExprTree::binary(alloc, op, left, value)?;
    Ok(Part { value, rest })
}

/// At most one comparison.
#[cycle(expr)]
#[tactic(auto, using(crate::proofs::Bracketing::chain_concat, crate::proofs::Steps::comparison_failed, crate::proofs::Steps::comparison_read))]
fn comparison<'a>(alloc: Global, tokens: &'a [Token], depth: u32) -> Read<'a>
    requires { depth ≤ 64 }
    ensures reads { Reads (comparison_rule factor_rule depth) (behind_comparison) tokens.now (seen result) }
    ensures low { IfOk result (λ p. depth + height p.value ≤ 64) }
{
    match chain(alloc, Level::Concat, tokens, depth) {
        Ok(first) => comparison_behind(alloc, first, depth),
        Err(fault) => Err(fault),
    }
}

/// At most one comparison behind a tree.
#[cycle(expr)]
#[tactic(auto, using(crate::proofs::Steps::compared_some, crate::proofs::Steps::compared_none))]
fn comparison_behind<'a>(alloc: Global, left: Part<'a, Token, ExprTree>, depth: u32) -> Read<'a>
    requires { depth + height left.value ≤ 64 }
    ensures reads { Reads (compared_rule factor_rule depth left.entry.value) behind_comparison left.entry.rest.now (seen result) }
    ensures low { IfOk result (λ p. depth + height p.value ≤ 64) }
{
    match comparison_sign(left.rest) {
        Some((op, behind)) => compared(alloc, op, left.value, left.rest, behind, depth),
        None => Ok(left),
    }
}

/// A comparison behind a tree, and its right operand.
#[cycle(expr)]
#[tactic(auto, using(crate::proofs::Bracketing::chain_concat, crate::proofs::Steps::compare_steps, crate::proofs::Steps::reads_memory, crate::proofs::Weights::weights))]
fn compared<'a>(
    alloc: Global,
    op: BinaryOp,
    left: ExprTree,
    tokens: &'a [Token],
    behind: &'a [Token],
    depth: u32,
) -> Read<'a>
    requires fits { depth + height left ≤ 64 }
    requires takes { Took compare_op tokens.now op behind.now }
    ensures reads { Reads (operation compare_op (concatenation factor_rule) depth left) behind_concatenation tokens.now (seen result) }
    ensures low { IfOk result (λ p. depth + height p.value ≤ 64) }
{
    if depth + left.height() >= MAX_DEPTH {
        return Err(Fault::Deep(tokens.len()));
    }
    match chain(alloc, Level::Concat, behind, depth + 1) {
        Ok(right) => joined(alloc, op, left, right),
        Err(fault) => Err(fault),
    }
}

/// A comparison with its tests.
#[cycle(expr)]
#[tactic(auto, using(crate::proofs::Testing::predicate_failed, crate::proofs::Testing::predicate_read))]
fn predicate<'a>(alloc: Global, tokens: &'a [Token], depth: u32) -> Read<'a>
    requires { depth ≤ 64 }
    ensures reads { Reads (predicate_rule factor_rule depth) (behind_predicate) tokens.now (seen result) }
    ensures low { IfOk result (λ p. depth + height p.value ≤ 64) }
{
    match comparison(alloc, tokens, depth) {
        Ok(first) => tests_behind(alloc, first, depth),
        Err(fault) => Err(fault),
    }
}

/// The tests behind a tree.
#[cycle(expr)]
#[tactic(auto, using(crate::proofs::Testing::test_turns, crate::proofs::Steps::leads_here))]
fn tests_behind<'a>(alloc: Global, first: Part<'a, Token, ExprTree>, depth: u32) -> Read<'a>
    requires { depth + height first.value ≤ 64 }
    ensures reads { Reads (more (test_rule factor_rule depth) first.entry.value) behind_predicate first.entry.rest.now (seen result) }
    ensures low { IfOk result (λ p. depth + height p.value ≤ 64) }
{
    let Part {
        value: mut left,
        mut rest,
    } = first;
    while let Some(behind) = accept_word(rest, Keyword::Is) {
        match test(alloc, left, rest, behind, depth) {
            Ok(part) => {
                left = part.value;
                rest = part.rest;
            }
            Err(fault) => return Err(fault),
        }
    }
    Ok(Part { value: left, rest })
}

/// One test behind a tree; its IS is read.
#[cycle(expr)]
#[tactic(auto, using(crate::proofs::Testing::test_deep, crate::proofs::Testing::test_not, crate::proofs::Testing::test_plain))]
fn test<'a>(
    alloc: Global,
    left: ExprTree,
    tokens: &'a [Token],
    behind: &'a [Token],
    depth: u32,
) -> Read<'a>
    requires fits { depth + height left ≤ 64 }
    requires takes { tokens.now ≡ word_token Is ∷ behind.now }
    ensures reads { Reads (test_rule factor_rule depth left) behind_comparison tokens.now (seen result) }
    ensures low { IfOk result (λ p. depth + height p.value ≤ 64) }
{
    if depth + left.height() >= MAX_DEPTH {
        return Err(Fault::Deep(tokens.len()));
    }
    match accept_word(behind, Keyword::Not) {
        Some(rest) => tested(
            alloc,
            UnaryOp::IsNotNull,
            BinaryOp::IsNotDistinctFrom,
            left,
            rest,
            depth,
        ),
        None => tested(
            alloc,
            UnaryOp::IsNull,
            BinaryOp::IsDistinctFrom,
            left,
            behind,
            depth,
        ),
    }
}

/// NULL, or DISTINCT FROM and an operand.
#[cycle(expr)]
#[tactic(auto, using(crate::proofs::Testing::tested_words, crate::proofs::Steps::reads_memory))]
fn tested<'a>(
    alloc: Global,
    null: UnaryOp,
    distinct: BinaryOp,
    left: ExprTree,
    tokens: &'a [Token],
    depth: u32,
) -> Read<'a>
    requires { depth + height left < 64 }
    ensures reads { Reads (tested_rule null distinct factor_rule depth left) behind_comparison tokens.now (seen result) }
    ensures low { IfOk result (λ p. depth + height p.value ≤ 64) }
{
    if let Some(rest) = accept_word(tokens, Keyword::Null) {
        let value = ExprTree::unary(alloc, null, left)?;
        return Ok(Part { value, rest });
    }
    let behind = match accept_word(tokens, Keyword::Distinct) {
        Some(behind) => behind,
        None => return Err(Fault::Syntax(tokens.len())),
    };
    match accept_word(behind, Keyword::From) {
        Some(rest) => distinct_from(alloc, distinct, left, rest, depth),
        None => Err(Fault::Syntax(behind.len())),
    }
}

/// The right operand of DISTINCT FROM.
#[cycle(expr)]
#[tactic(auto, using(crate::proofs::Bracketing::chain_concat, crate::proofs::Testing::distinctions, crate::proofs::Steps::reads_memory, crate::proofs::Weights::weights))]
fn distinct_from<'a>(
    alloc: Global,
    distinct: BinaryOp,
    left: ExprTree,
    tokens: &'a [Token],
    depth: u32,
) -> Read<'a>
    requires { depth + height left < 64 }
    ensures reads { Reads (distinct_operand distinct depth left) behind_comparison tokens.now (seen result) }
    ensures low { IfOk result (λ p. depth + height p.value ≤ 64) }
{
    match chain(alloc, Level::Concat, tokens, depth + 1) {
        Ok(right) => joined(alloc, distinct, left, right),
        Err(fault) => Err(fault),
    }
}

/// NOT, any number of times, before a predicate.
#[cycle(expr)]
#[tactic(auto, using(crate::proofs::Testing::negations, crate::proofs::Steps::reads_memory, crate::proofs::Weights::weights))]
fn negation<'a>(alloc: Global, tokens: &'a [Token], depth: u32) -> Read<'a>
    requires { depth ≤ 64 }
    ensures reads { Reads (negation_rule factor_rule depth) behind_predicate tokens.now (seen result) }
    ensures low { IfOk result (λ p. depth + height p.value ≤ 64) }
{
    let rest = match accept_word(tokens, Keyword::Not) {
        Some(rest) => rest,
        None => return predicate(alloc, tokens, depth),
    };
    if depth >= MAX_DEPTH {
        return Err(Fault::Deep(tokens.len()));
    }
    match negation(alloc, rest, depth + 1) {
        Ok(operand) => under(alloc, UnaryOp::Not, operand),
        Err(fault) => Err(fault),
    }
}

/// An operator over one tree.
fn under<'a>(alloc: Global, op: UnaryOp, operand: Part<'a, Token, ExprTree>) -> Read<'a>
    requires { height operand.value < 64 }
    ensures { MatchResult result (λ p. (p.value ≡ unary op operand.entry.value) × (p.rest.now ≡ operand.entry.rest.now)) (λ e. e ≡ Memory) }
{
    let Part { value, rest } = operand;
    let value = ExprTree::unary(alloc, op, value)?;
    Ok(Part { value, rest })
}

/// A leaf, a factor behind a minus sign, or an expression in brackets.
#[cycle(expr)]
#[tactic(auto, using(crate::proofs::Factors::factors, crate::proofs::Steps::reads_memory, crate::proofs::Weights::openings))]
fn factor<'a>(alloc: Global, tokens: &'a [Token], depth: u32) -> Read<'a>
    requires { depth ≤ 64 }
    ensures reads { Reads (factor_rule depth) behind_factor tokens.now (seen result) }
    ensures low { IfOk result (λ p. depth + height p.value ≤ 64) }
{
    if let Some(inner) = accept_sign(tokens, Sign::Open) {
        return bracketed(alloc, inner, depth);
    }
    let rest = match accept_sign(tokens, Sign::Minus) {
        Some(rest) => rest,
        None => return leaf(alloc, tokens, depth),
    };
    if depth >= MAX_DEPTH {
        return Err(Fault::Deep(tokens.len()));
    }
    match factor(alloc, rest, depth + 1) {
        Ok(operand) => under(alloc, UnaryOp::Negate, operand),
        Err(fault) => Err(fault),
    }
}

/// How many more brackets open, and the tokens behind them.
#[tactic(auto, using(pg_grammar::proofs::Nesting::replicate_next))]
fn openings(tokens: &[Token]) -> (usize, &[Token])
    ensures opened { tokens.now ≡ replicate result.0 (sign_token Open) ++ result.1.now }
    ensures all { Misses (sign_token Open) result.1.now }
{
    let mut count = 0;
    let mut rest = tokens;
    while let Some(inner) = accept_sign(rest, Sign::Open) {
        count += 1;
        rest = inner;
    }
    (count, rest)
}

/// What stands in brackets, of which the first is read.
#[cycle(expr)]
#[tactic(auto, using(crate::proofs::Bracketing::bracketed_failed, crate::proofs::Bracketing::bracketed_read, crate::proofs::Weights::opening_none))]
fn bracketed<'a>(alloc: Global, tokens: &'a [Token], depth: u32) -> Read<'a>
    requires { depth ≤ 64 }
    ensures reads { Reads (factor_rule depth) behind_factor (sign_token Open ∷ tokens.now) (seen result) }
    ensures low { IfOk result (λ p. depth + height p.value ≤ 64) }
{
    let (count, inner) = openings(tokens);
    match expr(alloc, inner, depth) {
        Ok(whole) => closed(alloc, count, whole, depth),
        Err(fault) => Err(fault),
    }
}

/// The bracket that closes behind a whole, and behind it what `count` brackets more hold.
#[cycle(expr)]
#[tactic(auto, using(crate::proofs::Bracketing::bracket_closings, crate::proofs::Steps::leads_here))]
fn closed<'a>(alloc: Global, count: usize, first: Part<'a, Token, ExprTree>, depth: u32) -> Read<'a>
    requires { depth + height first.value ≤ 64 }
    ensures reads { Reads (closed_rule depth count first.entry.value) behind_factor first.entry.rest.now (seen result) }
    ensures low { IfOk result (λ p. depth + height p.value ≤ 64) }
{
    let mut left = count;
    let mut whole = first;
    loop {
        let rest = match accept_sign(whole.rest, Sign::Close) {
            Some(rest) => rest,
            None => return Err(Fault::Syntax(whole.rest.len())),
        };
        let factor = Part {
            value: whole.value,
            rest,
        };
        if left == 0 {
            return Ok(factor);
        }
        left -= 1;
        whole = match behind_factor(alloc, factor, depth) {
            Ok(whole) => whole,
            Err(fault) => return Err(fault),
        };
    }
}

/// The rest of an expression whose first factor is read.
#[cycle(expr)]
#[tactic(auto, using(crate::proofs::Bracketing::factor_at_failed, crate::proofs::Bracketing::factor_at_read))]
fn behind_factor<'a>(alloc: Global, first: Part<'a, Token, ExprTree>, depth: u32) -> Read<'a>
    requires { depth + height first.value ≤ 64 }
    ensures reads { Reads (behind_factor_at depth first.entry.value) behind_expr first.entry.rest.now (seen result) }
    ensures low { IfOk result (λ p. depth + height p.value ≤ 64) }
{
    match chain_behind(alloc, Level::Product, first, depth) {
        Ok(part) => behind_product(alloc, part, depth),
        Err(fault) => Err(fault),
    }
}

/// The rest of an expression whose first product is read.
#[cycle(expr)]
#[tactic(auto, using(crate::proofs::Bracketing::product_at_failed, crate::proofs::Bracketing::product_at_read))]
fn behind_product<'a>(alloc: Global, first: Part<'a, Token, ExprTree>, depth: u32) -> Read<'a>
    requires { depth + height first.value ≤ 64 }
    ensures reads { Reads (behind_product_at depth first.entry.value) behind_expr first.entry.rest.now (seen result) }
    ensures low { IfOk result (λ p. depth + height p.value ≤ 64) }
{
    match chain_behind(alloc, Level::Sum, first, depth) {
        Ok(part) => behind_sum(alloc, part, depth),
        Err(fault) => Err(fault),
    }
}

/// The rest of an expression whose first sum is read.
#[cycle(expr)]
#[tactic(auto, using(crate::proofs::Bracketing::sum_at_failed, crate::proofs::Bracketing::sum_at_read))]
fn behind_sum<'a>(alloc: Global, first: Part<'a, Token, ExprTree>, depth: u32) -> Read<'a>
    requires { depth + height first.value ≤ 64 }
    ensures reads { Reads (behind_sum_at depth first.entry.value) behind_expr first.entry.rest.now (seen result) }
    ensures low { IfOk result (λ p. depth + height p.value ≤ 64) }
{
    match chain_behind(alloc, Level::Concat, first, depth) {
        Ok(part) => behind_concatenation(alloc, part, depth),
        Err(fault) => Err(fault),
    }
}

/// The rest of an expression whose first concatenation is read.
#[cycle(expr)]
#[tactic(auto, using(crate::proofs::Bracketing::concatenation_at_failed, crate::proofs::Bracketing::concatenation_at_read))]
fn behind_concatenation<'a>(alloc: Global, first: Part<'a, Token, ExprTree>, depth: u32) -> Read<'a>
    requires { depth + height first.value ≤ 64 }
    ensures reads { Reads (behind_concatenation_at depth first.entry.value) behind_expr first.entry.rest.now (seen result) }
    ensures low { IfOk result (λ p. depth + height p.value ≤ 64) }
{
    match comparison_behind(alloc, first, depth) {
        Ok(part) => behind_comparison(alloc, part, depth),
        Err(fault) => Err(fault),
    }
}

/// The rest of an expression whose first comparison is read.
#[cycle(expr)]
#[tactic(auto, using(crate::proofs::Bracketing::comparison_at_failed, crate::proofs::Bracketing::comparison_at_read))]
fn behind_comparison<'a>(alloc: Global, first: Part<'a, Token, ExprTree>, depth: u32) -> Read<'a>
    requires { depth + height first.value ≤ 64 }
    ensures reads { Reads (behind_comparison_at depth first.entry.value) behind_expr first.entry.rest.now (seen result) }
    ensures low { IfOk result (λ p. depth + height p.value ≤ 64) }
{
    match tests_behind(alloc, first, depth) {
        Ok(part) => behind_predicate(alloc, part, depth),
        Err(fault) => Err(fault),
    }
}

/// The rest of an expression whose first predicate is read.
#[cycle(expr)]
#[tactic(auto, using(crate::proofs::Bracketing::predicate_at_failed, crate::proofs::Bracketing::predicate_at_read))]
fn behind_predicate<'a>(alloc: Global, first: Part<'a, Token, ExprTree>, depth: u32) -> Read<'a>
    requires { depth + height first.value ≤ 64 }
    ensures reads { Reads (behind_predicate_at depth first.entry.value) behind_expr first.entry.rest.now (seen result) }
    ensures low { IfOk result (λ p. depth + height p.value ≤ 64) }
{
    match chain_behind(alloc, Level::And, first, depth) {
        Ok(part) => behind_conjunction(alloc, part, depth),
        Err(fault) => Err(fault),
    }
}

/// The rest of an expression whose first conjunction is read.
#[cycle(expr)]
#[tactic(auto, using(crate::proofs::Bracketing::conjunction_at))]
fn behind_conjunction<'a>(alloc: Global, first: Part<'a, Token, ExprTree>, depth: u32) -> Read<'a>
    requires { depth + height first.value ≤ 64 }
    ensures reads { Reads (behind_conjunction_at depth first.entry.value) behind_expr first.entry.rest.now (seen result) }
    ensures low { IfOk result (λ p. depth + height p.value ≤ 64) }
{
    match chain_behind(alloc, Level::Or, first, depth) {
        Ok(part) => Ok(part),
        Err(fault) => Err(fault),
    }
}
