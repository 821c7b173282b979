//! SELECT, and what it lists.
ghost use Rattle.std.specs.Prelude.{◌≡◌, MatchOption};
ghost use Rattle.pg_parse_stmt.specs.Expected.{Dotted, NotDotted, BeginsAllOf};
ghost use Rattle.pg_grammar.specs.Answers.{Reads, read};
ghost use Rattle.pg_grammar.specs.Parts.{seen};
ghost use Rattle.pg_parse_stmt.specs.Ranks.{behind};
ghost use Rattle.pg_parse_stmt.specs.Behind.{any, behind_as, behind_item, behind_items, behind_direction, behind_nulls, behind_order_key, behind_limit, behind_wait, behind_of, behind_locked, behind_locking, behind_statement};
ghost use Rattle.pg_parse_stmt.specs.Grammar.{item, as_name, named_expr, returning, direction, nulls_by, nulls, order_key, order, limit, strength_behind, strength, of_table, lock_wait, locked, locking, select};

use crate::front::{Read, begins_name, name};
use crate::list::{Listed, expr, list, optional};
use crate::source::{condition, sources};
use crate::tree::{Direction, Item, LockStrength, LockWait, Locking, NullsPlace, OrderKey, Select};
use crate::word::{accept, expect};
use pg_grammar::{Fault, Part};
use pg_lexer::{Keyword, NameText, Sign, Token};
use pg_lists::Items;
use pg_parse_expr::{accept_sign, accept_word};
use std::alloc::Global;

/// The tokens behind `name "."`, if that stands first.
#[tactic(auto, using(crate::proofs::Items::dotted_no_name, crate::proofs::Items::dotted_no_dot, crate::proofs::Items::dotted_read, crate::proofs::Items::dotted_none))]
fn behind_dot(tokens: &[Token]) -> Option<&[Token]>
    ensures { MatchOption result (NotDotted tokens.now) (λ rest. Dotted tokens.now rest.now) }
{
    if begins_name(tokens) {
        match tokens.split_first() {
            Some((_, rest)) => match accept_sign(rest, Sign::Dot) {
                Some(rest) => Some(rest),
                None => None,
            },
            None => None,
        }
    } else {
        None
    }
}

/// `name "." "*"`, where the name and what is behind are known.
#[tactic(auto, using(crate::proofs::Stars::item_all_of, crate::proofs::Stars::item_no_name))]
fn all_of<'a>(alloc: Global, tokens: &'a [Token], rest: &'a [Token]) -> Read<'a, Item>
    requires { BeginsAllOf tokens.now rest.now }
    ensures { Reads item behind_item tokens.now (seen result) }
{
    match name(alloc, tokens) {
        Ok(Part { value, rest: _ }) => Ok(Part {
            value: Item::AllOf(value),
            rest,
        }),
        Err(fault) => Err(fault),
    }
}

/// `expr [AS name]`
fn named_expr<'a>(alloc: Global, tokens: &'a [Token]) -> Read<'a, Item>
    ensures { Reads named_expr behind_item tokens.now (seen result) }
{
    let Part { value: expr, rest } = expr(alloc, tokens)?;
    let Part { value: name, rest } = as_name(alloc, rest)?;
    Ok(Part {
        value: Item::Expr(expr, name),
        rest,
    })
}

/// `[AS name]`
#[tactic(auto, unfolding(crate::specs::Grammar::as_name, crate::specs::Behind::behind_as, crate::specs::Behind::behind_optional))]
pub(crate) fn as_name<'a>(alloc: Global, tokens: &'a [Token]) -> Read<'a, Option<NameText>>
    ensures { Reads as_name behind_as tokens.now (seen result) }
{
    optional::<NameText>(alloc, tokens, Keyword::As)
}

impl Listed for Item {
    ghost use Rattle.pg_parse_stmt.specs.Spellings.{spelled_item};
    ghost use Rattle.pg_parse_stmt.specs.After.{behind_item_comma, behind_item_close};
    ghost use Rattle.pg_parse_stmt.specs.Behind.{behind_item};
    ghost use Rattle.pg_parse_stmt.specs.Grammar.{item};

    ghost rule = { item };

    ghost follows = { behind_item };

    #[tactic(auto, using(crate::proofs::Stars::item_all, crate::proofs::Stars::item_begins, crate::proofs::Items::item_expr, crate::proofs::Items::item_own))]
    fn read<'a>(alloc: Global, tokens: &'a [Token]) -> Read<'a, Item> {
        if let Some(rest) = accept_sign(tokens, Sign::Star) {
            return Ok(Part {
                value: Item::All,
                rest,
            });
        }
        match behind_dot(tokens) {
            Some(behind) => match accept_sign(behind, Sign::Star) {
                Some(rest) => all_of(alloc, tokens, rest),
                None => named_expr(alloc, tokens),
            },
            None => named_expr(alloc, tokens),
        }
    }

    ghost comma = { behind_item_comma };

    ghost close = { behind_item_close };

    ghost spelled = { spelled_item };
}

/// `[RETURNING items]`
#[tactic(auto, using(crate::proofs::Orders::returning_read, crate::proofs::Orders::returning_none), unfolding(crate::specs::Grammar::items, crate::specs::Behind::behind_items))]
pub(crate) fn returning<'a>(alloc: Global, tokens: &'a [Token]) -> Read<'a, Items<Item>>
    ensures { Reads returning (behind 16) tokens.now (seen result) }
{
    match accept_word(tokens, Keyword::Returning) {
        Some(rest) => list::<Item>(alloc, rest),
        None => Ok(Part {
            value: Items::new(alloc),
            rest: tokens,
        }),
    }
}

/// `[ASC | DESC]`
#[tactic(auto, using(crate::proofs::Orders::direction_written, crate::proofs::Orders::direction_none))]
fn direction(tokens: &[Token]) -> Part<'_, Token, Direction>
    ensures { Reads direction behind_direction tokens.now (read result.value result.rest.now) }
{
    match accept::<Direction>(tokens) {
        Some((value, rest)) => Part { value, rest },
        None => Part {
            value: Direction::Ascending,
            rest: tokens,
        },
    }
}

/// Where NULL stands if it counts as the greatest value.
fn nulls_by(direction: Direction) -> NullsPlace
    ensures { result ≡ nulls_by direction }
{
    match direction {
        Direction::Ascending => NullsPlace::Last,
        Direction::Descending => NullsPlace::First,
    }
}

/// `[NULLS (FIRST | LAST)]`, where NULL counts as the greatest value if it is not written.
#[tactic(auto, using(crate::proofs::Orders::nulls_read, crate::proofs::Orders::nulls_none))]
fn nulls(tokens: &[Token], direction: Direction) -> Read<'_, NullsPlace>
    ensures { Reads (nulls direction) behind_nulls tokens.now (seen result) }
{
    match accept_word(tokens, Keyword::Nulls) {
        Some(rest) => expect::<NullsPlace>(rest),
        None => Ok(Part {
            value: nulls_by(direction),
            rest: tokens,
        }),
    }
}

impl Listed for OrderKey {
    ghost use Rattle.pg_parse_stmt.specs.Spellings.{spelled_order_key};
    ghost use Rattle.pg_parse_stmt.specs.After.{behind_order_key_comma, behind_order_key_close};
    ghost use Rattle.pg_parse_stmt.specs.Behind.{behind_order_key};
    ghost use Rattle.pg_parse_stmt.specs.Grammar.{order_key};

    ghost rule = { order_key };

    ghost follows = { behind_order_key };

    fn read<'a>(alloc: Global, tokens: &'a [Token]) -> Read<'a, OrderKey> {
        let Part { value: expr, rest } = expr(alloc, tokens)?;
        let Part {
            value: direction,
            rest,
        } = direction(rest);
        let Part { value: nulls, rest } = nulls(rest, direction)?;
        Ok(Part {
            value: OrderKey {
                expr,
                direction,
                nulls,
            },
            rest,
        })
    }

    ghost comma = { behind_order_key_comma };

    ghost close = { behind_order_key_close };

    ghost spelled = { spelled_order_key };
}

/// `[ORDER BY order_key {"," order_key}]`
#[tactic(auto, using(crate::proofs::Orders::order_read, crate::proofs::Orders::order_no_by, crate::proofs::Orders::order_none))]
fn order<'a>(alloc: Global, tokens: &'a [Token]) -> Read<'a, Items<OrderKey>>
    ensures { Reads order (behind 14) tokens.now (seen result) }
{
    match accept_word(tokens, Keyword::Order) {
        Some(rest) => match accept_word(rest, Keyword::By) {
            Some(rest) => list::<OrderKey>(alloc, rest),
            None => Err(Fault::Syntax(rest.len())),
        },
        None => Ok(Part {
            value: Items::new(alloc),
            rest: tokens,
        }),
    }
}

/// `[LIMIT integer]`
#[tactic(auto, unfolding(crate::specs::Grammar::limit, crate::specs::Behind::behind_limit, crate::specs::Behind::behind_optional))]
fn limit<'a>(alloc: Global, tokens: &'a [Token]) -> Read<'a, Option<u64>>
    ensures { Reads limit behind_limit tokens.now (seen result) }
{
    optional::<u64>(alloc, tokens, Keyword::Limit)
}

/// What is behind the first word of a strength.
#[tactic(auto, using(crate::proofs::Locks::strengths))]
fn strength_behind(tokens: &[Token], value: LockStrength) -> Read<'_, LockStrength>
    ensures { Reads (strength_behind value) any tokens.now (seen result) }
{
    match value {
        LockStrength::KeyShare => match accept_word(tokens, Keyword::Share) {
            Some(rest) => Ok(Part { value, rest }),
            None => Err(Fault::Syntax(tokens.len())),
        },
        LockStrength::NoKeyUpdate => match accept_word(tokens, Keyword::Key) {
            Some(behind) => match accept_word(behind, Keyword::Update) {
                Some(rest) => Ok(Part { value, rest }),
                None => Err(Fault::Syntax(behind.len())),
            },
            None => Err(Fault::Syntax(tokens.len())),
        },
        LockStrength::Share => Ok(Part {
            value,
            rest: tokens,
        }),
        LockStrength::Update => Ok(Part {
            value,
            rest: tokens,
        }),
    }
}

/// `KEY SHARE | SHARE | NO KEY UPDATE | UPDATE`
#[tactic(auto, using(crate::proofs::Locks::strength_read, crate::proofs::Locks::strength_failed))]
fn strength(tokens: &[Token]) -> Read<'_, LockStrength>
    ensures { Reads strength any tokens.now (seen result) }
{
    match expect::<LockStrength>(tokens) {
        Ok(Part { value, rest }) => strength_behind(rest, value),
        Err(fault) => Err(fault),
    }
}

/// `[NOWAIT | SKIP LOCKED]`
#[tactic(auto, using(crate::proofs::Locks::nowait_read, crate::proofs::Locks::skip_read, crate::proofs::Locks::skip_failed, crate::proofs::Locks::wait_read))]
fn lock_wait(tokens: &[Token]) -> Read<'_, LockWait>
    ensures { Reads lock_wait behind_wait tokens.now (seen result) }
{
    if let Some(rest) = accept_word(tokens, Keyword::Nowait) {
        return Ok(Part {
            value: LockWait::Fail,
            rest,
        });
    }
    match accept_word(tokens, Keyword::Skip) {
        Some(behind) => match accept_word(behind, Keyword::Locked) {
            Some(rest) => Ok(Part {
                value: LockWait::Skip,
                rest,
            }),
            None => Err(Fault::Syntax(behind.len())),
        },
        None => Ok(Part {
            value: LockWait::Wait,
            rest: tokens,
        }),
    }
}

/// `[OF name]`
#[tactic(auto, unfolding(crate::specs::Grammar::of_table, crate::specs::Behind::behind_of, crate::specs::Behind::behind_optional))]
fn of_table<'a>(alloc: Global, tokens: &'a [Token]) -> Read<'a, Option<NameText>>
    ensures { Reads of_table behind_of tokens.now (seen result) }
{
    optional::<NameText>(alloc, tokens, Keyword::Of)
}

/// `strength [OF name] [NOWAIT | SKIP LOCKED]`, behind FOR.
fn locked<'a>(alloc: Global, tokens: &'a [Token]) -> Read<'a, Locking>
    ensures { Reads locked behind_locked tokens.now (seen result) }
{
    let Part {
        value: strength,
        rest,
    } = strength(tokens)?;
    let Part { value: table, rest } = of_table(alloc, rest)?;
    let Part { value: wait, rest } = lock_wait(rest)?;
    Ok(Part {
        value: Locking {
            strength,
            table,
            wait,
        },
        rest,
    })
}

impl Listed for Locking {
    ghost use Rattle.pg_parse_stmt.specs.Spellings.{spelled_locked};
    ghost use Rattle.pg_parse_stmt.specs.After.{behind_locked_comma, behind_locked_close};
    ghost use Rattle.pg_parse_stmt.specs.Behind.{behind_locked};
    ghost use Rattle.pg_parse_stmt.specs.Grammar.{locked as locked_rule};

    ghost rule = { locked_rule };

    ghost follows = { behind_locked };

    fn read<'a>(alloc: Global, tokens: &'a [Token]) -> Read<'a, Locking> {
        locked(alloc, tokens)
    }

    ghost comma = { behind_locked_comma };

    ghost close = { behind_locked_close };

    ghost spelled = { spelled_locked };
}

/// `[FOR strength [OF name] [NOWAIT | SKIP LOCKED]]`
#[tactic(auto, unfolding(crate::specs::Grammar::locking, crate::specs::Behind::behind_locking, crate::specs::Behind::behind_optional))]
fn locking<'a>(alloc: Global, tokens: &'a [Token]) -> Read<'a, Option<Locking>>
    ensures { Reads locking behind_locking tokens.now (seen result) }
{
    optional::<Locking>(alloc, tokens, Keyword::For)
}

/// `items FROM from [WHERE expr] [ORDER BY order_key {"," order_key}] [LIMIT integer] [FOR locked]`, behind SELECT.
pub(crate) fn select<'a>(alloc: Global, tokens: &'a [Token]) -> Read<'a, Select>
    ensures { Reads select behind_statement tokens.now (seen result) }
{
    let items = list::<Item>(alloc, tokens)?;
    let Some(rest) = accept_word(items.rest, Keyword::From) else {
        return Err(Fault::Syntax(items.rest.len()));
    };
    let from = sources(alloc, rest)?;
    let condition = condition(alloc, from.rest)?;
    let order = order(alloc, condition.rest)?;
    let limit = limit(alloc, order.rest)?;
    let Part {
        value: locking,
        rest,
    } = locking(alloc, limit.rest)?;
    Ok(Part {
        value: Select {
            items: items.value,
            from: from.value,
            condition: condition.value,
            order: order.value,
            limit: limit.value,
            locking,
        },
        rest,
    })
}
