//! Trees and faults worked out from the grammar by hand.
use super::*;
use pg_exprs::{Arithmetic, BinaryOp, Comparison, UnaryOp};
use pg_lexer::read_front;
use pg_values::Value;
use std::alloc::{AllocError, Global};
use std::thread::Builder;

/// The names of operators, as the tests print trees.
fn binary_sign(op: BinaryOp) -> &'static str {
    match op {
        BinaryOp::Or => "or",
        BinaryOp::And => "and",
        BinaryOp::IsDistinctFrom => "distinct",
        BinaryOp::IsNotDistinctFrom => "same",
        BinaryOp::Compare(Comparison::Equal) => "=",
        BinaryOp::Compare(Comparison::NotEqual) => "<>",
        BinaryOp::Compare(Comparison::Less) => "<",
        BinaryOp::Compare(Comparison::LessOrEqual) => "<=",
        BinaryOp::Compare(Comparison::Greater) => ">",
        BinaryOp::Compare(Comparison::GreaterOrEqual) => ">=",
        BinaryOp::Concat => "||",
        BinaryOp::Compute(Arithmetic::Add) => "+",
        BinaryOp::Compute(Arithmetic::Subtract) => "-",
        BinaryOp::Compute(Arithmetic::Multiply) => "*",
        BinaryOp::Compute(Arithmetic::Divide) => "/",
        BinaryOp::Compute(Arithmetic::Remainder) => "%",
    }
}

fn unary_sign(op: UnaryOp) -> &'static str {
    match op {
        UnaryOp::Not => "not",
        UnaryOp::IsNull => "null?",
        UnaryOp::IsNotNull => "some?",
        UnaryOp::Negate => "neg",
    }
}

fn print_leaf(text: &mut Vec<u8>, value: &Value) -> Result<(), AllocError> {
    match value {
        Value::Null => text.extend_from_slice(b"null"),
        Value::Bool(true) => text.extend_from_slice(b"true"),
        Value::Bool(false) => text.extend_from_slice(b"false"),
        Value::Int(_) => text.extend_from_slice(b"int"),
        Value::Big(_) => text.extend_from_slice(b"big"),
        Value::Text(value) => text.extend_from_slice(value.as_slice()),
    }
}

/// A tree with its operators in front.
fn print(text: &mut Vec<u8>, tree: &ExprTree) -> Result<(), AllocError> {
    match tree.node() {
        Node::Literal(value) => print_leaf(text, value),
        Node::Column(name) => text.extend_from_slice(name.as_bytes()),
        Node::ColumnOf(source, name) => {
            text.extend_from_slice(source.as_bytes())?;
            text.push(b'.')?;
            text.extend_from_slice(name.as_bytes())
        }
        Node::Action => text.extend_from_slice(b"action()"),
        Node::Unary(op, operand) => {
            text.push(b'(')?;
            text.extend_from_slice(unary_sign(*op).as_bytes())?;
            text.push(b' ')?;
            print(text, operand)?;
            text.extend_from_slice(b")")
        }
        Node::Binary(op, left, right) => {
            text.push(b'(')?;
            text.extend_from_slice(binary_sign(*op).as_bytes())?;
            text.push(b' ')?;
            print(text, left)?;
            text.push(b' ')?;
            print(text, right)?;
            text.extend_from_slice(b")")
        }
    }
}

/// The most bytes of a line.
const MAX_LINE: usize = 1048576;

fn parsed(alloc: Global, line: &[u8]) -> Result<Result<(Vec<u8>, u32), ParseFault>, AllocError> {
    if line.len() > MAX_LINE {
        return Ok(Err(ParseFault::Memory));
    }
    let lexed = read_front(alloc, line, 1)?;
    if lexed.tokens.spans().len() > MAX_LINE {
        return Ok(Err(ParseFault::Memory));
    }
    Ok(match parse_expr(alloc, &lexed.tokens, 0, lexed.end) {
        Ok((tree, next)) => {
            let mut text = Vec::new(alloc);
            print(&mut text, &tree)?;
            Ok((text, next))
        }
        Err(fault) => Err(fault),
    })
}

#[test]
fn trees_group_as_written(rt: HostRuntime) -> Result<(), AllocError> {
    for (line, want, next) in [
        ("a - b - c", "(- (- a b) c)", 5),
        ("a + b * -c % 2", "(+ a (% (* b (neg c)) int))", 8),
        ("NOT a = b AND c OR d", "(or (and (not (= a b)) c) d)", 8),
        ("a OR b AND NOT NOT c", "(or a (and b (not (not c))))", 7),
        ("a || b + 1 < 'x' || c", "(< (|| a (+ b int)) (|| x c))", 9),
        ("a = b IS NOT NULL IS NULL", "(null? (some? (= a b)))", 8),
        ("a IS DISTINCT FROM b || c", "(distinct a (|| b c))", 7),
        ("a IS NOT DISTINCT FROM NULL", "(same a null)", 6),
        ("((a)) - (NOT (b = c))", "(- a (not (= b c)))", 14),
        ("((((a = b)) OR c))", "(or (= a b) c)", 13),
        ("t.key.x", "t.key", 3),
        (
            "merge_action() = merge_action.merge_action",
            "(= action() merge_action.merge_action)",
            7,
        ),
        ("merge_action, x", "merge_action", 1),
        ("2147483647 + 2147483648", "(+ int big)", 3),
        ("a = b = c", "(= a b)", 3),
        ("a b", "a", 1),
    ] {
        let got = parsed(rt.alloc(), line.as_bytes())?;
        assert!(rt;
            got.is_ok_and(|(text, at)| text.as_slice() == want.as_bytes() && at == next),
            "{line}"
        );
    }
    Ok(())
}

#[test]
fn faults_have_their_places(rt: HostRuntime) -> Result<(), AllocError> {
    for (line, want) in [
        ("", ParseFault::Syntax(1)),
        ("  ", ParseFault::Syntax(3)),
        ("a +  ", ParseFault::Syntax(6)),
        ("a + where", ParseFault::Syntax(5)),
        ("a = NOT b", ParseFault::Syntax(5)),
        ("- NOT b", ParseFault::Syntax(3)),
        ("a IS 1", ParseFault::Syntax(6)),
        ("a IS NOT", ParseFault::Syntax(9)),
        ("a IS NOT DISTINCT 1", ParseFault::Syntax(19)),
        ("a IS DISTINCT FROM NOT b", ParseFault::Syntax(20)),
        ("(a", ParseFault::Syntax(3)),
        ("((a = b) = c = d)", ParseFault::Syntax(14)),
        ("(a b)", ParseFault::Syntax(4)),
        ("t.", ParseFault::Syntax(3)),
        ("t.1", ParseFault::Syntax(3)),
        ("merge_action(1)", ParseFault::Syntax(14)),
    ] {
        let got = parsed(rt.alloc(), line.as_bytes())?;
        assert!(rt; got.is_err_and(|fault| fault == want), "{line}");
    }
    Ok(())
}

/// A piece, as often as it is asked, and an end.
fn repeated(alloc: Global, piece: &str, count: usize, end: &str) -> Result<Vec<u8>, AllocError> {
    let mut line = Vec::new(alloc);
    for _ in 0..count {
        line.extend_from_slice(piece.as_bytes())?;
    }
    line.extend_from_slice(end.as_bytes())?;
    Ok(line)
}

/// The fault of a line that writes a piece so many times, and then an end.
fn fault_of(
    alloc: Global,
    piece: &str,
    count: usize,
    end: &str,
) -> Result<Option<ParseFault>, AllocError> {
    let line = repeated(alloc, piece, count, end)?;
    Ok(parsed(alloc, line.as_slice())?.err())
}

/// Each line is read or refused in a stack of 1 MiB.
#[test]
fn paths_have_64_nodes(rt: HostRuntime) -> Result<(), AllocError> {
    for (piece, count, end, want) in [
        ("-", 63, "1", None),
        ("-", 64, "1", Some(ParseFault::Depth(65))),
        ("-", 1048576, "", Some(ParseFault::Depth(65))),
        ("a+", 63, "a", None),
        ("a+", 64, "a", Some(ParseFault::Depth(128))),
        ("a+", 524288, "", Some(ParseFault::Depth(128))),
        ("a,", 524288, "", None),
        ("(", 1048576, "", Some(ParseFault::Syntax(1048577))),
        ("(", 524287, "1", Some(ParseFault::Syntax(524289))),
        ("(1+", 63, "1", Some(ParseFault::Syntax(191))),
        ("(1+", 64, "1", Some(ParseFault::Depth(192))),
        ("NOT ", 63, "1", None),
        ("NOT ", 64, "1", Some(ParseFault::Depth(257))),
        ("-(", 100000, "1", Some(ParseFault::Depth(129))),
        ("1-(", 100000, "1", Some(ParseFault::Depth(191))),
    ] {
        let reading = Builder::new()
            .stack_size(1048576)
            .spawn(&rt, move || fault_of(rt.alloc(), piece, count, end))
            .map_err(|_| AllocError)?;
        assert_eq!(rt; reading.join(&rt)?, want, "{piece}");
    }
    Ok(())
}
