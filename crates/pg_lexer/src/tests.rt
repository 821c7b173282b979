use super::*;
use std::alloc::{AllocError, Global};
use std::thread::Builder;

/// A token as a table writes it.
#[derive(Clone, Copy)]
enum Shown {
    Word(Keyword),
    Sign(Sign),
    Name(&'static [u8]),
    Integer(u64),
    Text(&'static [u8]),
}

fn is_shown(token: &Token, shown: Shown) -> bool {
    match (token, shown) {
        (Token::Keyword(keyword), Shown::Word(want)) => *keyword == want,
        (Token::Sign(sign), Shown::Sign(want)) => *sign == want,
        (Token::Name(name), Shown::Name(want)) => name.as_bytes() == want,
        (Token::Integer(number), Shown::Integer(want)) => *number == want,
        (Token::Quoted(text), Shown::Text(want)) => text.as_bytes() == want,
        _ => false,
    }
}

fn are_shown(tokens: &Tokens, shown: &[(Shown, u32, u32)]) -> bool {
    if tokens.tokens().len() != shown.len() || tokens.spans().len() != shown.len() {
        return false;
    }
    for (token, (want, _, _)) in tokens.tokens().iter().zip(shown) {
        if !is_shown(token, *want) {
            return false;
        }
    }
    for (span, (_, start, end)) in tokens.spans().iter().zip(shown) {
        if span.start != *start || span.end != *end {
            return false;
        }
    }
    true
}

#[test]
fn lines_have_their_tokens(rt: HostRuntime) -> Result<(), AllocError> {
    let rows: [(&[u8], &[(Shown, u32, u32)]); 19] = [
        (b"", &[]),
        (b" \t ", &[]),
        (
            b"SeLeCt\t*",
            &[
                (Shown::Word(Keyword::Select), 1, 7),
                (Shown::Sign(Sign::Star), 8, 9),
            ],
        ),
        (b"selects", &[(Shown::Name(b"selects"), 1, 8)]),
        (
            b"A123456789_123456789_123456789_123456789_123456789_123456789_12",
            &[(
                Shown::Name(b"a123456789_123456789_123456789_123456789_123456789_123456789_12"),
                1,
                64,
            )],
        ),
        (
            b"_X9 merge_action",
            &[
                (Shown::Name(b"_x9"), 1, 4),
                (Shown::Name(b"merge_action"), 5, 17),
            ],
        ),
        (
            b"a<>b",
            &[
                (Shown::Name(b"a"), 1, 2),
                (Shown::Sign(Sign::NotEqual), 2, 4),
                (Shown::Name(b"b"), 4, 5),
            ],
        ),
        (b"!=", &[(Shown::Sign(Sign::NotEqual), 1, 3)]),
        (
            b"<=>",
            &[
                (Shown::Sign(Sign::LessOrEqual), 1, 3),
                (Shown::Sign(Sign::Greater), 3, 4),
            ],
        ),
        (
            b"< =",
            &[
                (Shown::Sign(Sign::Less), 1, 2),
                (Shown::Sign(Sign::Equal), 3, 4),
            ],
        ),
        (
            b">=||",
            &[
                (Shown::Sign(Sign::GreaterOrEqual), 1, 3),
                (Shown::Sign(Sign::Concat), 3, 5),
            ],
        ),
        (
            b"(,);",
            &[
                (Shown::Sign(Sign::Open), 1, 2),
                (Shown::Sign(Sign::Comma), 2, 3),
                (Shown::Sign(Sign::Close), 3, 4),
                (Shown::Sign(Sign::Semicolon), 4, 5),
            ],
        ),
        (
            b"+-/%",
            &[
                (Shown::Sign(Sign::Plus), 1, 2),
                (Shown::Sign(Sign::Minus), 2, 3),
                (Shown::Sign(Sign::Slash), 3, 4),
                (Shown::Sign(Sign::Percent), 4, 5),
            ],
        ),
        (
            b"t.KEY",
            &[
                (Shown::Name(b"t"), 1, 2),
                (Shown::Sign(Sign::Dot), 2, 3),
                (Shown::Word(Keyword::Key), 3, 6),
            ],
        ),
        (
            b"1abc",
            &[(Shown::Integer(1), 1, 2), (Shown::Name(b"abc"), 2, 5)],
        ),
        (
            b"00 007",
            &[(Shown::Integer(0), 1, 3), (Shown::Integer(7), 4, 7)],
        ),
        (
            b"9223372036854775807",
            &[(Shown::Integer(9223372036854775807), 1, 20)],
        ),
        (b"'it''s'''''", &[(Shown::Text(b"it's''"), 1, 12)]),
        (
            b"'' ' ~'",
            &[(Shown::Text(b""), 1, 3), (Shown::Text(b" ~"), 4, 8)],
        ),
    ];
    for (line, shown) in rows {
        assert!(rt; line.len() < 100);
        let lexed = read_front(rt.alloc(), line, 1)?;
        assert!(rt; lexed.fault.is_none() && lexed.end as usize == line.len() + 1);
        assert!(rt;
            are_shown(&lexed.tokens, shown),
            "the tokens of {}",
            line.len()
        );
    }
    Ok(())
}

#[test]
fn bad_lines_have_their_places(rt: HostRuntime) -> Result<(), AllocError> {
    let rows: [(&[u8], usize, BadPlace); 20] = [
        (b"a # b", 1, BadPlace::Byte(3)),
        (b"a ! = b", 1, BadPlace::Byte(3)),
        (b"a | | b", 1, BadPlace::Byte(3)),
        (b"<!>", 1, BadPlace::Byte(2)),
        (b"a:b", 1, BadPlace::Byte(2)),
        (b"\"a\"", 0, BadPlace::Byte(1)),
        (b"a\r", 1, BadPlace::Byte(2)),
        (b"a \x00", 1, BadPlace::Byte(3)),
        (b"caf\xc3\xa9", 1, BadPlace::Byte(4)),
        (b"'a\tb'", 0, BadPlace::Byte(3)),
        (b"a '\x7f'", 1, BadPlace::Byte(4)),
        (b"'\x1f\t'", 0, BadPlace::Byte(2)),
        (b"'a\tb", 0, BadPlace::Literal(1)),
        (b"a '\xff''", 1, BadPlace::Literal(3)),
        (b"select 1 'x", 2, BadPlace::Literal(10)),
        (b"''''' b", 0, BadPlace::Literal(1)),
        (b"9223372036854775808", 0, BadPlace::Literal(1)),
        (b"x 00009223372036854775808", 1, BadPlace::Literal(3)),
        (b"a 99999999999999999999999999", 1, BadPlace::Literal(3)),
        (
            b" a123456789_123456789_123456789_123456789_123456789_123456789_123",
            0,
            BadPlace::Name(2),
        ),
    ];
    for (line, tokens, fault) in rows {
        let lexed = read_front(rt.alloc(), line, 1)?;
        assert!(rt; lexed.fault == Some(fault), "the fault of {}", line.len());
        assert!(rt; lexed.tokens.tokens().len() == tokens);
    }
    Ok(())
}

/// A text literal of a piece written so many times.
fn literal(alloc: Global, piece: &[u8], times: usize) -> Result<Vec<u8>, AllocError> {
    let mut line = vec![in alloc; b'\'']?;
    for _ in 0..times {
        line.extend_from_slice(piece)?;
    }
    line.push(b'\'')?;
    Ok(line)
}

#[test]
fn texts_have_at_most_4096_bytes(rt: HostRuntime) -> Result<(), AllocError> {
    for (piece, times, is_read) in [
        (b"a".as_slice(), 4096, true),
        (b"a".as_slice(), 4097, false),
        (b"''".as_slice(), 4096, true),
        (b"''".as_slice(), 4097, false),
    ] {
        let line = literal(rt.alloc(), piece, times)?;
        assert!(rt; line.len() <= 1048576);
        let lexed = read_front(rt.alloc(), line.as_slice(), 1)?;
        assert!(rt;
            lexed.fault
                == if is_read {
                    None
                } else {
                    Some(BadPlace::Literal(1))
                }
        );
        assert!(rt; lexed.tokens.tokens().len() == if is_read { 1 } else { 0 });
    }
    Ok(())
}

#[test]
fn a_line_is_read_from_a_place_on(rt: HostRuntime) -> Result<(), AllocError> {
    let shown = [
        (Shown::Word(Keyword::End), 4, 7),
        (Shown::Sign(Sign::Semicolon), 7, 8),
    ];
    let tokens = read_tokens(rt.alloc(), b"a: END;", 3);
    assert!(rt; tokens.is_ok_and(|tokens| are_shown(&tokens, &shown)));
    let nothing = read_tokens(rt.alloc(), b"a:", 3);
    assert!(rt; nothing.is_ok_and(|tokens| tokens.tokens().is_empty()));
    let faults: [(&[u8], LexFault); 3] = [
        (b"a:\t'", LexFault::Literal(4)),
        (b"a:99999999999999999999", LexFault::Literal(3)),
        (b"a:b:", LexFault::Byte(4)),
    ];
    for (line, fault) in faults {
        assert!(rt; read_tokens(rt.alloc(), line, 3).is_err_and(|found| found == fault));
    }
    Ok(())
}

/// How many tokens a line has that writes a piece so many times: `None` where it has a fault.
fn count_tokens(alloc: Global, piece: &[u8], times: u32) -> Result<Option<usize>, AllocError> {
    let mut line = Vec::new(alloc);
    for _ in 0..times {
        line.extend_from_slice(piece)?;
    }
    if line.len() != 1048576 {
        return Ok(None);
    }
    let lexed = read_front(alloc, line.as_slice(), 1)?;
    let count = lexed.tokens.tokens().len();
    Ok(lexed.fault.is_none().then_some(count))
}

/// The longest lines, of brackets, minus signs, operators, words and list items, are read in a
/// stack of 128 KiB.
#[test]
fn long_lines_need_little_stack(rt: HostRuntime) -> Result<(), AllocError> {
    let rows: [(&[u8], u32, usize); 7] = [
        (b"(", 1048576, 1048576),
        (b"-", 1048576, 1048576),
        (b"1+", 524288, 1048576),
        (b"a,", 524288, 1048576),
        (b"''||", 262144, 524288),
        (b"not ", 262144, 262144),
        (b"        ", 131072, 0),
    ];
    for (piece, times, tokens) in rows {
        let counted = Builder::new()
            .stack_size(131072)
            .spawn(&rt, move || count_tokens(rt.alloc(), piece, times))
            .map_err(|_| AllocError)?;
        assert!(rt; counted.join(&rt)? == Some(tokens), "{times} pieces");
    }
    Ok(())
}

#[test]
fn names_and_texts_are_copied(rt: HostRuntime) -> Result<(), AllocError> {
    let lexed = read_front(rt.alloc(), b"Name 'text'", 1)?;
    for token in lexed.tokens.tokens() {
        match token {
            Token::Name(name) => assert!(rt;
                name.copy(rt.alloc())?.as_bytes() == b"name".as_slice()
            ),
            Token::Quoted(text) => assert!(rt;
                text.copy(rt.alloc())?.as_bytes() == b"text".as_slice()
            ),
            _ => assert!(rt; false),
        }
    }
    Ok(())
}
