// The line that says where and why an input is refused.
ghost use Rattle.std.specs.Prelude.{◌≡◌, ◌++◌, IfOk, OnOk, decimal};
ghost use Rattle.pgrc.specs.Refusals.{reason_text, refusal_text};

use itoa::Buffer;
use pg_lists::Items;
use pg_print::write_error;
use pg_script::Reason;
use std::alloc::{AllocError, Global};

fn put_number(out: &mut Vec<u8>, number: u32) -> Result<(), AllocError>
    ensures { OnOk result (out.new.items ≡ out.old.items ++ decimal number) }
{
    let mut buffer = Buffer::new();
    out.extend_from_slice(buffer.format(number).as_bytes())
}

/// Words, and a place behind them.
fn put_placed(out: &mut Vec<u8>, words: &[u8], place: u32) -> Result<(), AllocError>
    ensures { OnOk result (out.new.items ≡ out.old.items ++ words.now ++ decimal place) }
{
    out.extend_from_slice(words)?;
    put_number(out, place)
}

fn put_reason(alloc: Global, out: &mut Vec<u8>, reason: &Reason) -> Result<(), AllocError>
    ensures { OnOk result (out.new.items ≡ out.old.items ++ reason_text reason.now) }
{
    match reason {
        Reason::Size => out.extend_from_slice(b"size"),
        Reason::Header => out.extend_from_slice(b"header"),
        Reason::Later => out.extend_from_slice(b"later"),
        Reason::Line => out.extend_from_slice(b"line"),
        Reason::Free => out.extend_from_slice(b"free"),
        Reason::Order => out.extend_from_slice(b"order"),
        Reason::Sessions => out.extend_from_slice(b"sessions"),
        Reason::Place => out.extend_from_slice(b"place"),
        Reason::Byte(place) => put_placed(out, b"byte at ", *place),
        Reason::Literal(place) => put_placed(out, b"literal at ", *place),
        Reason::LongName(place) => put_placed(out, b"name at ", *place),
        Reason::Syntax(place) => put_placed(out, b"syntax at ", *place),
        Reason::Depth(place) => put_placed(out, b"depth at ", *place),
        Reason::Items(place) => put_placed(out, b"items at ", *place),
        Reason::Error(error) => {
            let text = write_error(alloc, error)?;
            out.extend_from_slice(text.as_slice())
        }
    }
}

/// The line that says which line of the input is refused, and why: `line N: REASON`.
pub fn refusal_line(alloc: Global, line: u32, reason: &Reason) -> Result<Items<u8>, AllocError>
    ensures { IfOk result (λ text. text ≡ refusal_text line reason.now) }
{
    let mut out = Vec::new(alloc);
    out.extend_from_slice(b"line ")?;
    put_number(&mut out, line)?;
    out.extend_from_slice(b": ")?;
    put_reason(alloc, &mut out, reason)?;
    out.push(b'\n')?;
    Ok(Items::from_vec(out))
}
