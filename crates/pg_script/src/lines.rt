//! The lines of a script.
ghost use Rattle.std.specs.Prelude.{◌≡◌, ◌==◌, ◌≤◌, ◌∷◌, length, not};
ghost use Rattle.std.specs.List.{prefix_len};
ghost use Rattle.std.specs.Option.{option_copied};
ghost use Rattle.pg_script.specs.Bytes.{bytes_behind, lines_behind, lines_in, without_return as line_without_return};

/// A line without the CR at its end.
#[tactic(auto, using(crate::proofs::Bytes::without_last_more))]
fn without_return(line: &[u8]) -> &[u8]
    ensures line { result.now ≡ line_without_return line.now }
    ensures within { length result.now ≤ length line.now }
{
    match line.split_last() {
        Some((b'\r', front)) => front,
        _ => line,
    }
}

/// How many bytes of a text stand before its first LF.
fn line_len(text: &[u8]) -> usize
    ensures len { result ≡ prefix_len (λ b. not (b == 10)) text.now }
    ensures within { result ≤ length text.now }
{
    for (at, byte) in text.iter().enumerate() {
        if *byte == b'\n' {
            return at;
        }
    }
    text.len()
}

/// The first line of a text, and what stands behind its LF, if it has one.
#[tactic(auto, using(crate::proofs::Bytes::lines_in_first))]
pub(crate) fn next_line(text: &[u8]) -> (&[u8], Option<&[u8]>)
    ensures lines { lines_in text.now ≡ result.0.now ∷ lines_behind (option_copied result.1) }
    ensures within { length result.0.now ≤ length text.now }
    ensures less { bytes_behind (option_copied result.1) ≤ length text.now }
{
    let (line, behind) = text.split_at(line_len(text));
    match behind.split_first() {
        Some((_, rest)) => (without_return(line), Some(rest)),
        None => (without_return(line), None),
    }
}
