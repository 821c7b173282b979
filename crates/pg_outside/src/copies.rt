ghost use Rattle.std.specs.Prelude.{◌≡◌, ◌+◌, ◌<◌, ◌≤◌, min, [], length, ◌++◌, take, drop, vec_len, vec_capacity};

/// Copies the front of `from` over the front of `into`, as much as there is and fits.
pub(crate) fn copy_front(from: &[u8], into: &mut [u8]) -> usize
    ensures count { result ≡ min (length into.new) (length from.now) }
    ensures bytes { from.now ≡ take result into.new ++ drop result from.now }
    ensures end { result ≡ 0 → 0 < length into.new → from.now ≡ [] }
{
    let count = into.len().min(from.len());
    into[..count].copy_from_slice(&from[..count]);
    count
}

/// Appends a piece to a list that has the room for it.
pub(crate) fn append_reserved(bytes: &mut Vec<u8>, piece: &[u8])
    requires { vec_len bytes.old + length piece.now ≤ vec_capacity bytes.old }
    ensures items { bytes.new.items ≡ bytes.old.items ++ piece.now }
    ensures capacity { vec_capacity bytes.old ≤ vec_capacity bytes.new }
{
    if bytes.extend_from_slice(piece).is_err() {
        unreachable!()
    }
}
