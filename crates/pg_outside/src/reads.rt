ghost use Rattle.std.specs.Prelude.{◌≡◌, ℕ, ◌+◌, ◌<◌, ◌≤◌, List, length, vec_len, vec_capacity, IfOk, OnErr};
ghost use Rattle.std.specs.declared.option.Option.{Option};
ghost use Rattle.std.specs.Io.KnownBytes.{Consumes, IsAtEnd};
ghost use Rattle.pg_outside.specs.Causes.{HasCause, Rose};
ghost use Rattle.pg_outside.specs.Reads.{IfAll, IfTooLong, OnLost, ReadsWhole, ReadsFront};

use crate::copies::append_reserved;
use crate::source::{Failed, Source};
use pg_lists::Items;
use std::alloc::{AllocError, Global};

/// How many bytes one read asks for at most.
const BLOCK: usize = 65536;

/// What reading a source to its end has found.
#[derive(Debug, Drop)]
pub enum ReadAll {
    /// The bytes up to the end of the input, at most `limit`.
    All(Items<u8>),
    /// The first `limit + 1` bytes of a longer input.
    TooLong(Items<u8>),
    /// The source has failed.
    Failed,
    /// Memory was refused.
    Memory,
}

/// Reads a source to its end, or until more than `limit` bytes were read: of no input is more than
/// `limit + 1` bytes read.
pub fn read_all<S: Source>(alloc: Global, source: &mut S, limit: usize) -> ReadAll
    requires { limit < usize.MAX }
    ensures all { IfAll result (λ bytes. ReadsWhole (S.left source.old) (S.left source.new) bytes) }
    ensures within { IfAll result (λ bytes. length bytes ≤ limit) }
    ensures long { IfTooLong result
        (λ bytes. Consumes (S.left source.old) (S.left source.new) bytes) }
    ensures over { IfTooLong result (λ bytes. length bytes ≡ limit + 1) }
    ensures lost { OnLost result (ReadsFront (S.left source.old) (S.left source.new) limit) }
    ensures short { ReadsFront (S.left source.old) (S.left source.new) (limit + 1) }
    ensures later { S.faults source.old ≤ S.faults source.new }
    ensures failed { result ≡ ReadAll.Failed → Rose (S.faults source.old) (S.faults source.new) }
{
    let Ok(mut block) = blank(alloc, BLOCK) else {
        return ReadAll::Memory;
    };
    let mut bytes = Vec::new(alloc);
    while bytes.len() <= limit {
        let most = block.len().min(limit + 1 - bytes.len());
        if bytes.reserve(most).is_err() {
            return ReadAll::Memory;
        }
        match read_more(source, &mut block[..most], &mut bytes) {
            Ok(0) => return ReadAll::All(Items::from_vec(bytes)),
            Ok(_) => {}
            Err(_) => return ReadAll::Failed,
        }
    }
    ReadAll::TooLong(Items::from_vec(bytes))
}

/// Reads at most a block of bytes, appends them to `bytes` and answers how many they were.
fn read_more<S: Source>(
    source: &mut S,
    block: &mut [u8],
    bytes: &mut Vec<u8>,
) -> Result<usize, Failed>
    requires { vec_len bytes.old + length block.old ≤ vec_capacity bytes.old }
    ensures count { IfOk result (λ count. vec_len bytes.new ≡ vec_len bytes.old + count) }
    ensures within { IfOk result (λ count. count ≤ length block.new) }
    ensures stays { OnErr result (bytes.new.items ≡ bytes.old.items) }
    // What was read since any earlier moment is now these bytes.
    ensures read { (before : Option (List ℕ)) → Consumes before (S.left source.old) bytes.old.items
        → Consumes before (S.left source.new) bytes.new.items }
    ensures end { IfOk result (λ count. count ≡ 0 → 0 < length block.new → IsAtEnd
        (S.left source.new)) }
    ensures cause { HasCause (S.faults source.old) (S.faults source.new) result }
{
    let count = source.read(block)?;
    append_reserved(bytes, &block[..count]);
    Ok(count)
}

/// So many bytes to be written over.
fn blank(alloc: Global, len: usize) -> Result<Vec<u8>, AllocError>
    ensures { IfOk result (λ bytes. vec_len bytes ≡ len) }
{
    vec![in alloc; 0; len]
}
