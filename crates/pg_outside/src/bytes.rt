ghost use Rattle.std.specs.Prelude.{◌≡◌, min, length, IfOk, Ok, Some};
ghost use Rattle.std.specs.Result.{is_err};
ghost use Rattle.std.specs.Io.{ReadsAtMost};
ghost use Rattle.std.specs.Io.KnownBytes.{ReadConsumes};
ghost use Rattle.pg_outside.specs.Causes.{HasCause};
ghost use Rattle.pg_outside.specs.Bytes.{is_failing, after_read};

use crate::copies::copy_front;
use crate::source::{Failed, Source};
use std::alloc::{AllocError, Global};
use std::marker::Model;

/// Bytes in memory as a source that never fails.
#[derive(Debug, Drop)]
pub struct PlainBytes {
    bytes: Vec<u8>,
    at: usize,
}

impl Model for PlainBytes {
    ghost use Rattle.std.specs.Prelude.{ℕ, ◌≤◌, List, drop, vec_len};

    ghost Value = { List ℕ };

    ghost view = { λ s. drop s.at s.bytes.items };

    ghost invariant = { λ s. s.at ≤ vec_len s.bytes };
}

impl PlainBytes {
    /// A source of these bytes.
    pub fn new(alloc: Global, bytes: &[u8]) -> Result<PlainBytes, AllocError>
        ensures { IfOk result (λ source. source ≡ bytes.now) }
    {
        Ok(PlainBytes {
            bytes: Vec::from_slice(alloc, bytes)?,
            at: 0,
        })
    }
}

impl Source for PlainBytes {
    ghost left = { λ s. Some s };

    ghost faults = { λ _. 0 };

    /// Gives as many bytes as are left and fit.
    fn read(&mut self, into: &mut [u8]) -> Result<usize, Failed>
        ensures bound { ReadsAtMost result into.new }
        ensures bytes { ReadConsumes (Some self.old) (Some self.new) result into.new }
        ensures cause { HasCause 0 0 result }
        ensures count { result ≡ Ok (min (length into.new) (length self.old)) }
    {
        let count = copy_front(&self.bytes[self.at..], into);
        self.at += count;
        Ok(count)
    }
}

/// Bytes in memory as a source of which chosen reads fail.
#[derive(Debug, Drop)]
pub struct Bytes {
    rest: PlainBytes,
    fails: Vec<u32>,
    next: u64,
    faults: u64,
}

impl Model for Bytes {
    ghost use Rattle.pg_outside.specs.Bytes.{BytesView};

    ghost Value = { BytesView };

    ghost view = { λ s. record {
      left = s.rest;
      fails = s.fails.items;
      next = s.next;
      faults = s.faults;
    } };
}

impl Bytes {
    /// A source of these bytes whose reads with the numbers in `fails`, counted from 1, fail.
    pub fn new(alloc: Global, bytes: &[u8], fails: &[u32]) -> Result<Bytes, AllocError>
        ensures { IfOk result (λ source. source ≡
            record { left = bytes.now; fails = fails.now; next = 1; faults = 0 }) }
    {
        Ok(Bytes {
            rest: PlainBytes::new(alloc, bytes)?,
            fails: Vec::from_slice(alloc, fails)?,
            next: 1,
            faults: 0,
        })
    }
}

impl Source for Bytes {
    ghost left = { λ s. Some s.left };

    ghost faults = { λ s. s.faults };

    /// Gives as many bytes as are left and fit, or fails where the number of this call is one of
    /// those that fail.
    fn read(&mut self, into: &mut [u8]) -> Result<usize, Failed>
        ensures bound { ReadsAtMost result into.new }
        ensures bytes { ReadConsumes (Some self.old.left) (Some self.new.left) result into.new }
        ensures cause { HasCause self.old.faults self.new.faults result }
        ensures count { IfOk result (λ count. count ≡ min (length into.new)
            (length self.old.left)) }
        ensures fails { is_err result ≡ is_failing self.old.fails self.old.next }
        ensures after { self.new ≡ after_read self.old result }
    {
        let call = self.next;
        self.next = call.saturating_add(1);
        if is_among(&self.fails, call) {
            self.faults = self.faults.saturating_add(1);
            return Err(Failed);
        }
        self.rest.read(into)
    }
}

/// Whether the call of this number is one of those that fail.
pub(crate) fn is_among(fails: &[u32], call: u64) -> bool
    ensures { result ≡ is_failing fails.now call }
{
    fails.iter().any(|number| u64::from(*number) == call)
}
