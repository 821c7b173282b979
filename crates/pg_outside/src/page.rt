ghost use Rattle.std.specs.Prelude.{◌≡◌, ◌≤◌, [], min, length, IfOk, Some};
ghost use Rattle.std.specs.Result.{is_err};
ghost use Rattle.std.specs.Io.{WritesAtMost};
ghost use Rattle.std.specs.Io.KnownBytes.{WriteAppends};
ghost use Rattle.pg_outside.specs.Causes.{HasCause};
ghost use Rattle.pg_outside.specs.Writes.{TakesSome};
ghost use Rattle.pg_outside.specs.Page.{is_refusing, after_write};

use crate::bytes::is_among;
use crate::copies::append_reserved;
use crate::sink::Sink;
use crate::source::Failed;
use std::alloc::{AllocError, Global};
use std::marker::Model;

/// A sink in memory with room for so many bytes, of which chosen writes fail.
#[derive(Debug, Drop)]
pub struct Page {
    taken: Vec<u8>,
    room: u32,
    most: u32,
    fails: Vec<u32>,
    next: u64,
    faults: u64,
}

impl Model for Page {
    ghost use Rattle.std.specs.Prelude.{◌+◌, ◌<◌, ◌≤◌, vec_len, vec_capacity};
    ghost use Rattle.pg_outside.specs.Page.{PageView};

    ghost Value = { PageView };

    ghost view = { λ p. record {
      taken = p.taken.items;
      room = p.room;
      most = p.most;
      fails = p.fails.items;
      next = p.next;
      faults = p.faults;
    } };

    // There is memory for all that has room, and each call can take a byte.
    ghost invariant = { λ p. (vec_len p.taken + p.room ≤ vec_capacity p.taken) × (0 < p.most) };
}

impl Page {
    /// An empty page with room for `room` bytes, which takes at most `most` bytes a call. The
    /// writes with the numbers in `fails`, counted from 1, fail, and so do those that find no room.
    /// All its memory is taken here, and none by a write.
    pub fn new(alloc: Global, room: u32, most: u32, fails: &[u32]) -> Result<Page, AllocError>
        requires { 1 ≤ most }
        ensures { IfOk result (λ page. page ≡
            record {
              taken = [];
              room = room;
              most = most;
              fails = fails.now;
              next = 1;
              faults = 0;
            }) }
    {
        Ok(Page {
            taken: Vec::with_capacity(alloc, room as usize)?,
            room,
            most,
            fails: Vec::from_slice(alloc, fails)?,
            next: 1,
            faults: 0,
        })
    }

    /// The bytes taken so far.
    pub fn taken(&self) -> &[u8]
        ensures { result.now ≡ self.now.taken }
    {
        self.taken.as_slice()
    }
}

impl Sink for Page {
    ghost taken = { λ p. Some p.taken };

    ghost faults = { λ p. p.faults };

    /// Takes as much of the piece as there is room for, at most `most` bytes. It fails where the
    /// number of this call is one of those that fail, or no room is left.
    fn write(&mut self, piece: &[u8]) -> Result<usize, Failed>
        ensures bound { WritesAtMost result piece.now }
        ensures some { TakesSome result piece.now }
        ensures bytes { WriteAppends (Some self.old.taken) (Some self.new.taken) result piece.now }
        ensures cause { HasCause self.old.faults self.new.faults result }
        ensures count { IfOk result (λ count. count ≡ min (length piece.now)
            (min self.old.most self.old.room)) }
        ensures fails { is_err result ≡ is_refusing self.old }
        ensures after { self.new ≡ after_write self.old piece.now result }
    {
        let call = self.next;
        self.next = call.saturating_add(1);
        if is_among(&self.fails, call) || self.room == 0 {
            self.faults = self.faults.saturating_add(1);
            return Err(Failed);
        }
        let count = piece.len().min(self.most.min(self.room) as usize);
        append_reserved(&mut self.taken, &piece[..count]);
        self.room -= count as u32;
        Ok(count)
    }
}
