ghost use Rattle.std.specs.Prelude.{◌≡◌, ◌<◌, ◌≤◌, ◌++◌, ◌∷◌, [], length};

use std::marker::Model;

/// A ring of waits: sessions of which each waits for the next, and the last for the first. There
/// are at most 32 sessions.
#[derive(Debug, Drop)]
pub struct Ring {
    sessions: [u32; 32],
    count: usize,
}

impl Model for Ring {
    ghost use Rattle.std.specs.Prelude.{ℕ, ◌≤◌, List, take};

    ghost Value = { List ℕ };

    ghost view = { λ r. take r.count r.sessions };

    ghost invariant = { λ r. r.count ≤ 32 };
}

impl Ring {
    /// One session.
    pub(crate) fn of(session: u32) -> Ring
        ensures { result ≡ session ∷ [] }
    {
        Ring {
            sessions: [session; 32],
            count: 1,
        }
    }

    /// One session more behind the others.
    pub(crate) fn push(&mut self, session: u32)
        requires { length self.old < 32 }
        ensures { self.new ≡ self.old ++ session ∷ [] }
    {
        self.sessions[self.count] = session;
        self.count += 1;
    }

    /// The sessions in order.
    pub fn as_slice(&self) -> &[u32]
        ensures all { result.now ≡ self.now }
        ensures few { length self.now ≤ 32 }
    {
        &self.sessions[..self.count]
    }
}
