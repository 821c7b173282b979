ghost use Rattle.std.specs.Prelude.{◌≡◌, ◌<◌, Some, length};
ghost use Rattle.pg_lists.specs.Numbered.{item_at};

use crate::session::Session;
use pg_lists::Items;
use pg_table::TableSet;
use pg_waits::Waits;
use pg_xacts::Xacts;

/// The tables, transactions, sessions and waits as a journal leaves them.
#[derive(Drop)]
pub struct Server {
    pub tables: TableSet,
    pub xacts: Xacts,
    pub sessions: Items<Session>,
    pub waits: Waits,
}

impl Server {
    /// The session of a number, counted from 0.
    pub fn session(&self, number: u32) -> &Session
        requires { number < length self.now.sessions }
        ensures { item_at self.now.sessions number ≡ Some result.now }
    {
        &self.sessions.as_slice()[number as usize]
    }
}
