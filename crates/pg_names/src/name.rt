ghost use Rattle.std.specs.Prelude.{◌≡◌, ◌↔◌, IfOk, IsTrue, true};
ghost use Rattle.pg_names.specs.Names.{is_name};

use pg_lists::{IsSame, TryCopy};
use std::alloc::{AllocError, Global};
use std::marker::Model;

/// The name of a session, a table, a column or a constraint, folded to lower case.
///
/// Its bytes are lower-case letters, digits and `_`.
#[derive(Debug, Drop)]
pub struct Name {
    bytes: Vec<u8>,
}

impl Model for Name {
    ghost use Rattle.std.specs.Prelude.{ℕ, List, ◌≡◌, true};
    ghost use Rattle.pg_names.specs.Names.{is_name};

    ghost Value = { List ℕ };

    ghost view = { λ name. name.bytes.items };

    ghost invariant = { λ name. is_name name.bytes.items ≡ true };
}

impl Name {
    /// The name with these bytes.
    pub fn from_slice(alloc: Global, bytes: &[u8]) -> Result<Name, AllocError>
        requires { is_name bytes.now ≡ true }
        ensures { IfOk result (λ name. name ≡ bytes.now) }
    {
        let bytes = Vec::from_slice(alloc, bytes)?;
        Ok(Name { bytes })
    }

    /// The bytes of the name.
    pub fn as_slice(&self) -> &[u8]
        ensures bytes { result.now ≡ self.now }
        ensures name { is_name self.now ≡ true }
    {
        self.bytes.as_slice()
    }

    /// The name as its bytes.
    pub fn into_bytes(self) -> Vec<u8>
        ensures bytes { result.items ≡ self }
        ensures name { is_name self ≡ true }
    {
        let Name { bytes } = self;
        bytes
    }
}

impl TryCopy for Name {
    fn try_copy(&self, alloc: Global) -> Result<Name, AllocError> {
        Name::from_slice(alloc, self.as_slice())
    }
}

impl IsSame for Name {
    fn is_same(&self, other: &Name) -> bool {
        self.as_slice() == other.as_slice()
    }
}
