ghost use Rattle.std.specs.Prelude.{◌≡◌, IfOk, IsTrue, true};
ghost use Rattle.std.specs.Str.{bytes_eq};
ghost use Rattle.pg_lexer.specs.Bytes.{is_name, is_text};

use std::alloc::{AllocError, Global};
use std::marker::Model;

/// A name, folded to lower case: 1 to 63 letters, digits and `_`, no digit first.
#[derive(Debug, Drop)]
pub struct NameText {
    bytes: Vec<u8>,
}

impl Model for NameText {
    ghost use Rattle.std.specs.Prelude.{◌≡◌, ℕ, List, true};
    ghost use Rattle.pg_lexer.specs.Bytes.{is_name};

    ghost Value = { List ℕ };

    ghost view = { λ n. n.bytes.items };

    ghost invariant = { λ n. is_name n.bytes.items ≡ true };
}

impl NameText {
    /// A name of these bytes: 1 to 63 lower-case letters, digits and `_`, no digit first.
    pub fn from_slice(alloc: Global, bytes: &[u8]) -> Result<NameText, AllocError>
        requires { IsTrue (is_name bytes.now) }
        ensures { IfOk result (λ name. name ≡ bytes.now) }
    {
        let bytes = Vec::from_slice(alloc, bytes)?;
        Ok(NameText { bytes })
    }

    /// The bytes of the name.
    pub fn as_bytes(&self) -> &[u8]
        ensures value { result.now ≡ self.now }
        ensures name { IsTrue (is_name self.now) }
    {
        self.bytes.as_slice()
    }

    /// The same name once more; `AllocError` where there is no room for it.
    pub fn copy(&self, alloc: Global) -> Result<NameText, AllocError>
        ensures { IfOk result (λ name. name ≡ self.now) }
    {
        let bytes = Vec::from_slice(alloc, self.bytes.as_slice())?;
        Ok(NameText { bytes })
    }
}

impl PartialEq for NameText {
    ghost use Rattle.std.specs.Str.{bytes_eq};
    ghost use Rattle.std.proofs.Common.{rules};
    ghost use Rattle.std.specs.Cmp.Rules.{comparing};

    ghost eq = { λ a b. bytes_eq a b };

    ghost laws = { Prim.search (comparing, rules) };

    fn eq(&self, other: &NameText) -> bool {
        self.as_bytes() == other.as_bytes()
    }
}

impl Eq for NameText {
    ghost use Rattle.std.proofs.Common.{rules};
    ghost use Rattle.std.specs.Cmp.Rules.{comparing};

    ghost laws = { Prim.search (comparing, rules) };
}

/// The value of a text literal: at most 4,096 bytes from 0x20 to 0x7E.
#[derive(Debug, Drop)]
pub struct QuotedText {
    bytes: Vec<u8>,
}

impl Model for QuotedText {
    ghost use Rattle.std.specs.Prelude.{◌≡◌, ℕ, List, true};
    ghost use Rattle.pg_lexer.specs.Bytes.{is_text};

    ghost Value = { List ℕ };

    ghost view = { λ t. t.bytes.items };

    ghost invariant = { λ t. is_text t.bytes.items ≡ true };
}

impl QuotedText {
    pub(crate) fn new(bytes: Vec<u8>) -> QuotedText
        requires { is_text bytes.items ≡ true }
        ensures { result ≡ bytes.items }
    {
        QuotedText { bytes }
    }

    /// The bytes of the text, each `''` as one `'`.
    pub fn as_bytes(&self) -> &[u8]
        ensures value { result.now ≡ self.now }
        ensures text { IsTrue (is_text self.now) }
    {
        self.bytes.as_slice()
    }

    /// The same text once more; `AllocError` where there is no room for it.
    pub fn copy(&self, alloc: Global) -> Result<QuotedText, AllocError>
        ensures { IfOk result (λ text. text ≡ self.now) }
    {
        let bytes = Vec::from_slice(alloc, self.bytes.as_slice())?;
        Ok(QuotedText { bytes })
    }
}

impl PartialEq for QuotedText {
    ghost use Rattle.std.specs.Str.{bytes_eq};
    ghost use Rattle.std.proofs.Common.{rules};
    ghost use Rattle.std.specs.Cmp.Rules.{comparing};

    ghost eq = { λ a b. bytes_eq a b };

    ghost laws = { Prim.search (comparing, rules) };

    fn eq(&self, other: &QuotedText) -> bool {
        self.as_bytes() == other.as_bytes()
    }
}

impl Eq for QuotedText {
    ghost use Rattle.std.proofs.Common.{rules};
    ghost use Rattle.std.specs.Cmp.Rules.{comparing};

    ghost laws = { Prim.search (comparing, rules) };
}
