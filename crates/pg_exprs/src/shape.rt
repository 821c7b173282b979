ghost use Rattle.std.specs.Prelude.{◌≡◌, [], ◌∷◌, ◌++◌, OnOk, OnErr};

use pg_values::Kind;
use std::alloc::{AllocError, Global};
use std::marker::Model;

/// For each source the kinds of its columns, where `None` is a kind that is not known.
#[derive(Debug, Drop)]
pub struct Shape {
    sources: Vec<Vec<Option<Kind>>>,
}

impl Model for Shape {
    ghost use Rattle.std.specs.Prelude.{List, Option, map};
    ghost use Rattle.pg_values.specs.declared.value.Kind.{Kind};

    ghost Value = { List (List (Option Kind)) };

    ghost view = { λ s. map (λ columns. columns.items) s.sources.items };
}

impl Shape {
    ghost use Rattle.pg_exprs.specs.Columns.{column_kind};

    /// The shape without sources.
    pub fn new(alloc: Global) -> Shape
        ensures { result ≡ [] }
    {
        Shape {
            sources: Vec::new(alloc),
        }
    }

    /// Puts a source behind the others.
    pub fn push(&mut self, columns: Vec<Option<Kind>>) -> Result<(), AllocError>
        ensures ok { OnOk result (self.new ≡ self.old ++ columns.items ∷ []) }
        ensures err { OnErr result (self.new ≡ self.old) }
    {
        self.sources.push(columns)?;
        Ok(())
    }

    /// The kind of a column of a source, both numbered from 0: `None` where it is not known.
    pub fn column(&self, source: u32, column: u32) -> Option<Kind>
        ensures { result ≡ column_kind self.now source column }
    {
        *self.sources.get(source as usize)?.get(column as usize)?
    }
}
