ghost use Rattle.std.specs.Prelude.{◌≡◌, map};
ghost use Rattle.std.specs.Option.{option_copied};

use pg_values::{Text, Value};
use std::marker::Model;

/// What an expression is evaluated over: for each source its row, or `None` where the source is
/// absent, and the text of `merge_action()`, which only RETURNING of a MERGE has.
#[derive(Drop)]
pub struct Env<'rows, 'values> {
    rows: &'rows [Option<&'values [Value]>],
    action: Option<&'values Text>,
}

impl<'rows, 'values> Model for Env<'rows, 'values> {
    ghost use Rattle.std.specs.Prelude.{map};
    ghost use Rattle.std.specs.Option.{option_copied};
    ghost use Rattle.pg_exprs.specs.Environment.{Environment};

    ghost Value = { Environment };

    ghost view = { λ e. record {
      rows = map option_copied e.rows.now;
      action = option_copied e.action;
    } };
}

impl<'rows, 'values> Env<'rows, 'values> {
    ghost use Rattle.pg_exprs.specs.Environment.{column_of};

    /// The rows of the sources in their order, and the text of `merge_action()`.
    pub fn new(
        rows: &'rows [Option<&'values [Value]>],
        action: Option<&'values Text>,
    ) -> Env<'rows, 'values>
        ensures { result ≡ record {
          rows = map option_copied rows.now;
          action = option_copied action.entry;
        } }
    {
        Env { rows, action }
    }

    /// The value of a column of a source, both numbered from 0: `None`, which is NULL, where the
    /// source is absent or has no such column.
    pub fn column(&self, source: u32, column: u32) -> Option<&'values Value>
        ensures { option_copied result ≡ column_of self.now source column }
    {
        let row = (*self.rows.get(source as usize)?)?;
        row.get(column as usize)
    }

    /// The text of `merge_action()`.
    pub fn action(&self) -> Option<&'values Text>
        ensures { option_copied result ≡ self.now.action }
    {
        self.action
    }
}
