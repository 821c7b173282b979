use crate::Exprs;
use pg_exprs::Expr;
use pg_lists::{IsSame, TryCopy};
use pg_names::Name;
use std::alloc::{AllocError, Global};

/// What names the unique indexes of an ON CONFLICT. Its expressions name columns as those of source
/// 0.
#[derive(Drop)]
pub enum Target {
    /// No target is written: every unique index.
    Any,
    /// `(elements) [WHERE predicate]`; a column by itself is an element like any other expression.
    Elements {
        elements: Exprs,
        predicate: Option<Expr>,
    },
    /// `ON CONSTRAINT name`
    Constraint(Name),
}

impl TryCopy for Target {
    fn try_copy(&self, alloc: Global) -> Result<Target, AllocError> {
        match self {
            Target::Any => Ok(Target::Any),
            Target::Elements {
                elements,
                predicate,
            } => {
                let elements = elements.try_copy(alloc)?;
                let predicate = predicate.try_copy(alloc)?;
                Ok(Target::Elements {
                    elements,
                    predicate,
                })
            }
            Target::Constraint(name) => Ok(Target::Constraint(name.try_copy(alloc)?)),
        }
    }
}

impl IsSame for Target {
    fn is_same(&self, other: &Target) -> bool {
        match (self, other) {
            (Target::Any, Target::Any) => true,
            (
                Target::Elements {
                    elements: a,
                    predicate: p,
                },
                Target::Elements {
                    elements: b,
                    predicate: q,
                },
            ) => a.is_same(b) && p.is_same(q),
            (Target::Constraint(a), Target::Constraint(b)) => a.is_same(b),
            _ => false,
        }
    }
}
