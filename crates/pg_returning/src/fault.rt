use pg_exprs::EvalFault;
use pg_model::SqlError;
use pg_values::NumberFault;
use std::alloc::AllocError;

/// Why a statement has no candidates.
#[derive(Debug, Drop)]
pub enum PlanFault {
    /// The first error of the statement.
    Error(SqlError),
    /// The plan did not get the memory that it needs.
    Memory,
}

impl From<AllocError> for PlanFault {
    ghost use Rattle.std.specs.Prelude.{◌≡◌};
    ghost use Rattle.pg_returning.specs.declared.fault.PlanFault.TheVariants.{Memory};

    ghost from_gives = { λ _ fault. fault ≡ Memory };

    fn from(_refused: AllocError) -> PlanFault {
        PlanFault::Memory
    }
}

impl From<EvalFault> for PlanFault {
    ghost use Rattle.std.specs.Prelude.{◌≡◌};
    ghost use Rattle.pg_returning.specs.Outcomes.{evaluation_fault};

    ghost from_gives = { λ cause fault. fault ≡ evaluation_fault cause };

    fn from(cause: EvalFault) -> PlanFault {
        match cause {
            EvalFault::IntRange => PlanFault::Error(SqlError::IntRange),
            EvalFault::BigRange => PlanFault::Error(SqlError::BigRange),
            EvalFault::ZeroDivisor => PlanFault::Error(SqlError::ZeroDivisor),
            EvalFault::TooLong => PlanFault::Error(SqlError::TooLong),
            EvalFault::Memory => PlanFault::Memory,
        }
    }
}

impl From<NumberFault> for PlanFault {
    ghost use Rattle.std.specs.Prelude.{◌≡◌};
    ghost use Rattle.pg_returning.specs.Outcomes.{number_fault};

    ghost from_gives = { λ cause fault. fault ≡ number_fault cause };

    fn from(cause: NumberFault) -> PlanFault {
        match cause {
            NumberFault::IntRange => PlanFault::Error(SqlError::IntRange),
            NumberFault::BigRange => PlanFault::Error(SqlError::BigRange),
            NumberFault::ZeroDivisor => PlanFault::Error(SqlError::ZeroDivisor),
        }
    }
}
