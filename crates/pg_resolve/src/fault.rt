use pg_exprs::KindFault;
use pg_model::SqlError;
use std::alloc::AllocError;

/// Why a statement is not analysed.
#[derive(Debug, Drop)]
pub enum AnalyseFault {
    /// The statement has a form that is not built yet.
    Later,
    /// The first error of the statement.
    Error(SqlError),
    /// The analysis did not get the memory that it needs.
    Memory,
}

impl From<AllocError> for AnalyseFault {
    ghost use Rattle.std.specs.Prelude.{◌≡◌};
    ghost use Rattle.pg_resolve.specs.declared.fault.AnalyseFault.TheVariants.{Memory};

    ghost from_gives = { λ e f. f ≡ Memory };

    fn from(_error: AllocError) -> AnalyseFault {
        AnalyseFault::Memory
    }
}

impl From<KindFault> for AnalyseFault {
    ghost use Rattle.std.specs.Prelude.{◌≡◌};
    ghost use Rattle.pg_resolve.specs.declared.fault.AnalyseFault.TheVariants.{Error};
    ghost use Rattle.pg_model.specs.declared.error.SqlError.TheVariants.{NoOperator};

    ghost from_gives = { λ e f. f ≡ Error NoOperator };

    fn from(fault: KindFault) -> AnalyseFault {
        match fault {
            KindFault::NoOperator => AnalyseFault::Error(SqlError::NoOperator),
        }
    }
}
