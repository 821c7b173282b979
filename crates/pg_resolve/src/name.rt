ghost use Rattle.std.specs.Prelude.{◌≡◌, IfOk, IfErr};
ghost use Rattle.pg_resolve.specs.declared.fault.AnalyseFault.TheVariants.{Memory};

use crate::AnalyseFault;
use pg_lexer::NameText;
use pg_names::Name;
use std::alloc::{AllocError, Global};

/// The name that is written.
#[tactic(auto, using(crate::proofs::Written::written_is_name))]
pub fn name_of(alloc: Global, text: &NameText) -> Result<Name, AllocError>
    ensures { IfOk result (λ name. name ≡ text.now) }
{
    Name::from_slice(alloc, text.as_bytes())
}

/// The place of an item in a list, as a number of a table, a source or a column.
pub fn number(place: usize) -> Result<u32, AnalyseFault>
    ensures ok { IfOk result (λ number. number ≡ place) }
    ensures err { IfErr result (λ fault. fault ≡ Memory) }
{
    let Ok(number) = u32::try_from(place) else {
        return Err(AnalyseFault::Memory);
    };
    Ok(number)
}
