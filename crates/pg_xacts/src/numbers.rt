ghost use Rattle.std.specs.Prelude.{◌≡◌, filter, nat_eq, not};
ghost use Rattle.std.specs.List.{list_any};
ghost use Rattle.pg_xacts.specs.Rising.{IsRising};

/// Whether a number is among rising ones.
#[tactic(auto, using(crate::proofs::Rising::is_found))]
pub fn contains(numbers: &[u32], number: u32) -> bool
    requires { IsRising 0 numbers.now }
    ensures { result ≡ list_any (nat_eq number) numbers.now }
{
    numbers.binary_search(&number).is_ok()
}

/// Takes a number out of rising ones, and takes no memory.
#[tactic(auto, using(crate::proofs::Rising::is_taken_out))]
pub fn take_out(numbers: &mut Vec<u32>, number: u32)
    requires { IsRising 0 numbers.old.items }
    ensures { numbers.new.items ≡ filter (λ other. not (nat_eq other number)) numbers.old.items }
{
    if let Ok(place) = numbers.binary_search(&number) {
        numbers.remove(place);
    }
}
