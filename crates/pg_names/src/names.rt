ghost use Rattle.std.specs.Prelude.{◌≡◌, ◌↔◌, ◌<◌, ◌++◌, ◌∷◌, [], true, false, is_some, map, IfSome, IsTrue, OnErr, OnOk, length};
ghost use Rattle.std.specs.Option.{option_copied};
ghost use Rattle.pg_lists.specs.Numbered.{item_at};
ghost use Rattle.pg_names.specs.Names.{are_distinct, is_among, is_name, number_of};

use crate::Name;
use indexmap::IndexSet;
use pg_lists::{IsSame, TryCopy};
use std::alloc::{AllocError, Global};
use std::marker::Model;

/// Names that all differ, in the order in which they were put here. Each is found by hashing.
#[derive(Drop)]
pub struct Names {
    names: IndexSet<Vec<u8>>,
}

impl Model for Names {
    ghost use Rattle.std.specs.Prelude.{ℕ, List, ◌≡◌, map, true};
    ghost use Rattle.std.specs.List.{list_all};
    ghost use Rattle.pg_names.specs.Names.{are_distinct, is_name};

    ghost Value = { List (List ℕ) };

    ghost view = { λ n. map (λ bytes. bytes.items) n.names.keys };

    ghost invariant = { λ n. (list_all is_name (map (λ bytes. bytes.items) n.names.keys) ≡ true)
        × (are_distinct (map (λ bytes. bytes.items) n.names.keys) ≡ true) };
}

impl Names {
    /// No names.
    pub fn new(alloc: Global) -> Names
        ensures { result ≡ [] }
    {
        Names {
            names: IndexSet::new(alloc),
        }
    }

    /// How many names there are.
    pub fn len(&self) -> usize
        ensures length { result ≡ length self.now }
        ensures distinct { are_distinct self.now ≡ true }
    {
        self.names.len()
    }

    /// The name of a number, counted from 0, or `None` past the end.
    #[tactic(auto, using(crate::proofs::Distinct::all_at))]
    pub fn get(&self, number: usize) -> Option<&[u8]>
        ensures name { option_copied result ≡ item_at self.now number }
        ensures is_name { IfSome result (λ name. is_name name.now ≡ true) }
        ensures distinct { are_distinct self.now ≡ true }
    {
        let name = self.names.get_index(number)?;
        Some(name.as_slice())
    }

    /// The number of a name, counted from 0, or `None` where it is not among these.
    #[tactic(auto, using(crate::proofs::Mapped::position_map, crate::proofs::Mapped::any_map, crate::proofs::Mapped::length_map))]
    pub fn find(&self, name: &[u8]) -> Option<usize>
        ensures number { result ≡ number_of self.now name.now }
        ensures found { is_some result ≡ is_among self.now name.now }
        ensures within { IfSome result (λ number. number < length self.now) }
        ensures distinct { are_distinct self.now ≡ true }
    {
        self.names.get_index_of(name)
    }

    /// Puts a name behind the last, or refuses for want of memory alone and leaves the names as
    /// they were.
    pub fn push(&mut self, name: Name) -> Result<(), AllocError>
        requires { is_among self.old name ≡ false }
        ensures ok { OnOk result (self.new ≡ self.old ++ name ∷ []) }
        ensures err { OnErr result (self.new ≡ self.old) }
    {
        self.names.insert(name.into_bytes())?;
        Ok(())
    }
}

impl TryCopy for Names {
    #[tactic(auto, using(crate::proofs::Distinct::absent_before, crate::proofs::Fronts::front_more, crate::proofs::Fronts::front_whole))]
    fn try_copy(&self, alloc: Global) -> Result<Names, AllocError> {
        let mut copy = Names::new(alloc);
        while let Some(name) = self.get(copy.len()) {
            copy.push(Name::from_slice(alloc, name)?)?;
        }
        Ok(copy)
    }
}

impl IsSame for Names {
    fn is_same(&self, other: &Names) -> bool {
        are_same(self.names.as_slice(), other.names.as_slice())
    }
}

/// Whether the same bytes stand in both, in the same order.
fn are_same(a: &[Vec<u8>], b: &[Vec<u8>]) -> bool
    ensures { IsTrue result ↔ (map (λ bytes. bytes.items) a.now ≡ map
        (λ bytes. bytes.items) b.now) }
{
    if a.len() != b.len() {
        return false;
    }
    let mut at = 0;
    while at < a.len() {
        if !is_same_bytes(&a[at], &b[at]) {
            return false;
        }
        at += 1;
    }
    true
}

fn is_same_bytes(a: &Vec<u8>, b: &Vec<u8>) -> bool
    ensures { IsTrue result ↔ (a.now.items ≡ b.now.items) }
{
    a.as_slice() == b.as_slice()
}
