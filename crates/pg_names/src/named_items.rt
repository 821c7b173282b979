ghost use Rattle.std.specs.Prelude.{◌≡◌, ◌↔◌, ◌<◌, ◌++◌, ◌∷◌, [], true, false, is_some, map, IfSome, IsTrue, OnErr, OnOk, length};
ghost use Rattle.std.specs.Option.{option_copied};
ghost use Rattle.pg_lists.specs.Numbered.{item_at};
ghost use Rattle.pg_names.specs.Names.{are_distinct, is_among, number_of};

use crate::{Named, Names};
use pg_lists::{IsSame, TryCopy, are_same};
use std::alloc::{AllocError, Global};
use std::marker::Model;

/// Items that have names, no two the same, in the order in which they were put here. Each is found
/// by its name by hashing.
#[derive(Drop)]
pub struct NamedItems<T: Named> {
    names: Names,
    items: Vec<T>,
}

impl<T: Named> Model for NamedItems<T> {
    ghost use Rattle.std.specs.Prelude.{List, ◌≡◌, map};
    ghost use Rattle.std.specs.Coded.{coded_list};

    ghost Value = { List T };

    ghost coded = { coded_list T.code };

    ghost view = { λ n. n.items.items };

    ghost invariant = { λ n. n.names ≡ map T.named n.items.items };
}

impl<T: Named> NamedItems<T> {
    /// No items, which takes no memory.
    pub fn new(alloc: Global) -> NamedItems<T>
        ensures { result ≡ [] }
    {
        NamedItems {
            names: Names::new(alloc),
            items: Vec::new(alloc),
        }
    }

    /// The number of items.
    pub fn len(&self) -> usize
        ensures length { result ≡ length self.now }
        ensures distinct { are_distinct (map T.named self.now) ≡ true }
    {
        let _ = self.names.len();
        self.items.len()
    }

    /// Whether there is no item.
    pub fn is_empty(&self) -> bool
        ensures { IsTrue result ↔ (self.now ≡ []) }
    {
        self.items.is_empty()
    }

    /// All items, in order.
    pub fn as_slice(&self) -> &[T]
        ensures items { result.now ≡ self.now }
        ensures distinct { are_distinct (map T.named self.now) ≡ true }
    {
        let _ = self.names.len();
        self.items.as_slice()
    }

    /// The item of a number, counted from 0, or `None` past the end.
    pub fn get(&self, number: usize) -> Option<&T>
        ensures item { option_copied result ≡ item_at self.now number }
        ensures distinct { are_distinct (map T.named self.now) ≡ true }
    {
        let _ = self.names.len();
        self.items.get(number)
    }

    /// The number of the item with this name, counted from 0, or `None` where no item has it.
    #[tactic(auto, using(crate::proofs::Mapped::length_map))]
    pub fn find(&self, name: &[u8]) -> Option<usize>
        ensures number { result ≡ number_of (map T.named self.now) name.now }
        ensures found { is_some result ≡ is_among (map T.named self.now) name.now }
        ensures within { IfSome result (λ number. number < length self.now) }
        ensures distinct { are_distinct (map T.named self.now) ≡ true }
    {
        self.names.find(name)
    }

    /// Puts an item behind the last, or refuses for want of memory alone and leaves the items as
    /// they were.
    pub fn push(&mut self, item: T) -> Result<(), AllocError>
        requires { is_among (map T.named self.old) (T.named item) ≡ false }
        ensures ok { OnOk result (self.new ≡ self.old ++ item ∷ []) }
        ensures err { OnErr result (self.new ≡ self.old) }
    {
        let name = item.name().try_copy(*self.items.allocator())?;
        self.items.reserve(1)?;
        self.names.push(name)?;
        self.items.push_reserved(item);
        Ok(())
    }
}

impl<T: TryCopy + Named> TryCopy for NamedItems<T> {
    #[tactic(auto, using(crate::proofs::Fronts::absent_next, crate::proofs::Fronts::front_more, crate::proofs::Fronts::front_whole))]
    fn try_copy(&self, alloc: Global) -> Result<NamedItems<T>, AllocError> {
        let mut copy = NamedItems::new(alloc);
        while let Some(item) = self.get(copy.len()) {
            copy.push(item.try_copy(alloc)?)?;
        }
        Ok(copy)
    }
}

impl<T: IsSame + Named> IsSame for NamedItems<T> {
    fn is_same(&self, other: &NamedItems<T>) -> bool {
        are_same(self.as_slice(), other.as_slice())
    }
}
