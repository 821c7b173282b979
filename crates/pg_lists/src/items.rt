ghost use Rattle.std.specs.Prelude.{◌≡◌, ◌↔◌, ◌<◌, ◌++◌, ◌∷◌, [], IsTrue, MatchOption, OnErr, OnOk, length};
ghost use Rattle.std.specs.Option.{option_copied, option_copied_mut};
ghost use Rattle.pg_lists.specs.Numbered.{item_at};

use crate::TryCopy;
use std::alloc::{AllocError, Global};
use std::marker::Model;

/// A `Vec` that contracts see as the list of its items.
///
/// Two of them with the same items are equal, whatever room each has.
#[derive(Debug, Drop)]
pub struct Items<T> {
    items: Vec<T>,
}

impl<T> Model for Items<T> {
    ghost use Rattle.std.specs.Prelude.{List};
    ghost use Rattle.std.specs.Coded.{coded_list};

    ghost Value = { List T };

    ghost coded = { coded_list T.code };

    ghost view = { λ list. list.items.items };
}

impl<T> Items<T> {
    ghost use Rattle.pg_lists.specs.Lending.{LendsItem, LendsItemIf};
    ghost use Rattle.std.specs.Borrow.{sem};

    /// The empty list, which takes no memory.
    pub fn new(alloc: Global) -> Items<T>
        ensures { result ≡ [] }
    {
        Items {
            items: Vec::new(alloc),
        }
    }

    /// The list of a `Vec`'s items.
    pub fn from_vec(items: Vec<T>) -> Items<T>
        ensures { result ≡ items.items }
    {
        Items { items }
    }

    /// All items, in order.
    pub fn as_slice(&self) -> &[T]
        ensures { result.now ≡ self.now }
    {
        self.items.as_slice()
    }

    /// The number of items.
    pub fn len(&self) -> usize
        ensures { result ≡ length self.now }
    {
        self.items.len()
    }

    /// Whether there is no item.
    pub fn is_empty(&self) -> bool
        ensures { IsTrue result ↔ (self.now ≡ []) }
    {
        self.items.is_empty()
    }

    /// The item of a number, counted from 0, or `None` past the end.
    pub fn get(&self, number: usize) -> Option<&T>
        ensures { option_copied result ≡ item_at self.now number }
    {
        self.items.get(number)
    }

    /// The item of a number, counted from 0, to be changed where it stands.
    pub fn item_mut(&mut self, number: usize) -> &mut T
        requires { number < length self.old }
        ensures* writes_back { sem 𝓛 (LendsItem T.row self.entry number result) }
        ensures value { item_at self.old number ≡ Some result.now }
    {
        &mut self.items[number]
    }

    /// The item of a number, counted from 0, to be changed where it stands, or `None` past the end.
    pub fn get_mut(&mut self, number: usize) -> Option<&mut T>
        ensures* writes_back { sem 𝓛 (LendsItemIf T.row self.entry number result) }
        ensures value { option_copied_mut result ≡ item_at self.old number }
    {
        self.items.get_mut(number)
    }

    /// Gives the items up as a `Vec`, and takes no memory.
    pub fn into_vec(self) -> Vec<T>
        ensures { result.items ≡ self }
    {
        let Items { items } = self;
        items
    }

    /// Takes the last item off, and takes no memory.
    pub fn pop(&mut self) -> Option<T>
        ensures { MatchOption result ((self.old ≡ []) × (self.new ≡ []))
            (λ last. self.old ≡ self.new ++ last ∷ []) }
    {
        self.items.pop()
    }
}

impl<T: Drop> Items<T> {
    /// Puts an item behind the last, or refuses for want of memory alone and leaves the list as it
    /// was.
    pub fn push(&mut self, item: T) -> Result<(), AllocError>
        ensures ok { OnOk result (self.new ≡ self.old ++ item ∷ []) }
        ensures err { OnErr result (self.new ≡ self.old) }
    {
        self.items.push(item)?;
        Ok(())
    }
}

impl<T: TryCopy> TryCopy for Items<T> {
    fn try_copy(&self, alloc: Global) -> Result<Items<T>, AllocError> {
        let mut items = Vec::with_capacity(alloc, self.items.len())?;
        for item in &self.items {
            items.push(item.try_copy(alloc)?)?;
        }
        Ok(Items { items })
    }
}
