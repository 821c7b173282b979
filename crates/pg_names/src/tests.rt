ghost use Rattle.std.specs.Prelude.{◌≡◌, IfOk};
ghost use Rattle.std.specs.List.{list_all};
ghost use Rattle.pg_names.specs.Names.{is_name, is_name_byte as is_a_name_byte};

use super::*;
use pg_lists::{IsSame, TryCopy};
use std::alloc::{AllocError, Global};
use std::test::Fail;

fn is_name_byte(byte: u8) -> bool
    ensures { result ≡ is_a_name_byte byte }
{
    byte.is_ascii_lowercase() || byte.is_ascii_digit() || byte == b'_'
}

fn has_name_bytes(word: &[u8]) -> bool
    ensures { result ≡ list_all is_a_name_byte word.now }
{
    word.iter().all(|byte| is_name_byte(*byte))
}

/// The name that a word is; any other word ends the test.
fn name_of(alloc: Global, word: &[u8]) -> Result<Name, AllocError>
    ensures { IfOk result (λ name. name ≡ word.now) }
{
    if !has_name_bytes(word) {
        return Err(AllocError);
    }
    Name::from_slice(alloc, word)
}

/// The names in a text, with spaces between them, no two the same.
fn names_of(alloc: Global, text: &str) -> Result<Names, AllocError> {
    let mut names = Names::new(alloc);
    for word in text.split(' ') {
        let word = word.as_bytes();
        if names.find(word).is_some() {
            return Err(AllocError);
        }
        names.push(name_of(alloc, word)?)?;
    }
    Ok(names)
}

#[derive(Debug, Drop)]
struct Account {
    name: Name,
    balance: usize,
}

impl Named for Account {
    ghost named = { λ account. account.name };

    fn name(&self) -> &Name {
        &self.name
    }
}

impl TryCopy for Account {
    fn try_copy(&self, alloc: Global) -> Result<Account, AllocError> {
        Ok(Account {
            name: self.name.try_copy(alloc)?,
            balance: self.balance,
        })
    }
}

impl IsSame for Account {
    fn is_same(&self, other: &Account) -> bool {
        self.name.is_same(&other.name) && self.balance == other.balance
    }
}

/// An account for each name in a text, with the balances 1, 2 and so on.
fn accounts_of(alloc: Global, text: &str) -> Result<NamedItems<Account>, AllocError> {
    let mut accounts = NamedItems::new(alloc);
    for (at, word) in text.split(' ').enumerate() {
        let word = word.as_bytes();
        if accounts.find(word).is_some() {
            return Err(AllocError);
        }
        accounts.push(Account {
            name: name_of(alloc, word)?,
            balance: at.saturating_add(1),
        })?;
    }
    Ok(accounts)
}

#[test]
fn a_name_keeps_its_bytes(rt: HostRuntime) -> Result<(), Fail> {
    let alloc = rt.alloc();
    let name = name_of(alloc, b"t_1")?;
    assert_eq!(rt; name.as_slice(), b"t_1".as_slice());
    let copied = name.try_copy(alloc)?;
    assert!(rt; copied.is_same(&name));
    assert!(rt; !copied.is_same(&name_of(alloc, b"t_2")?));
    assert_eq!(rt; copied.into_bytes().as_slice(), b"t_1".as_slice());
    Ok(())
}

#[test]
fn each_of_forty_names_is_found(rt: HostRuntime) -> Result<(), Fail> {
    let alloc = rt.alloc();
    let mut names = Names::new(alloc);
    for number in 0..40usize {
        let word = format!(in alloc; "n{number}")?;
        assert_eq!(rt; names.len(), number);
        if names.find(word.as_bytes()).is_none() {
            names.push(name_of(alloc, word.as_bytes())?)?;
        }
    }
    for number in 0..40usize {
        let word = format!(in alloc; "n{number}")?;
        assert_eq!(rt; names.find(word.as_bytes()), Some(number));
        assert_eq!(rt; names.get(number), Some(word.as_bytes()));
    }
    assert_eq!(rt; names.find(b"n40"), None);
    assert_eq!(rt; names.find(b"n"), None);
    assert_eq!(rt; names.get(40), None);
    Ok(())
}

#[test]
fn names_are_the_same_in_one_order_only(rt: HostRuntime) -> Result<(), Fail> {
    let alloc = rt.alloc();
    let names = names_of(alloc, "k v w")?;
    assert!(rt; names.try_copy(alloc)?.is_same(&names));
    assert!(rt; names_of(alloc, "k v w")?.is_same(&names));
    for other in ["k w v", "k v x", "k v", "k v w x"] {
        assert!(rt; !names_of(alloc, other)?.is_same(&names), "{other}");
    }
    Ok(())
}

#[test]
fn an_item_is_found_by_its_name(rt: HostRuntime) -> Result<(), Fail> {
    let alloc = rt.alloc();
    let accounts = accounts_of(alloc, "alice bob carol")?;
    assert_eq!(rt; accounts.len(), 3);
    assert!(rt; !accounts.is_empty());
    assert_eq!(rt; accounts.as_slice().len(), 3);
    for (number, word) in [b"alice".as_slice(), b"bob", b"carol"].iter().enumerate() {
        assert_eq!(rt; accounts.find(word), Some(number));
        let account = accounts.get(number).ok_or("no account")?;
        assert_eq!(rt; account.name().as_slice(), *word);
        assert_eq!(rt; account.balance, number.saturating_add(1));
    }
    assert_eq!(rt; accounts.find(b"dave"), None);
    assert!(rt; accounts.get(3).is_none());
    let none = NamedItems::<Account>::new(alloc);
    assert!(rt; none.is_empty());
    Ok(())
}

#[test]
fn named_items_are_the_same_where_each_is(rt: HostRuntime) -> Result<(), Fail> {
    let alloc = rt.alloc();
    let accounts = accounts_of(alloc, "alice bob carol")?;
    let copied = accounts.try_copy(alloc)?;
    assert!(rt; copied.is_same(&accounts));
    assert_eq!(rt; copied.find(b"carol"), Some(2));
    for other in [
        "alice carol bob",
        "alice bob dave",
        "alice bob",
        "alice bob carol dave",
    ] {
        assert!(rt; !accounts_of(alloc, other)?.is_same(&accounts), "{other}");
    }
    Ok(())
}
