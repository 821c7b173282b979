use super::Shared;
use pg_lists::{IsSame, Items, TryCopy};
use std::alloc::{AllocError, Global};
use std::ops::Deref;

fn digits(alloc: Global, text: &str) -> Result<Shared<Items<u8>>, AllocError> {
    let bytes = Vec::from_slice(alloc, text.as_bytes())?;
    Shared::new(alloc, Items::from_vec(bytes))
}

#[test]
fn a_copy_has_the_value_and_outlives_the_first_owner(rt: HostRuntime) -> Result<(), AllocError> {
    let alloc = rt.alloc();
    let first = digits(alloc, "12")?;
    let copy = first.try_copy(alloc)?;
    assert!(rt; copy.is_same(&first));
    drop(first);
    assert_eq!(rt; copy.deref().as_slice(), b"12".as_slice());
    assert_eq!(rt; copy.len(), 2);
    assert!(rt; copy.is_same(&digits(alloc, "12")?));
    assert!(rt; !copy.is_same(&digits(alloc, "13")?));
    assert!(rt; !copy.is_same(&digits(alloc, "1")?));
    Ok(())
}
