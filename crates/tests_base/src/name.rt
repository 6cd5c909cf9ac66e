use hs_base::name::Name;
use std::hash::{DefaultHasher, Hash, Hasher};
use std::test::Fail;

fn hash_of(name: &Name) -> u64 {
    let mut state = DefaultHasher::new();
    name.hash(&mut state);
    state.finish()
}

#[test]
fn names_are_their_bytes(rt: HostRuntime) -> Result<(), Fail> {
    let alloc = rt.alloc();
    let (Ok(name), Ok(other)) = (Name::of(alloc, "add"), Name::of_bytes(alloc, b"ad")) else {
        return Err(Fail::from("no memory"));
    };
    let Ok(copy) = name.copy(alloc) else {
        return Err(Fail::from("no memory"));
    };
    assert_eq!(rt; copy.bytes(), b"add".as_slice());
    assert!(rt; copy == name);
    assert_eq!(rt; hash_of(&copy), hash_of(&name));
    assert!(rt; other != name);
    Ok(())
}
