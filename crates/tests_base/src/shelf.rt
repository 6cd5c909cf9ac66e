use hs_base::outside::{FetchFault, Files};
use hs_base::shelf::{Shelf, SureShelf};
use std::alloc::Global;
use std::test::Fail;

// Whether a fetch gave these bytes.
fn gave(answer: &Result<Vec<u8>, FetchFault>, bytes: &[u8]) -> bool {
    match answer {
        Ok(given) => given.as_slice() == bytes,
        Err(_) => false,
    }
}

// Whether a fetch gave this fault.
fn refused(answer: &Result<Vec<u8>, FetchFault>, fault: FetchFault) -> bool {
    match answer {
        Ok(_) => false,
        Err(given) => *given == fault,
    }
}

#[test]
fn the_last_bytes_stand_under_a_name(rt: HostRuntime) -> Result<(), Fail> {
    let mut shelf = SureShelf::new(rt.alloc());
    assert!(rt; shelf.add("a.rs", b"one").is_ok());
    assert!(rt; shelf.add("b.rs", b"other").is_ok());
    assert!(rt; shelf.add("a.rs", b"two").is_ok());
    assert!(rt; gave(&shelf.fetch("a.rs", 3), b"two"));
    assert!(rt; gave(&shelf.fetch("b.rs", 9), b"other"));
    assert!(rt; refused(&shelf.fetch("b.rs", 4), FetchFault::TooLarge));
    assert!(rt; refused(&shelf.fetch("none.rs", 9), FetchFault::NotThere));
    Ok(())
}

#[test]
fn the_first_fetch_fails_and_no_other(rt: HostRuntime) -> Result<(), Fail> {
    let alloc = rt.alloc();
    let Ok(failing) = vec![in alloc; 1u64] else {
        return Err(Fail::from("no memory"));
    };
    let mut shelf = Shelf::new(alloc, failing);
    assert!(rt; shelf.add("add.rs", b"text").is_ok());
    assert!(rt; refused(&shelf.fetch("add.rs", 9), FetchFault::Failed));
    assert!(rt; gave(&shelf.fetch("add.rs", 9), b"text"));
    assert!(rt; refused(&shelf.fetch("none.rs", 9), FetchFault::NotThere));
    Ok(())
}
