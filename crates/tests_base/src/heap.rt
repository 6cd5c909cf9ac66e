use hs_base::heap::{Heap, SureHeap};
use hs_base::outside::{Failed, Sink};
use std::test::Fail;

#[test]
fn a_put_takes_the_least_of_three(rt: HostRuntime) -> Result<(), Fail> {
    let alloc = rt.alloc();
    let Ok(mut heap) = Heap::new(alloc, 5, Some(3), Vec::new(alloc)) else {
        return Err(Fail::from("no memory"));
    };
    assert_eq!(rt; heap.put(b"abcd"), Ok(3));
    assert_eq!(rt; heap.put(b""), Ok(0));
    assert_eq!(rt; heap.put(b"defg"), Ok(2));
    assert_eq!(rt; heap.put(b"f"), Err(Failed));
    assert_eq!(rt; heap.taken(), b"abcde".as_slice());
    Ok(())
}

#[test]
fn a_listed_put_fails(rt: HostRuntime) -> Result<(), Fail> {
    let alloc = rt.alloc();
    let Ok(failing) = vec![in alloc; 2u64] else {
        return Err(Fail::from("no memory"));
    };
    let Ok(mut heap) = Heap::new(alloc, 9, None, failing) else {
        return Err(Fail::from("no memory"));
    };
    assert_eq!(rt; heap.put(b"ab"), Ok(2));
    assert_eq!(rt; heap.put(b"cd"), Err(Failed));
    assert_eq!(rt; heap.put(b"ef"), Ok(2));
    assert_eq!(rt; heap.taken(), b"abef".as_slice());
    Ok(())
}

#[test]
fn a_sure_heap_takes_all(rt: HostRuntime) -> Result<(), Fail> {
    let Ok(mut heap) = SureHeap::new(rt.alloc(), 5) else {
        return Err(Fail::from("no memory"));
    };
    assert_eq!(rt; heap.put(b"abc"), Ok(3));
    assert_eq!(rt; heap.put(b"de"), Ok(2));
    assert_eq!(rt; heap.taken(), b"abcde".as_slice());
    Ok(())
}
