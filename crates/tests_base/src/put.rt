use hs_base::heap::Heap;
use hs_base::outside::{Failed, Sink};
use hs_base::put::put_all;
use std::test::Fail;

const TEXT: &[u8] = b"let f_add (v_a_0 : u32) (v_b_1 : u32) : u32 =\n";

#[test]
fn a_failed_put_leaves_a_prefix(rt: HostRuntime) -> Result<(), Fail> {
    let alloc = rt.alloc();
    let Ok(failing) = vec![in alloc; 3u64] else {
        return Err(Fail::from("no memory"));
    };
    let Ok(mut heap) = Heap::new(alloc, 100, Some(16), failing) else {
        return Err(Fail::from("no memory"));
    };
    assert_eq!(rt; put_all(&mut heap, TEXT), Err(Failed));
    assert_eq!(rt;
        heap.taken(),
        b"let f_add (v_a_0 : u32) (v_b_1 :".as_slice()
    );
    assert_eq!(rt; put_all(&mut heap, b" u32) : u32 =\n"), Ok(()));
    assert_eq!(rt; heap.taken(), TEXT);
    Ok(())
}

#[test]
fn one_byte_a_put_gives_the_whole(rt: HostRuntime) -> Result<(), Fail> {
    let alloc = rt.alloc();
    let Ok(mut heap) = Heap::new(alloc, 100, Some(1), Vec::new(alloc)) else {
        return Err(Fail::from("no memory"));
    };
    assert_eq!(rt; put_all(&mut heap, TEXT), Ok(()));
    assert_eq!(rt; heap.taken(), TEXT);
    Ok(())
}
