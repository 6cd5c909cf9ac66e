use hs_base::disk::{Disk, ReadFault, read_all};
use hs_base::outside::{FetchFault, Files};
use hs_base::repeats::Repeats;
use std::io;
use std::io::{ErrorKind, Read};
use std::test::Fail;

// Interrupted so many times, and then at the end.
#[derive(Drop)]
struct Interrupted {
    left: u32,
}

impl Read for Interrupted {
    fn read(&mut self, _buf: &mut [u8]) -> io::Result<usize> {
        if self.left > 0 {
            self.left -= 1;
            return Err(io::Error::from(ErrorKind::Interrupted));
        }
        Ok(0)
    }
}

#[test]
fn repeats_so_often_and_no_more(rt: HostRuntime) -> Result<(), Fail> {
    let alloc = rt.alloc();
    assert!(rt;
        read_all(
            alloc,
            &mut Interrupted { left: 1024 },
            9,
            &mut Repeats::new()
        )
        .is_ok()
    );
    assert!(rt;
        read_all(
            alloc,
            &mut Interrupted { left: 1025 },
            9,
            &mut Repeats::new()
        )
        .is_err()
    );
    Ok(())
}

#[test]
fn reads_up_to_the_limit(rt: HostRuntime) -> Result<(), Fail> {
    let alloc = rt.alloc();
    let mut text = b"abcdef".as_slice();
    let Ok(bytes) = read_all(alloc, &mut text, 6, &mut Repeats::new()) else {
        return Err(Fail::from("no bytes"));
    };
    assert_eq!(rt; bytes.as_slice(), b"abcdef".as_slice());
    let mut text = b"abcdef".as_slice();
    match read_all(alloc, &mut text, 3, &mut Repeats::new()) {
        Err(ReadFault::TooLarge) => assert_eq!(rt; text, b"ef".as_slice()),
        _ => return Err(Fail::from("another answer")),
    }
    Ok(())
}

#[test]
fn a_file_of_the_system_is_read_to_its_end(rt: HostRuntime) -> Result<(), Fail> {
    let alloc = rt.alloc();
    let mut disk = Disk::new(rt, alloc);
    let Ok(bytes) = disk.fetch("/proc/sys/kernel/ostype", 6) else {
        return Err(Fail::from("no bytes"));
    };
    assert_eq!(rt; bytes.as_slice(), b"Linux\n".as_slice());
    match disk.fetch("/proc/sys/kernel/ostype", 5) {
        Err(FetchFault::TooLarge) => {}
        _ => return Err(Fail::from("another answer of a longer file")),
    }
    match disk.fetch("/", 9) {
        Err(FetchFault::Failed) => {}
        _ => return Err(Fail::from("another answer of a folder")),
    }
    Ok(())
}

#[test]
fn a_missing_file_is_not_there(rt: HostRuntime) -> Result<(), Fail> {
    let alloc = rt.alloc();
    let mut disk = Disk::new(rt, alloc);
    match disk.fetch("no such file", 9) {
        Err(FetchFault::NotThere) => Ok(()),
        _ => Err(Fail::from("another answer")),
    }
}
