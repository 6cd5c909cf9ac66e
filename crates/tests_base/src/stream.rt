use hs_base::outside::{Failed, Sink};
use hs_base::stream::StdSink;
use std::io;
use std::io::Write;
use std::test::Fail;

// Interrupted so many times, and then takes all.
#[derive(Drop)]
struct Interrupted {
    left: u32,
}

impl Write for Interrupted {
    fn write(&mut self, buf: &[u8]) -> io::Result<usize> {
        if self.left > 0 {
            self.left -= 1;
            return Err(io::Error::from(io::ErrorKind::Interrupted));
        }
        Ok(buf.len())
    }

    fn flush(&mut self) -> io::Result<()> {
        Ok(())
    }
}

#[test]
fn repeats_so_often_and_no_more(rt: HostRuntime) -> Result<(), Fail> {
    let mut sink = StdSink::new(Interrupted { left: 1024 });
    assert_eq!(rt; sink.put(b"abc"), Ok(3));
    let mut sink = StdSink::new(Interrupted { left: 1025 });
    assert_eq!(rt; sink.put(b"abc"), Err(Failed));
    assert_eq!(rt; sink.put(b"abc"), Ok(3));
    Ok(())
}
