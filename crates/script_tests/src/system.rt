//! Of `tn_outside`: readers and writers of std as a source and a sink, over a slice and a vector, and such as fail.
use std::io::{BufWriter, Error, ErrorKind, Read};
use tn_outside::{Failed, Sink, Source, StdSink, StdSource};

/// A reader of a device that is gone.
#[derive(Drop)]
struct Gone;

impl Read for Gone {
    fn read(&mut self, _: &mut [u8]) -> Result<usize, Error> {
        Err(Error::from(ErrorKind::NotFound))
    }
}

#[test]
fn std_source(rt: HostRuntime) {
    let text: &[u8] = b"abcde";
    let mut source = StdSource::new(text);
    let mut buf = [0u8; 3];
    assert!(rt; source.read(&mut buf) == Ok(3) && buf == *b"abc");
    assert!(rt; source.read(&mut buf) == Ok(2) && buf == *b"dec");
    assert!(rt; source.read(&mut buf) == Ok(0));
}

#[test]
fn std_source_fails(rt: HostRuntime) {
    let mut buf = [0u8; 3];
    assert!(rt; StdSource::new(Gone).read(&mut buf) == Err(Failed));
}

// Whether a writer has these bytes, in a memory of its own.
fn has(sink: &StdSink<Vec<u8>>, bytes: &[u8]) -> bool {
    sink.inner.get_ref().as_slice() == bytes
}

#[test]
fn std_sink_gathers(rt: HostRuntime) {
    let inner = BufWriter::with_capacity(rt.alloc(), 4, Vec::new(rt.alloc()));
    let mut sink = StdSink::new(inner.expect(&rt, "memory"));
    assert!(rt; [sink.write(b"ab"), sink.write(b"")] == [Ok(2), Ok(0)]);
    assert!(rt; has(&sink, b""));
    assert!(rt; sink.write(b"cde") == Ok(3) && has(&sink, b"ab"));
    assert!(rt; sink.flush().is_ok() && has(&sink, b"abcde"));
}

#[test]
fn std_sink_fails(rt: HostRuntime) {
    let mut room = [0u8; 2];
    let inner = BufWriter::with_capacity(rt.alloc(), 2, room.as_mut_slice());
    let mut narrow = StdSink::new(inner.expect(&rt, "memory"));
    assert!(rt; [narrow.write(b"abc"), narrow.write(b"c")] == [Ok(2), Ok(1)]);
    assert!(rt; narrow.flush() == Err(Failed));
}
