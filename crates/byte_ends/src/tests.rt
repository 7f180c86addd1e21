//! Sources and sinks that fail, and what is left after it.

use super::*;
use std::io;
use std::io::{Read, Write};
use std::test::Fail;

const TEXT: &[u8] = b"abcde";

/// A reader and writer of which each call fails.
#[derive(Drop)]
struct Broken;

impl Read for Broken {
    fn read(&mut self, _: &mut [u8]) -> io::Result<usize> {
        Err(io::Error::from(io::ErrorKind::BrokenPipe))
    }
}

impl Write for Broken {
    fn write(&mut self, _: &[u8]) -> io::Result<usize> {
        Err(io::Error::from(io::ErrorKind::BrokenPipe))
    }

    fn flush(&mut self) -> io::Result<()> {
        Ok(())
    }
}

// A writer that takes all and counts how often it was flushed.
#[derive(Drop)]
struct Flushed {
    count: u32,
}

impl Write for Flushed {
    fn write(&mut self, from: &[u8]) -> io::Result<usize> {
        Ok(from.len())
    }

    fn flush(&mut self) -> io::Result<()> {
        self.count = self.count.saturating_add(1);
        Ok(())
    }
}

// A writer that takes all, and can't flush it.
#[derive(Drop)]
struct Unflushed;

impl Write for Unflushed {
    fn write(&mut self, from: &[u8]) -> io::Result<usize> {
        Ok(from.len())
    }

    fn flush(&mut self) -> io::Result<()> {
        Err(io::Error::from(io::ErrorKind::BrokenPipe))
    }
}

#[test]
fn reads_up_to_the_limit(rt: HostRuntime) -> Result<(), Fail> {
    let alloc = rt.alloc();
    for (limit, fits) in [
        (0, false),
        (4, false),
        (5, true),
        (6, true),
        (u64::MAX, true),
    ] {
        let mut source = SureSource::new(TEXT.to_vec(alloc)?);
        match read_all(alloc, &mut source, limit) {
            Ok(all) => {
                assert!(rt; fits, "at {limit}");
                assert_eq!(rt; all.as_slice(), TEXT);
            }
            Err(end) => {
                assert!(rt; !fits, "at {limit}");
                assert_eq!(rt; end, ReadEnd::TooLong);
            }
        }
        assert_eq!(rt; source.faults(), 0);
    }
    let mut none = SureSource::new(Vec::new(alloc));
    assert!(rt; read_all(alloc, &mut none, 0)?.is_empty());
    Ok(())
}

#[test]
fn reads_many_bytes(rt: HostRuntime) -> Result<(), Fail> {
    let alloc = rt.alloc();
    let mut bytes = vec![in alloc; 7u8; 16 << 20]?;
    bytes.push(8)?;
    // Pieces of 16 KiB and less would come to the call that fails.
    let mut source = MemorySource::new(bytes, vec![in alloc; 1000u64]?);
    let all = read_all(alloc, &mut source, 1 << 30)?;
    assert_eq!(rt; all.len(), (16 << 20) + 1);
    assert_eq!(rt; all.last(), Some(&8));
    Ok(())
}

#[test]
fn a_source_fails_at_its_first_call(rt: HostRuntime) -> Result<(), Fail> {
    let alloc = rt.alloc();
    let mut source = MemorySource::new(TEXT.to_vec(alloc)?, vec![in alloc; 1u64]?);
    match read_all(alloc, &mut source, 100) {
        Ok(_) => assert!(rt; false),
        Err(end) => assert_eq!(rt; end, ReadEnd::Failed),
    }
    assert_eq!(rt; source.faults(), 1);
    assert_eq!(rt; read_all(alloc, &mut source, 100)?.as_slice(), TEXT);
    Ok(())
}

#[test]
fn a_sink_fails_at_its_third_call(rt: HostRuntime) -> Result<(), Fail> {
    let alloc = rt.alloc();
    let bytes = vec![in alloc; 9u8; 50]?;
    let mut sink = MemorySink::new(alloc, 1000, 10, vec![in alloc; 3u64]?)?;
    assert_eq!(rt; put_all(&mut sink, &bytes), Err(Failed));
    assert_eq!(rt; sink.bytes(), &bytes[..20]);
    assert_eq!(rt; sink.faults(), 1);
    Ok(())
}

#[test]
fn a_sink_takes_a_byte_at_a_time_until_it_is_full(rt: HostRuntime) -> Result<(), Fail> {
    let alloc = rt.alloc();
    let mut sink = MemorySink::new(alloc, 8, 1, Vec::new(alloc))?;
    assert_eq!(rt; put_all(&mut sink, TEXT), Ok(()));
    assert_eq!(rt; sink.bytes(), TEXT);
    assert_eq!(rt; put_all(&mut sink, TEXT), Err(Failed));
    assert_eq!(rt; sink.bytes(), b"abcdeabc".as_slice());
    assert_eq!(rt; sink.faults(), 1);
    Ok(())
}

#[test]
fn a_sure_sink_takes_all(rt: HostRuntime) {
    let mut sink = SureSink::new();
    assert_eq!(rt; put_all(&mut sink, TEXT), Ok(()));
    assert_eq!(rt; sink.faults(), 0);
}

#[test]
fn std_readers_and_writers(rt: HostRuntime) -> Result<(), Fail> {
    let alloc = rt.alloc();
    let mut source = StdSource::new(TEXT);
    assert_eq!(rt; read_all(alloc, &mut source, 5)?.as_slice(), TEXT);

    let mut written = Vec::new(alloc);
    let mut sink = StdSink::new(&mut written);
    assert_eq!(rt; put_all(&mut sink, TEXT), Ok(()));
    assert_eq!(rt; written.as_slice(), TEXT);

    let mut flushed = Flushed { count: 0 };
    let mut sink = StdSink::new(&mut flushed);
    assert_eq!(rt; put_all(&mut sink, TEXT), Ok(()));
    assert_eq!(rt; flushed.count, 1);
    Ok(())
}

#[test]
fn std_failures(rt: HostRuntime) -> Result<(), Fail> {
    let alloc = rt.alloc();
    let mut source = StdSource::new(Broken);
    match read_all(alloc, &mut source, 100) {
        Ok(_) => assert!(rt; false),
        Err(end) => assert_eq!(rt; end, ReadEnd::Failed),
    }
    let mut sink = StdSink::new(Broken);
    assert_eq!(rt; put_all(&mut sink, TEXT), Err(Failed));
    let mut sink = StdSink::new(Unflushed);
    assert_eq!(rt; put_all(&mut sink, TEXT), Err(Failed));

    // A writer that is full takes nothing, and says no error.
    let mut room = [0u8; 3];
    let mut full = StdSink::new(room.as_mut_slice());
    assert_eq!(rt; put_all(&mut full, TEXT), Err(Failed));
    Ok(())
}
