//! Sources and sinks over readers and writers of std that fail.

use crate::same::{same, same_items};
use homeo_io::{ReadError, StdSink, StdSource, read_all, write_all};
use std::alloc::Global;
use std::io::{self, Read, Write};

// Gives one byte a call, and fails at the third.
#[derive(Drop)]
struct ThirdFails {
    calls: u64,
}

impl Read for ThirdFails {
    fn read(&mut self, buf: &mut [u8]) -> io::Result<usize> {
        self.calls = self.calls.saturating_add(1);
        if self.calls == 3 {
            return Err(io::Error::from(io::ErrorKind::Other));
        }
        if buf.is_empty() {
            return Ok(0);
        }
        buf[0] = b'a';
        Ok(1)
    }
}

#[test]
fn a_reader_is_read_to_its_end_or_its_first_error(rt: HostRuntime) {
    let alloc = rt.alloc();
    let mut source = StdSource::new(b"12\n".as_slice());
    match read_all(alloc, &mut source, 3) {
        Ok(bytes) => same_items(&rt, bytes.as_slice(), b"12\n".as_slice()),
        Err(error) => panic!(rt; "{error:?}"),
    }
    let mut reader = ThirdFails { calls: 0 };
    let fault = read_all(alloc, &mut StdSource::new(&mut reader), 9);
    assert!(rt; matches!(fault, Err(ReadError::Fault)));
    same(&rt, &reader.calls, &3);
    let mut source = StdSource::new(b"123".as_slice());
    assert!(rt;
        matches!(
            read_all(alloc, &mut source, 2),
            Err(ReadError::TooLong { taken: 3 })
        )
    );
}

// Takes two bytes in all, and then none. It may fail to flush.
#[derive(Drop)]
struct Narrow {
    taken: Vec<u8>,
    flushes: u64,
    flush_fails: bool,
}

impl Write for Narrow {
    fn write(&mut self, buf: &[u8]) -> io::Result<usize> {
        if buf.is_empty() || self.taken.len() >= 2 {
            return Ok(0);
        }
        match self.taken.push(buf[0]) {
            Ok(()) => Ok(1),
            Err(_) => Err(io::Error::from(io::ErrorKind::OutOfMemory)),
        }
    }

    fn flush(&mut self) -> io::Result<()> {
        self.flushes = self.flushes.saturating_add(1);
        if self.flush_fails {
            return Err(io::Error::from(io::ErrorKind::Other));
        }
        Ok(())
    }
}

fn make_narrow(alloc: Global, flush_fails: bool) -> Narrow {
    Narrow {
        taken: Vec::new(alloc),
        flushes: 0,
        flush_fails,
    }
}

#[test]
fn a_writer_is_flushed_and_its_errors_are_told(rt: HostRuntime) {
    let alloc = rt.alloc();
    let mut writer = make_narrow(alloc, false);
    let mut sink = StdSink::new(&mut writer);
    assert!(rt; write_all(&mut sink, b"ab").is_ok());
    assert!(rt; write_all(&mut sink, b"").is_ok());
    assert!(rt; write_all(&mut sink, b"c").is_err());
    same_items(&rt, writer.taken.as_slice(), b"ab".as_slice());
    same(&rt, &writer.flushes, &2);
    let mut writer = make_narrow(alloc, true);
    assert!(rt; write_all(&mut StdSink::new(&mut writer), b"ab").is_err());
    same_items(&rt, writer.taken.as_slice(), b"a".as_slice());
}
