// Bytes from readers and to writers that fail: what is answered, counted and left.
use mj_io::stream::{read_opened, read_prefix, write_some};
use mj_io::{CabinetFault, Failed};
use std::io;
use std::io::{ErrorKind, Read, Write};
use std::test::Fail;

// A reader that gives at most three bytes at once, and whose reads from a number up to before another
// fail.
#[derive(Drop)]
struct Halting {
    bytes: &'static [u8],
    reads: u64,
    fails_from: u64,
    fails_until: u64,
}

impl Halting {
    // Ten bytes.
    fn new(fails_from: u64, fails_until: u64) -> Halting {
        Halting {
            bytes: b"abcdefghij",
            reads: 0,
            fails_from,
            fails_until,
        }
    }
}

impl Read for Halting {
    fn read(&mut self, buf: &mut [u8]) -> io::Result<usize> {
        self.reads = self.reads.saturating_add(1);
        if self.fails_from <= self.reads && self.reads < self.fails_until {
            return Err(io::Error::from(ErrorKind::Interrupted));
        }
        let n = self.bytes.len().min(buf.len()).min(3);
        buf[..n].copy_from_slice(&self.bytes[..n]);
        self.bytes = &self.bytes[n..];
        Ok(n)
    }
}

#[test]
fn a_reader_of_short_pieces_is_read_to_the_cap(rt: HostRuntime) -> Result<(), Fail> {
    for (cap, fails_from, given, want) in [
        (8, 9, b"abcdefgh".as_slice(), 0),
        (20, 9, b"abcdefghij", 0),
        (6, 3, b"abcdef", 0),
        (0, 1, b"", 0),
        (7, 3, b"failed", 1),
        (20, 5, b"failed", 1),
    ] {
        let mut file = Halting::new(fails_from, u64::MAX);
        let mut count = 0;
        match read_prefix(rt.alloc(), &mut file, &mut count, cap) {
            Ok(bytes) => assert_eq!(rt; bytes.as_slice(), given),
            Err(fault) => assert_eq!(rt; fault, CabinetFault::Failed),
        }
        assert_eq!(rt; count, want);
    }
    Ok(())
}

// The fault is told though the reader would go on, and the next call begins where the reader stands.
#[test]
fn a_fault_of_a_reader_that_goes_on_is_told(rt: HostRuntime) -> Result<(), Fail> {
    for (fails_at, left) in [(1, b"abcdefghij".as_slice()), (3, b"ghij")] {
        let mut file = Halting::new(fails_at, fails_at.wrapping_add(1));
        let mut count = 0;
        let read = read_prefix(rt.alloc(), &mut file, &mut count, 20);
        assert_eq!(rt; read.err(), Some(CabinetFault::Failed));
        assert_eq!(rt; count, 1);
        assert_eq!(rt; file.reads, fails_at);
        let rest = read_prefix(rt.alloc(), &mut file, &mut count, 20)?;
        assert_eq!(rt; rest.as_slice(), left);
        assert_eq!(rt; count, 1);
    }
    Ok(())
}

#[test]
fn a_file_that_cannot_be_opened_is_a_fault(rt: HostRuntime) -> Result<(), Fail> {
    let missing: io::Result<Halting> = Err(io::Error::from(ErrorKind::NotFound));
    let mut count = 7;
    let read = read_opened(rt.alloc(), missing, &mut count, 10);
    assert_eq!(rt; read.err(), Some(CabinetFault::Failed));
    assert_eq!(rt; count, 8);
    let found = read_opened(rt.alloc(), Ok(Halting::new(0, 0)), &mut count, 10)?;
    assert_eq!(rt; found.as_slice(), b"abcdefghij".as_slice());
    assert_eq!(rt; count, 8);
    Ok(())
}

// A writer that takes at most a number of bytes at once, of whose writes one may fail, and whose flush
// may.
#[derive(Drop)]
struct Narrow {
    taken: usize,
    most: usize,
    writes: u64,
    fails_at: u64,
    flushes: bool,
}

impl Write for Narrow {
    fn write(&mut self, buf: &[u8]) -> io::Result<usize> {
        self.writes = self.writes.saturating_add(1);
        if self.writes == self.fails_at {
            return Err(io::Error::from(ErrorKind::Interrupted));
        }
        let n = buf.len().min(self.most);
        self.taken = self.taken.saturating_add(n);
        Ok(n)
    }

    fn flush(&mut self) -> io::Result<()> {
        if self.flushes {
            Ok(())
        } else {
            Err(io::Error::from(ErrorKind::Other))
        }
    }
}

// A writer that takes no byte has failed, and one whose flush fails may have taken some.
#[test]
fn a_write_says_what_the_writer_took(rt: HostRuntime) {
    for (most, fails_at, flushes, want, faults, taken) in [
        (2, 0, true, Ok(2), 0, 2),
        (9, 0, true, Ok(4), 0, 4),
        (0, 0, true, Err(Failed), 1, 0),
        (2, 0, false, Err(Failed), 1, 2),
        (9, 1, true, Err(Failed), 1, 0),
    ] {
        let mut out = Narrow {
            taken: 0,
            most,
            writes: 0,
            fails_at,
            flushes,
        };
        let mut count = 0;
        assert_eq!(rt; write_some(&mut out, &mut count, b"wxyz"), want);
        assert_eq!(rt; count, faults);
        assert_eq!(rt; out.taken, taken);
        assert_eq!(rt; out.writes, 1);
    }
}

// Two bytes, a fault, and the two bytes that are left.
#[test]
fn a_fault_of_a_writer_that_goes_on_is_told(rt: HostRuntime) {
    for (fails_at, answers) in [
        (1, [Err(Failed), Ok(2), Ok(2)]),
        (2, [Ok(2), Err(Failed), Ok(2)]),
    ] {
        let mut out = Narrow {
            taken: 0,
            most: 2,
            writes: 0,
            fails_at,
            flushes: true,
        };
        let mut count = 0;
        for want in answers {
            assert_eq!(rt; write_some(&mut out, &mut count, b"wx"), want);
        }
        assert_eq!(rt; count, 1);
        assert_eq!(rt; out.taken, 4);
        assert_eq!(rt; out.writes, 3);
    }
}
