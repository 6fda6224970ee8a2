// Sinks in memory and over the system's output.
use mj_io::{Failed, MemSink, OutSink, RoomSink, put};
use std::cell::Cell;
use std::io;
use std::io::Print;
use std::test::Fail;

// The first sink fails at its third write, the second one is full.
#[test]
fn a_put_that_fails_has_written_a_prefix(rt: HostRuntime) -> Result<(), Fail> {
    let fails = Vec::from_slice(rt.alloc(), &[3])?;
    let mut sink = MemSink::new(rt.alloc(), 8, fails, 1)?;
    assert_eq!(rt; put(&mut sink, b"abcd"), Err(Failed));
    assert_eq!(rt; sink.held(), b"ab".as_slice());
    assert_eq!(rt; sink.faults(), 1);
    assert_eq!(rt; put(&mut sink, b"cd"), Ok(()));
    assert_eq!(rt; sink.held(), b"abcd".as_slice());
    let mut full = MemSink::new(rt.alloc(), 3, Vec::new(rt.alloc()), 10)?;
    assert_eq!(rt; put(&mut full, b"abcde"), Err(Failed));
    assert_eq!(rt; full.held(), b"abc".as_slice());
    assert_eq!(rt; full.faults(), 1);
    Ok(())
}

#[test]
fn a_sink_with_too_little_room_tells_nothing(rt: HostRuntime) -> Result<(), Fail> {
    let mut sink = RoomSink::new(rt.alloc(), 5)?;
    assert_eq!(rt; put(&mut sink, b"abc"), Ok(()));
    assert_eq!(rt; sink.held().ok_or("dropped")?, b"abc".as_slice());
    assert_eq!(rt; put(&mut sink, b"def"), Ok(()));
    assert!(rt; sink.held().is_none());
    assert_eq!(rt; put(&mut sink, b"d"), Ok(()));
    assert!(rt; sink.held().is_none());
    Ok(())
}

// An output that takes at most two bytes at once, and of whose writes one fails or, from it on, all do.
#[derive(Drop)]
struct Faulty {
    taken: Cell<usize>,
    writes: Cell<u64>,
    fails_at: u64,
    stays: bool,
}

impl Faulty {
    fn new(fails_at: u64, stays: bool) -> Faulty {
        Faulty {
            taken: Cell::new(0),
            writes: Cell::new(0),
            fails_at,
            stays,
        }
    }
}

impl Print for Faulty {
    fn print<D: std::fmt::Display + Drop>(&self, _value: D) -> io::Result<()> {
        Err(io::Error::from(io::ErrorKind::BrokenPipe))
    }

    fn println<D: std::fmt::Display + Drop>(&self, _value: D) -> io::Result<()> {
        Err(io::Error::from(io::ErrorKind::BrokenPipe))
    }

    fn write_all(&self, _bytes: &[u8]) -> io::Result<()> {
        Err(io::Error::from(io::ErrorKind::BrokenPipe))
    }

    fn write_some(&self, bytes: &[u8]) -> io::Result<usize> {
        let number = self.writes.get().wrapping_add(1);
        self.writes.set(number);
        if number == self.fails_at || self.stays && number > self.fails_at {
            return Err(io::Error::from(io::ErrorKind::BrokenPipe));
        }
        let n = bytes.len().min(2);
        self.taken.set(self.taken.get().wrapping_add(n));
        Ok(n)
    }
}

// Nothing is tried again in the call that fails, and the next call begins where it stopped.
#[test]
fn an_output_fails_where_the_system_does(rt: HostRuntime) {
    for (fails_at, stays, taken, writes, after) in [
        (1, false, 0, 1, Ok(())),
        (2, false, 2, 2, Ok(())),
        (1, true, 0, 1, Err(Failed)),
        (2, true, 2, 2, Err(Failed)),
    ] {
        let out = Faulty::new(fails_at, stays);
        let mut sink = OutSink::new(&out);
        assert_eq!(rt; put(&mut sink, b"lost"), Err(Failed));
        assert_eq!(rt; out.taken.get(), taken);
        assert_eq!(rt; out.writes.get(), writes);
        assert_eq!(rt; put(&mut sink, b"ab"), after);
    }
    assert_eq!(rt; put(&mut OutSink::new(&rt), b"out\n"), Ok(()));
}
