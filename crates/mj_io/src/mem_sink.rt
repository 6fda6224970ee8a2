// A sink in memory for tests: its room is bounded, some of its writes fail, and its writes are short.
ghost use Rattle.std.specs.Prelude.{◌≡◌, ◌<◌, ◌≤◌, ◌+◌, ◌^◌, ◌-◌, ℕ, List, [], Option, Some, take, length, IfOk, OnOk, OnErr, is_err, false};
ghost use Rattle.mj_io.specs.Faults.{Rose, count_limit};
ghost use Rattle.mj_io.specs.Growth.{Grew};
ghost use Rattle.mj_io.specs.Tray as spec;

use crate::NoMemory;
use crate::count::one_more;
use crate::sink::{Failed, Sink};
use std::alloc::Global;
use std::marker::Model;

/// A sink in memory that tells what it holds. It has room for a number of bytes, each of its writes
/// takes at most a number of them, and the writes whose numbers, counted from 1, are listed fail.
#[derive(Drop)]
pub struct MemSink {
    held: Vec<u8>,
    room: usize,
    fails: Vec<u64>,
    most: usize,
    writes: u64,
    count: u64,
}

impl Model for MemSink {
    ghost use Rattle.std.specs.Prelude.{◌<◌, ◌≤◌, vec_len, vec_capacity};
    ghost use Rattle.mj_io.specs.Faults.{count_limit};
    ghost use Rattle.mj_io.specs.Tray.{Tray};

    ghost Value = { Tray };

    ghost view = { λ s. record {
      held = s.held.items;
      room = s.room;
      fails = s.fails.items;
      most = s.most;
      writes = s.writes;
      count = s.count;
    } };

    ghost invariant = { λ s. (0 < s.most) × (vec_len s.held ≤ s.room)
        × (s.room ≤ vec_capacity s.held) × (s.count ≤ count_limit) };
}

impl MemSink {
    /// A sink that holds no byte and has taken the memory for `room` bytes.
    pub fn new(
        alloc: Global,
        room: usize,
        fails: Vec<u64>,
        most: usize,
    ) -> Result<MemSink, NoMemory>
        requires { 1 ≤ most }
        ensures { IfOk result (λ s. s ≡ record {
          held = [];
          room = room;
          fails = fails.items;
          most = most;
          writes = 0;
          count = 0;
        }) }
    {
        match Vec::with_capacity(alloc, room) {
            Ok(held) => Ok(MemSink {
                held,
                room,
                fails,
                most,
                writes: 0,
                count: 0,
            }),
            Err(_) => Err(NoMemory),
        }
    }

    /// The bytes held.
    pub fn held(&self) -> &[u8]
        ensures { result.now ≡ self.now.held }
    {
        self.held.as_slice()
    }

    /// How many writes failed.
    pub fn faults(&self) -> u64
        ensures { result ≡ self.now.count }
    {
        self.count
    }

    // Whether the next write is a fault.
    fn refuses(&self) -> bool
        ensures fault { result ≡ spec.write_fails self.now }
        ensures bounded { self.now.count ≤ count_limit }
    {
        let number = one_more(self.writes);
        self.fails.contains(&number) || self.room <= self.held.len()
    }

    fn refuse(&mut self)
        ensures { self.new ≡ spec.after_fault self.old }
    {
        self.writes = one_more(self.writes);
        self.count = one_more(self.count);
    }

    // How many bytes the next write takes of a piece of `count` bytes.
    fn takes(&self, count: usize) -> usize
        ensures exact { result ≡ spec.bytes_taken self.now count }
        ensures some { 0 < count → spec.write_fails self.now ≡ false → 0 < result }
    {
        count
            .min(self.most)
            .min(self.room.saturating_sub(self.held.len()))
    }

    // Takes `bytes`, for which there is room, so that no memory is wanted.
    fn keep(&mut self, bytes: &[u8])
        requires { length self.old.held + length bytes.now ≤ self.old.room }
        ensures { self.new ≡ spec.after_taking self.old bytes.now }
    {
        self.writes = one_more(self.writes);
        let _ = self.held.extend_from_slice(bytes);
    }
}

impl Sink for MemSink {
    ghost holds = { λ s. Some s.held };

    ghost faults = { λ s. s.count };

    fn write(&mut self, piece: &[u8]) -> Result<usize, Failed>
        requires { 0 < length piece.now }
        ensures some { IfOk result (λ n. 0 < n) }
        ensures within { IfOk result (λ n. n ≤ length piece.now) }
        ensures grew { IfOk result
            (λ n. Grew (Some self.old.held) (take n piece.now) (Some self.new.held)) }
        ensures unchanged { OnErr result (Some self.new.held ≡ Some self.old.held) }
        ensures cause { OnErr result (Rose self.old.count self.new.count) }
        ensures calm { OnOk result (self.new.count ≡ self.old.count) }
        ensures later { self.old.count ≤ self.new.count }
        ensures bounded { self.new.count ≤ count_limit }
        ensures fault { is_err result ≡ spec.write_fails self.old }
        ensures exact { IfOk result (λ n. n ≡ spec.bytes_taken self.old (length piece.now)) }
        ensures after { self.new ≡ spec.after_write self.old piece.now }
    {
        if self.refuses() {
            self.refuse();
            return Err(Failed);
        }
        let count = self.takes(piece.len());
        self.keep(&piece[..count]);
        Ok(count)
    }
}
