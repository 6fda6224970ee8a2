// A sink in memory for tests of texts: it never fails.
ghost use Rattle.std.specs.Prelude.{◌≡◌, ◌<◌, ◌≤◌, ◌^◌, ◌-◌, ℕ, List, [], Option, None, Some, Ok, take, length, IfOk, OnOk, OnErr, option_copied};
ghost use Rattle.mj_io.specs.Faults.{Rose, count_limit};
ghost use Rattle.mj_io.specs.Growth.{Grew};
ghost use Rattle.mj_io.specs.Roomy as spec;

use crate::NoMemory;
use crate::sink::{Failed, Sink};
use std::alloc::Global;
use std::marker::Model;

/// A sink in memory that takes every piece whole. It tells its bytes as long as all of them have
/// room; from the first piece that hasn't, it drops what comes and tells nothing.
#[derive(Drop)]
pub struct RoomSink {
    held: Vec<u8>,
    room: usize,
    fits: bool,
}

impl Model for RoomSink {
    ghost use Rattle.std.specs.Prelude.{◌≤◌, Some, None, cond, vec_len, vec_capacity};
    ghost use Rattle.mj_io.specs.Roomy.{Roomy};

    ghost Value = { Roomy };

    ghost view = { λ s. record { text = cond s.fits (Some s.held.items) None; room = s.room } };

    ghost invariant = { λ s. (vec_len s.held ≤ s.room) × (s.room ≤ vec_capacity s.held) };
}

impl RoomSink {
    /// A sink that holds no byte and has taken the memory for `room` bytes.
    pub fn new(alloc: Global, room: usize) -> Result<RoomSink, NoMemory>
        ensures { IfOk result (λ s. s ≡ record { text = Some []; room = room }) }
    {
        match Vec::with_capacity(alloc, room) {
            Ok(held) => Ok(RoomSink {
                held,
                room,
                fits: true,
            }),
            Err(_) => Err(NoMemory),
        }
    }

    /// The bytes so far, or nothing where a piece had no room.
    pub fn held(&self) -> Option<&[u8]>
        ensures { option_copied result ≡ self.now.text }
    {
        if self.fits {
            Some(self.held.as_slice())
        } else {
            None
        }
    }

    // Takes a piece, where it has room, so that no memory is wanted.
    fn keep(&mut self, piece: &[u8])
        ensures { self.new
            ≡ record self.old { text = spec.text_then self.old.text self.old.room piece.now } }
    {
        self.fits = self.fits && piece.len() <= self.room - self.held.len();
        if self.fits {
            let _ = self.held.extend_from_slice(piece);
        }
    }
}

impl Sink for RoomSink {
    ghost holds = { λ s. s.text };

    ghost faults = { λ s. 0 };

    fn write(&mut self, piece: &[u8]) -> Result<usize, Failed>
        requires { 0 < length piece.now }
        ensures some { IfOk result (λ n. 0 < n) }
        ensures within { IfOk result (λ n. n ≤ length piece.now) }
        ensures grew { IfOk result (λ n. Grew self.old.text (take n piece.now) self.new.text) }
        ensures unchanged { OnErr result (self.new.text ≡ self.old.text) }
        ensures cause { OnErr result (Rose 0 0) }
        ensures calm { OnOk result (◌≡◌ {A = ℕ} 0 0) }
        ensures later { 0 ≤ 0 }
        ensures bounded { 0 ≤ count_limit }
        ensures whole { result ≡ Ok (length piece.now) }
        ensures after { self.new
            ≡ record self.old { text = spec.text_then self.old.text self.old.room piece.now } }
    {
        self.keep(piece);
        Ok(piece.len())
    }
}
