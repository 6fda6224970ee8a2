// A sink in memory, for texts whose length isn't known before.
ghost use Rattle.std.specs.Prelude.{◌≡◌, ◌<◌, ◌≤◌, [], Option, None, Some, Ok, take, length, IfOk, OnErr};
ghost use Rattle.mj_io.specs.Faults.{Rose, count_limit};
ghost use Rattle.mj_io.specs.Growth.{Grew};

use mj_io::{Failed, NoMemory, Sink};
use std::alloc::Global;
use std::marker::Model;

/// A sink in memory that takes every piece whole and grows with it. It tells its bytes as long as
/// memory was found for all of them; from the first piece for which it wasn't, it drops what comes and
/// tells nothing.
#[derive(Drop)]
pub(crate) struct GrowingSink {
    held: Vec<u8>,
    fits: bool,
}

impl Model for GrowingSink {
    ghost use Rattle.std.specs.Prelude.{ℕ, List, Option, Some, None, cond};

    ghost Value = { Option (List ℕ) };

    ghost view = { λ s. cond s.fits (Some s.held.items) None };
}

impl GrowingSink {
    /// A sink that holds no byte. It has taken no memory yet.
    pub(crate) fn new(alloc: Global) -> GrowingSink
        ensures { result ≡ Some [] }
    {
        GrowingSink {
            held: Vec::new(alloc),
            fits: true,
        }
    }

    /// The bytes, unless memory was wanted.
    pub(crate) fn into_bytes(self) -> Result<Vec<u8>, NoMemory>
        ensures { IfOk result (λ v. self ≡ Some v.items) }
    {
        if self.fits {
            Ok(self.held)
        } else {
            Err(NoMemory)
        }
    }

    // Takes a piece, where memory is found for it.
    fn keep(&mut self, piece: &[u8])
        ensures { Grew self.old piece.now self.new }
    {
        self.fits = self.fits && self.held.extend_from_slice(piece).is_ok();
    }
}

impl Sink for GrowingSink {
    ghost holds = { λ s. s };

    ghost faults = { λ s. 0 };

    fn write(&mut self, piece: &[u8]) -> Result<usize, Failed>
        requires { 0 < length piece.now }
        ensures some { IfOk result (λ n. 0 < n) }
        ensures within { IfOk result (λ n. n ≤ length piece.now) }
        ensures grew { IfOk result (λ n. Grew self.old (take n piece.now) self.new) }
        ensures unchanged { OnErr result (self.new ≡ self.old) }
        ensures cause { OnErr result (Rose 0 0) }
        ensures later { 0 ≤ 0 }
        ensures bounded { 0 ≤ count_limit }
        ensures whole { result ≡ Ok (length piece.now) }
    {
        self.keep(piece);
        Ok(piece.len())
    }
}
