// The system's files and output. No contract knows what they hold.
ghost use Rattle.std.specs.Prelude.{◌≡◌, ◌<◌, ◌≤◌, ◌+◌, ◌^◌, ◌-◌, ℕ, List, Err, take, length, cond, IfOk, OnOk, OnErr, IsTrue, is_err, vec_len, false};
ghost use Rattle.mj_io.specs.Faults.{Rose, count_limit};
ghost use Rattle.mj_io.specs.Growth.{Gives, Grew, untold};
ghost use Rattle.mj_io.specs.Shelf.{is_fault};
ghost use Rattle.mj_io.specs.System as spec;

use crate::cabinet::{Cabinet, CabinetFault};
use crate::sink::{Failed, Sink};
use crate::stream::{read_opened, write_some};
use std::alloc::Global;
use std::fs::Files;
use std::io::Print;
use std::marker::Model;
use std::{fs, io};

/// The files of the system. A read is a fault where the system answers with an error, and the faults
/// of all names have one count, which stands still at its greatest value. In contracts it is this
/// count.
#[derive(Drop)]
pub struct FileCabinet<'a, R: Files> {
    rt: &'a R,
    count: u64,
}

impl<'a, R: Files> Model for FileCabinet<'a, R> {
    ghost use Rattle.std.specs.Prelude.{ℕ, ◌≤◌};
    ghost use Rattle.mj_io.specs.Faults.{count_limit};

    ghost Value = { ℕ };

    ghost view = { λ c. c.count };

    ghost invariant = { λ c. c.count ≤ count_limit };
}

impl<'a, R: Files> FileCabinet<'a, R> {
    /// The files that `rt` reaches, before the first fault.
    pub fn new(rt: &'a R) -> FileCabinet<'a, R>
        ensures { result ≡ 0 }
    {
        FileCabinet { rt, count: 0 }
    }
}

impl<'a, R: Files> Cabinet for FileCabinet<'a, R> {
    ghost tells = { λ c. false };

    ghost holds = { λ c name. untold };

    ghost faults = { λ c name. c };

    fn read(&mut self, alloc: Global, name: &str, cap: usize) -> Result<Vec<u8>, CabinetFault>
        ensures gives { IfOk result (λ v. IsTrue false → Gives untold cap v.items) }
        ensures within { IfOk result (λ v. vec_len v ≤ cap) }
        ensures cause { result ≡ Err CabinetFault.Failed → Rose self.old self.new }
        ensures later { (n : List ℕ) → self.old ≤ self.new }
        ensures bounded { (n : List ℕ) → self.new ≤ count_limit }
        ensures tells_on { false ≡ false }
        ensures holds_on { (n : List ℕ) → untold ≡ untold }
        ensures after { self.new ≡ spec.count_after (is_fault result) self.old }
    {
        let opened = fs::open(self.rt, name);
        read_opened(alloc, opened, &mut self.count, cap)
    }
}

/// The output of the system. A write is a fault where the system answers with an error or takes no
/// byte, and where the flush after it fails; the count stands still at its greatest value. In
/// contracts it is this count.
#[derive(Drop)]
pub struct OutSink<'a, R: Print> {
    rt: &'a R,
    count: u64,
}

impl<'a, R: Print> Model for OutSink<'a, R> {
    ghost use Rattle.std.specs.Prelude.{ℕ, ◌≤◌};
    ghost use Rattle.mj_io.specs.Faults.{count_limit};

    ghost Value = { ℕ };

    ghost view = { λ s. s.count };

    ghost invariant = { λ s. s.count ≤ count_limit };
}

impl<'a, R: Print> OutSink<'a, R> {
    /// What `rt` prints to, before the first fault.
    pub fn new(rt: &'a R) -> OutSink<'a, R>
        ensures { result ≡ 0 }
    {
        OutSink { rt, count: 0 }
    }
}

impl<'a, R: Print> Sink for OutSink<'a, R> {
    ghost holds = { λ s. untold };

    ghost faults = { λ s. s };

    fn write(&mut self, piece: &[u8]) -> Result<usize, Failed>
        requires { 0 < length piece.now }
        ensures some { IfOk result (λ n. 0 < n) }
        ensures within { IfOk result (λ n. n ≤ length piece.now) }
        ensures grew { IfOk result (λ n. Grew untold (take n piece.now) untold) }
        ensures unchanged { OnErr result (untold ≡ untold) }
        ensures cause { OnErr result (Rose self.old self.new) }
        ensures calm { OnOk result (self.new ≡ self.old) }
        ensures later { self.old ≤ self.new }
        ensures bounded { self.new ≤ count_limit }
        ensures after { self.new ≡ spec.count_after (is_err result) self.old }
    {
        let mut out = io::writer(self.rt);
        write_some(&mut out, &mut self.count, piece)
    }
}
