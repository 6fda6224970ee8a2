// A cabinet in memory for tests: some of its reads fail.
ghost use Rattle.std.specs.Prelude.{◌≡◌, ◌≤◌, ◌^◌, ◌-◌, ℕ, List, Option, None, Some, is_none, IfOk, IfSome, IsTrue, vec_len, true, cond};
ghost use Rattle.mj_io.specs.Faults.{Rose, count_limit, raised};
ghost use Rattle.mj_io.specs.Growth.{Gives};
ghost use Rattle.mj_io.specs.Shelf as spec;

use crate::NoMemory;
use crate::cabinet::{Cabinet, CabinetFault};
use crate::count::{after_call, one_more};
use crate::files::{find, prefix_of};
use std::alloc::Global;
use std::marker::Model;

/// Files in memory that are told. The reads whose numbers, counted from 1, are listed fail, and so
/// does each read of a name that no file has. Of two files of one name the first is held. It keeps
/// one count of faults for all names.
#[derive(Drop)]
pub struct MemCabinet {
    files: Vec<(String, Vec<u8>)>,
    fails: Vec<u64>,
    reads: u64,
    count: u64,
}

impl Model for MemCabinet {
    ghost use Rattle.std.specs.Prelude.{◌≤◌};
    ghost use Rattle.mj_io.specs.Faults.{count_limit};
    ghost use Rattle.mj_io.specs.Shelf.{Shelf, texts_of};

    ghost Value = { Shelf };

    ghost view = { λ c. record {
      files = texts_of c.files.items;
      fails = c.fails.items;
      reads = c.reads;
      count = c.count;
    } };

    ghost invariant = { λ c. c.count ≤ count_limit };
}

impl MemCabinet {
    /// A cabinet of these files, before its first read. It takes no memory.
    pub fn new(files: Vec<(String, Vec<u8>)>, fails: Vec<u64>) -> MemCabinet
        ensures { result ≡ record {
          files = spec.texts_of files.items;
          fails = fails.items;
          reads = 0;
          count = 0;
        } }
    {
        MemCabinet {
            files,
            fails,
            reads: 0,
            count: 0,
        }
    }

    // What is held under a name, where the next read of it is no fault.
    fn shown(&self, name: &str) -> Option<&[u8]>
        ensures fault { is_none result ≡ spec.read_fails self.now name.now }
        ensures held { IfSome result
            (λ bytes. spec.first_named name.now self.now.files ≡ Some bytes.now) }
        ensures bounded { self.now.count ≤ count_limit }
    {
        let number = one_more(self.reads);
        if self.fails.contains(&number) {
            None
        } else {
            find(&self.files, name)
        }
    }

    // What the next read of a name gives.
    fn give(&self, alloc: Global, name: &str, cap: usize) -> Result<Vec<u8>, CabinetFault>
        ensures fault { spec.is_fault result ≡ spec.read_fails self.now name.now }
        ensures gives { IfOk result
            (λ v. Gives (spec.first_named name.now self.now.files) cap v.items) }
        ensures within { IfOk result (λ v. vec_len v ≤ cap) }
        ensures bounded { self.now.count ≤ count_limit }
    {
        match self.shown(name) {
            None => Err(CabinetFault::Failed),
            Some(bytes) => match prefix_of(alloc, bytes, cap) {
                Ok(prefix) => Ok(prefix),
                Err(NoMemory) => Err(CabinetFault::Memory),
            },
        }
    }
}

impl Cabinet for MemCabinet {
    ghost tells = { λ c. true };

    ghost holds = { λ c name. spec.first_named name c.files };

    ghost faults = { λ c name. c.count };

    fn read(&mut self, alloc: Global, name: &str, cap: usize) -> Result<Vec<u8>, CabinetFault>
        ensures gives { IfOk result
            (λ v. IsTrue true → Gives (spec.first_named name.now self.old.files) cap v.items) }
        ensures within { IfOk result (λ v. vec_len v ≤ cap) }
        ensures cause { result ≡ Err CabinetFault.Failed → Rose self.old.count self.new.count }
        ensures later { (n : List ℕ) → self.old.count ≤ self.new.count }
        ensures bounded { (n : List ℕ) → self.new.count ≤ count_limit }
        ensures tells_on { true ≡ true }
        ensures holds_on { (n : List ℕ) →
            spec.first_named n self.new.files ≡ spec.first_named n self.old.files }
        ensures fault { spec.is_fault result ≡ spec.read_fails self.old name.now }
        ensures after { self.new ≡ spec.after_read self.old name.now }
    {
        let given = self.give(alloc, name, cap);
        let failed = matches!(&given, Err(CabinetFault::Failed));
        self.reads = one_more(self.reads);
        self.count = after_call(self.count, failed);
        given
    }
}
