// A cabinet in memory for tests: its reads never fail.
ghost use Rattle.std.specs.Prelude.{◌≡◌, ◌≤◌, ◌^◌, ◌-◌, ℕ, List, [], Option, None, Some, Err, IfOk, IsTrue, vec_len, true, false, unwrap_or};
ghost use Rattle.mj_io.specs.Faults.{Rose, count_limit};
ghost use Rattle.mj_io.specs.Growth.{Gives};
ghost use Rattle.mj_io.specs.Shelf as spec;

use crate::NoMemory;
use crate::cabinet::{Cabinet, CabinetFault};
use crate::files::{find, prefix_of};
use std::alloc::Global;
use std::marker::Model;

/// Files in memory that are told, with the empty text under every other name. No read of it fails. Of
/// two files of one name the first is held.
#[derive(Drop)]
pub struct SureCabinet {
    files: Vec<(String, Vec<u8>)>,
}

impl Model for SureCabinet {
    ghost use Rattle.std.specs.Prelude.{ℕ, List};
    ghost use Rattle.mj_io.specs.Shelf.{texts_of};

    ghost Value = { List (List ℕ × List ℕ) };

    ghost view = { λ c. texts_of c.files.items };
}

impl SureCabinet {
    /// A cabinet of these files. It takes no memory.
    pub fn new(files: Vec<(String, Vec<u8>)>) -> SureCabinet
        ensures { result ≡ spec.texts_of files.items }
    {
        SureCabinet { files }
    }

    // The bytes under a name.
    fn text(&self, name: &str) -> &[u8]
        ensures { result.now ≡ spec.text_named name.now self.now }
    {
        find(&self.files, name).unwrap_or(&[])
    }
}

impl Cabinet for SureCabinet {
    ghost tells = { λ c. true };

    ghost holds = { λ c name. Some (spec.text_named name c) };

    ghost faults = { λ c name. 0 };

    fn read(&mut self, alloc: Global, name: &str, cap: usize) -> Result<Vec<u8>, CabinetFault>
        ensures gives { IfOk result
            (λ v. IsTrue true → Gives (Some (spec.text_named name.now self.old)) cap v.items) }
        ensures within { IfOk result (λ v. vec_len v ≤ cap) }
        ensures cause { result ≡ Err CabinetFault.Failed → Rose 0 0 }
        ensures later { (n : List ℕ) → 0 ≤ 0 }
        ensures bounded { (n : List ℕ) → 0 ≤ count_limit }
        ensures tells_on { true ≡ true }
        ensures holds_on { (n : List ℕ) → Some (spec.text_named n self.new) ≡ Some
            (spec.text_named n self.old) }
        ensures sure { spec.is_fault result ≡ false }
        ensures unchanged { self.new ≡ self.old }
    {
        match prefix_of(alloc, self.text(name), cap) {
            Ok(prefix) => Ok(prefix),
            Err(NoMemory) => Err(CabinetFault::Memory),
        }
    }
}
