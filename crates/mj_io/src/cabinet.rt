// What files are read from.
ghost use Rattle.std.specs.Prelude.{◌≡◌, ◌≤◌, ◌^◌, ◌-◌, ℕ, Bool, List, Option, IsTrue, IfOk, vec_len};
ghost use Rattle.mj_io.specs.Faults.{Rose, count_limit};
ghost use Rattle.mj_io.specs.Growth.{Gives};

use std::alloc::Global;

/// Why a read gave no bytes: the cabinet failed, or memory was wanted.
#[derive(Clone, Copy, Debug, PartialEq, Eq)]
pub enum CabinetFault {
    Failed,
    Memory,
}

/// Files by name. `tells` says whether a contract knows what is held, `holds name` is the bytes under
/// a name or nothing, and `faults name` counts the faults under that name; an implementation may keep
/// one count for all names.
pub trait Cabinet {
    ghost tells: { Self → Bool };

    ghost holds: { Self → List ℕ → Option (List ℕ) };

    ghost faults: { Self → List ℕ → ℕ };

    /// The first `cap` bytes held under `name`, or all where there are fewer. `Failed` comes only
    /// where the count of this name rose in this call; `Memory` is free.
    fn read(&mut self, alloc: Global, name: &str, cap: usize) -> Result<Vec<u8>, CabinetFault>
        ensures gives { IfOk result
            (λ v. IsTrue (tells self.old) → Gives (holds self.old name.now) cap v.items) }
        ensures within { IfOk result (λ v. vec_len v ≤ cap) }
        ensures cause { result ≡ Err CabinetFault.Failed → Rose (faults self.old name.now)
            (faults self.new name.now) }
        ensures later { (n : List ℕ) → faults self.old n ≤ faults self.new n }
        ensures bounded { (n : List ℕ) → faults self.new n ≤ count_limit }
        ensures tells_on { tells self.new ≡ tells self.old }
        ensures holds_on { (n : List ℕ) → holds self.new n ≡ holds self.old n };
}
