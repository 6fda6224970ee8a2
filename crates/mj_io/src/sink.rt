// What bytes are written to.
ghost use Rattle.std.specs.Prelude.{◌≡◌, ◌<◌, ◌≤◌, ◌^◌, ◌-◌, ℕ, List, Option, take, length, IfOk, OnOk, OnErr};
ghost use Rattle.mj_io.specs.Faults.{Rose, count_limit};
ghost use Rattle.mj_io.specs.Growth.{Grew, GrewPart};

/// A write failed.
#[derive(Clone, Copy, Debug, PartialEq, Eq)]
pub struct Failed;

/// What bytes are written to. `holds` is the bytes so far, where they are told, and `faults` counts
/// the writes that failed, and nothing else.
pub trait Sink {
    ghost holds: { Self → Option (List ℕ) };

    ghost faults: { Self → ℕ };

    /// Writes some of the first bytes of `piece`, at least one, and says how many. A failed write has
    /// written nothing, and comes only where the count rose in this call.
    fn write(&mut self, piece: &[u8]) -> Result<usize, Failed>
        requires { 0 < length piece.now }
        ensures some { IfOk result (λ n. 0 < n) }
        ensures within { IfOk result (λ n. n ≤ length piece.now) }
        ensures grew { IfOk result
            (λ n. Grew (holds self.old) (take n piece.now) (holds self.new)) }
        ensures unchanged { OnErr result (holds self.new ≡ holds self.old) }
        ensures cause { OnErr result (Rose (faults self.old) (faults self.new)) }
        ensures calm { OnOk result (faults self.new ≡ faults self.old) }
        ensures later { faults self.old ≤ faults self.new }
        ensures bounded { faults self.new ≤ count_limit };
}

/// Writes all of `bytes`, in at most one write a byte. After `Failed` a prefix of them was written, and
/// the sink's count rose; else it stayed.
pub fn put<S: Sink>(sink: &mut S, bytes: &[u8]) -> Result<(), Failed>
    ensures ok { OnOk result (Grew (S.holds sink.old) bytes.now (S.holds sink.new)) }
    ensures err { OnErr result (GrewPart (S.holds sink.old) bytes.now (S.holds sink.new)) }
    ensures cause { OnErr result (Rose (S.faults sink.old) (S.faults sink.new)) }
    ensures calm { OnOk result (S.faults sink.new ≡ S.faults sink.old) }
    ensures later { S.faults sink.old ≤ S.faults sink.new }
{
    let mut start = 0;
    while start < bytes.len() {
        start += sink.write(&bytes[start..])?;
    }
    Ok(())
}
