// Bytes from a reader and to a writer, where each fault of theirs is counted and nothing else is.
ghost use Rattle.std.specs.Prelude.{◌≡◌, ◌<◌, ◌≤◌, ◌+◌, ℕ, Ok, Err, take, length, IfOk, IfSome, OnOk, OnErr, is_err, vec_len, true};
ghost use Rattle.std.specs.Io.KnownBytes.{Appends, Consumes, IsAtEnd};
ghost use Rattle.mj_io.specs.Shelf.{is_fault};
ghost use Rattle.mj_io.specs.System as spec;

use crate::cabinet::CabinetFault;
use crate::count::after_call;
use crate::sink::Failed;
use std::alloc::Global;
use std::io;
use std::io::{Read, Write};

/// How many bytes are asked of a reader at once.
const PIECE: usize = 8_192;

/// What a system answered. An error of it is `Failed` and raises the count; nothing else is.
fn count_error<T>(count: &mut u64, answer: io::Result<T>) -> Result<T, Failed>
    ensures value { IfOk result (λ value. answer ≡ Ok value) }
    ensures failed { is_err result ≡ is_err answer }
    ensures count { count.new ≡ spec.count_after (is_err answer) count.old }
{
    *count = after_call(*count, answer.is_err());
    match answer {
        Ok(value) => Ok(value),
        Err(_) => Err(Failed),
    }
}

/// Reads once into `piece`, and says how many bytes came.
fn read_once<F: Read>(file: &mut F, count: &mut u64, piece: &mut [u8]) -> Result<usize, Failed>
    ensures within { IfOk result (λ n. n ≤ length piece.new) }
    ensures room { length piece.new ≡ length piece.old }
    ensures known { IfOk result (λ n. Consumes (F.remaining file.old) (F.remaining file.new)
        (take n piece.new)) }
    ensures end { IfOk result (λ n. n ≡ 0 → 0 < length piece.old → IsAtEnd (F.remaining file.new)) }
    ensures count { count.new ≡ spec.count_after (is_err result) count.old }
{
    let answer = file.read(piece);
    count_error(count, answer)
}

/// Appends the bytes of one read, up to a length of `cap`, and says how many came.
fn read_piece<F: Read>(
    file: &mut F,
    count: &mut u64,
    bytes: &mut Vec<u8>,
    cap: usize,
) -> Result<usize, CabinetFault>
    requires { vec_len bytes.old < cap }
    ensures more { IfOk result (λ n. vec_len bytes.new ≡ vec_len bytes.old + n) }
    ensures within { IfOk result (λ n. vec_len bytes.new ≤ cap) }
    ensures known { OnOk result (spec.ReadsOn (F.remaining file.old) (F.remaining file.new)
        bytes.old.items bytes.new.items) }
    ensures end { IfOk result (λ n. n ≡ 0 → IsAtEnd (F.remaining file.new)) }
    ensures count { count.new ≡ spec.count_after (is_fault result) count.old }
{
    let mut piece = [0; PIECE];
    let room = PIECE.min(cap - bytes.len());
    let Ok(more) = read_once(file, count, &mut piece[..room]) else {
        return Err(CabinetFault::Failed);
    };
    match bytes.extend_from_slice(&piece[..more]) {
        Ok(_) => Ok(more),
        Err(_) => Err(CabinetFault::Memory),
    }
}

/// The first `cap` bytes that a reader gives, or all of them where there are fewer. `Failed` comes
/// only where the reader answered with an error, which raises the count by one; want of memory is
/// `Memory` and raises nothing. Each read but the last gives at least one byte.
pub fn read_prefix<F: Read>(
    alloc: Global,
    file: &mut F,
    count: &mut u64,
    cap: usize,
) -> Result<Vec<u8>, CabinetFault>
    ensures prefix { IfOk result
        (λ v. IfSome (F.remaining file.old) (λ all. v.items ≡ take cap all)) }
    ensures rest { IfOk result
        (λ v. Consumes (F.remaining file.old) (F.remaining file.new) v.items) }
    ensures within { IfOk result (λ v. vec_len v ≤ cap) }
    ensures count { count.new ≡ spec.count_after (is_fault result) count.old }
{
    let mut bytes = Vec::new(alloc);
    while bytes.len() < cap {
        if read_piece(file, count, &mut bytes, cap)? == 0 {
            break;
        }
    }
    Ok(bytes)
}

/// The first `cap` bytes of a file that the system opened, or `Failed` where it answered with an
/// error.
pub fn read_opened<F: Read + Drop>(
    alloc: Global,
    opened: io::Result<F>,
    count: &mut u64,
    cap: usize,
) -> Result<Vec<u8>, CabinetFault>
    ensures missing { is_err opened ≡ true → result ≡ Err CabinetFault.Failed }
    ensures prefix { IfOk opened (λ file. IfOk result (λ v. IfSome (F.remaining file)
        (λ all. v.items ≡ take cap all))) }
    ensures within { IfOk result (λ v. vec_len v ≤ cap) }
    ensures count { count.new ≡ spec.count_after (is_fault result) count.old }
{
    match count_error(count, opened) {
        Ok(mut file) => read_prefix(alloc, &mut file, count, cap),
        Err(Failed) => Err(CabinetFault::Failed),
    }
}

// A write's answer, where taking no byte is an error.
fn some_bytes(answer: io::Result<usize>) -> io::Result<usize>
    ensures value { IfOk result (λ n. (answer ≡ Ok n) × (0 < n)) }
    ensures failed { is_err result ≡ spec.takes_nothing answer }
{
    match answer {
        Ok(0) => Err(io::Error::from(io::ErrorKind::WriteZero)),
        other => other,
    }
}

/// Writes once and flushes, and says how many of the first bytes of `piece` the writer took, at least
/// one. `Failed` comes only where the writer answered with an error or took no byte, which raises the
/// count by one; where its flush failed it may have taken some.
pub fn write_some<W: Write>(out: &mut W, count: &mut u64, piece: &[u8]) -> Result<usize, Failed>
    ensures some { IfOk result (λ n. 0 < n) }
    ensures within { IfOk result (λ n. n ≤ length piece.now) }
    ensures appends { IfOk result (λ n. Appends (W.contents out.old) (W.contents out.new)
        (take n piece.now)) }
    ensures err { OnErr result (spec.AppendsPrefix (W.contents out.old) (W.contents out.new)
        piece.now) }
    ensures count { count.new ≡ spec.count_after (is_err result) count.old }
{
    let answer = out.write(piece);
    let taken = count_error(count, some_bytes(answer))?;
    let flushed = out.flush();
    count_error(count, flushed)?;
    Ok(taken)
}
