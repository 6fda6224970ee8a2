// A dump's verdict.
ghost use Rattle.std.specs.Prelude.{◌≡◌, ◌≤◌, ◌<◌, ◌+◌, ◌*◌, ◌^◌, ℕ, Result, IfOk, length, true};
ghost use Rattle.mj_check.specs.Judging.{found_as};
ghost use Rattle.mj_check.specs.Lines.{IsHeader};
ghost use Rattle.mj_check.specs.Places.{HasPlaces};
ghost use Rattle.mj_check.specs.Stated as stated;
ghost use Rattle.mj_check.specs.Verdict as spec;

use crate::block::judge_block;
use crate::dual::Making;
use crate::ending::judge_end;
use crate::header::{Header, find_header};
use crate::motion::begins_step;
use crate::rejection::Rejection;
use crate::room::Room;
use fx_list::{Array, Listing};
use fx_num::{Number, Wide};
use mj_reading::Scan;
use mj_types::{Cert, Dual, Forces, NoMemory, Reason, Verdict};
use std::alloc::{AllocError, Global};

/// The most bytes that are judged.
const TEXT_LIMIT: usize = 67_108_864;

/// The most rows of a block.
const MOST_ROWS: usize = 1024;

// How many blocks there are, and the line behind them.
#[derive(Clone, Copy)]
pub struct Blocks {
    pub count: usize,
    pub line: usize,
}

// The blocks, as long as one begins and is accepted.
fn judge_blocks(scan: &mut Scan<'_>, header: &Header, room: &mut Room) -> Result<Blocks, Rejection>
    requires going { scan.old.going ≡ true }
    requires header { IsHeader header.now }
    requires room { HasPlaces room.old }
    requires nv { room.old.making.dual.nv ≡ header.now.nv }
    ensures going { IfOk result (λ _. scan.new.going ≡ true) }
    ensures small { IfOk result (λ b. b.line ≤ 2 + header.now.steps * 2060) }
    ensures few { IfOk result (λ b. b.count ≤ header.now.steps) }
    ensures blocks { spec.AreBlocks header.now (2, scan.old.rest)
        (found_as (λ b. (b.count, (b.line, scan.new.rest))) result) }
{
    let mut line = 2;
    for k in 0..header.steps {
        if !begins_step(scan, k + 1) {
            return Ok(Blocks { count: k, line });
        }
        line = judge_block(scan, header, line, k + 1, room)?;
    }
    Ok(Blocks {
        count: header.steps,
        line,
    })
}

// What stands behind the first line: how many blocks there are.
fn judge_rest(scan: &mut Scan<'_>, header: &Header, room: &mut Room) -> Result<usize, Rejection>
    requires going { scan.old.going ≡ true }
    requires header { IsHeader header.now }
    requires room { HasPlaces room.old }
    requires nv { room.old.making.dual.nv ≡ header.now.nv }
    ensures few { IfOk result (λ n. n ≤ 1000000) }
    ensures rest { spec.IsJudgedRest header.now scan.old.rest result }
{
    let blocks = judge_blocks(scan, header, room)?;
    judge_end(scan, blocks.line, blocks.count, header.steps)?;
    Ok(blocks.count)
}

// A certificate of no rows, with room for so many.
fn cert(alloc: Global, rows: usize) -> Result<Cert, AllocError>
    ensures lo { IfOk result (λ c. length c.lo ≡ rows) }
    ensures hi { IfOk result (λ c. length c.hi ≡ rows) }
    ensures slope { IfOk result (λ c. length c.slope ≡ rows) }
    ensures depth { IfOk result (λ c. length c.depth ≡ rows) }
{
    let zero = Number { mid: 0, rad: () };
    Ok(Cert {
        cost2: 0,
        bound2: 0,
        lo: Array::filled(alloc, rows, zero)?,
        hi: Array::filled(alloc, rows, zero)?,
        slope: Array::filled(alloc, rows, Wide { raw: 0 })?,
        depth: Array::filled(alloc, rows, Wide { raw: 0 })?,
    })
}

// Room to make a dual of so many dofs in.
fn making(alloc: Global, nv: usize) -> Result<Making, NoMemory>
    requires { nv ≤ 64 }
    ensures places { IfOk result (λ x. stated.HasPlaces x) }
    ensures nv { IfOk result (λ x. x.dual.nv ≡ nv) }
{
    let dual = Dual::with_room(alloc, MOST_ROWS, nv)?;
    match (
        Array::filled(alloc, 128, Wide { raw: 0 }),
        Array::filled(alloc, nv, Number { mid: 0, rad: () }),
    ) {
        (Ok(numbers), Ok(row)) => Ok(Making { numbers, row, dual }),
        _ => Err(NoMemory),
    }
}

// Room for a block of so many dofs.
fn room(alloc: Global, nv: usize) -> Result<Room, NoMemory>
    requires { nv ≤ 64 }
    ensures places { IfOk result (λ x. HasPlaces x) }
    ensures nv { IfOk result (λ x. x.making.dual.nv ≡ nv) }
{
    let making = making(alloc, nv)?;
    let forces = Forces::with_room(alloc, MOST_ROWS, 64)?;
    match (Listing::new(alloc, MOST_ROWS), cert(alloc, MOST_ROWS)) {
        (Ok(rows), Ok(cert)) => Ok(Room {
            rows,
            making,
            forces,
            cert,
        }),
        _ => Err(NoMemory),
    }
}

// What a judgement comes to.
fn verdict_of(judged: Result<usize, Rejection>) -> Verdict
    requires { IfOk judged (λ n. n ≤ 1000000) }
    ensures { result ≡ spec.verdict_of judged }
{
    match judged {
        Ok(blocks) => Verdict::Accepted {
            blocks: blocks as u32,
        },
        Err(e) => Verdict::Rejected {
            line: e.line,
            reason: e.reason,
        },
    }
}

// The verdict of a text of which the first line was found.
fn verdict_behind(alloc: Global, scan: &mut Scan<'_>, header: &Header) -> Result<Verdict, NoMemory>
    requires going { scan.old.going ≡ true }
    requires header { IsHeader header.now }
    ensures { IfOk result (λ v. (judged : Result ℕ Rejection)
        × spec.IsJudgedRest header.now scan.old.rest judged × (v ≡ spec.verdict_of judged)) }
{
    let mut room = room(alloc, header.nv)?;
    Ok(verdict_of(judge_rest(scan, header, &mut room)))
}

// The verdict of a text that isn't too large.
fn judge_text(alloc: Global, bytes: &[u8]) -> Result<Verdict, NoMemory>
    ensures { IfOk result (λ v. (judged : Result ℕ Rejection)
        × spec.IsJudged bytes.now judged × (v ≡ spec.verdict_of judged)) }
{
    let mut scan = Scan::new(bytes);
    match find_header(&mut scan) {
        Ok(header) => verdict_behind(alloc, &mut scan, &header),
        Err(e) => Ok(verdict_of(Err(e))),
    }
}

/// The verdict of a dump, which `run` writes with its duals: accepted, with how many blocks it has, or
/// rejected at the first line that isn't in form, is past a limit, or whose force, cost, bound or box
/// isn't the one that the block's dual gives. Takes memory for one block, once.
pub fn check(alloc: Global, bytes: &[u8]) -> Result<Verdict, NoMemory>
    ensures verdict { IfOk result (λ v. spec.IsVerdict bytes.now v) }
    ensures holds { IfOk result (λ v. spec.VerdictHolds bytes.now v) }
{
    if bytes.len() > TEXT_LIMIT {
        return Ok(Verdict::Rejected {
            line: 1,
            reason: Reason::TooLarge,
        });
    }
    judge_text(alloc, bytes)
}
