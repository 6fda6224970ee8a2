// What no clause says of traces: whole texts, worked by hand.
ghost use Rattle.std.specs.Prelude.{◌≡◌, ◌<◌, ◌≤◌, ◌^◌, ℕ, unsigned_abs, length, IsTrue};
ghost use Rattle.mj_types.specs.Parts.{number_at};
ghost use Rattle.mj_trace.specs.Reports.{HasForces};

use fx_list::{Array, Listing};
use fx_num::{Fix, Number, Wide};
use fx_whole::Divisor;
use mj_io::{NoMemory, RoomSink};
use mj_trace::{accepted, ball_line, block, end, refusal, rejected, summary};
use mj_types::{
    Ball, Cert, Dual, DualRow, End, Forces, ModelCode, ModelFault, Path, Quantity, Reason, Row,
    Soft, Source, State, Status, StepReport, Stop, Summary, TapeFault,
};
use std::alloc::{AllocError, Global};
use std::test::Fail;

fn number<const F: u32>(raw: i64) -> Fix<F> {
    Number { mid: raw, rad: () }
}

fn list<const F: u32>(alloc: Global, raw: i64) -> Result<Array<Fix<F>>, AllocError> {
    Array::filled(alloc, 1, number::<F>(raw))
}

// A row of a joint's low limit, or of its friction.
fn row(source: Source, low: Option<Fix<20>>, high: Option<Fix<20>>) -> Row {
    let zero = number::<32>(0);
    let soft = Soft {
        tc: zero,
        dr: zero,
        dmin: zero,
        dmax: zero,
        width: zero,
        mid: zero,
        power: 1,
    };
    Row {
        source,
        r: zero,
        soft,
        idle: false,
        low,
        high,
    }
}

fn state(alloc: Global, q: i64, v: i64) -> Result<State, AllocError> {
    Ok(State {
        q: list(alloc, q)?,
        v: list(alloc, v)?,
    })
}

fn forces(alloc: Global, force: i64) -> Result<Forces, AllocError> {
    Ok(Forces {
        f: list(alloc, force)?,
        u: list(alloc, 0)?,
        divisor: Array::filled(alloc, 1, Divisor::new(1))?,
        used: Array::filled(alloc, 1, 0)?,
    })
}

// A certificate of no gap, whose box is the force.
fn cert(alloc: Global, force: i64, cost: i128) -> Result<Cert, AllocError> {
    Ok(Cert {
        cost2: cost,
        bound2: cost,
        lo: list(alloc, force)?,
        hi: list(alloc, force)?,
        slope: Array::filled(alloc, 1, Wide { raw: 0 })?,
        depth: Array::filled(alloc, 1, Wide { raw: 0 })?,
    })
}

fn one_row(alloc: Global, row: Row) -> Result<Listing<Row>, AllocError> {
    let mut rows = Listing::new(alloc, 1)?;
    if rows.len() < rows.most() {
        rows.push(row);
    }
    Ok(rows)
}

// A report of one row, whose force is also both ends of its box.
fn report(
    alloc: Global,
    format: u32,
    accel: i64,
    row: Row,
    force: i64,
    cost: i128,
) -> Result<StepReport, AllocError> {
    Ok(StepReport {
        format,
        accel: list(alloc, accel)?,
        residual: 0,
        mass_radius: 0,
        bias_radius: 0,
        rows: one_row(alloc, row)?,
        count: 1,
        stop: Stop::Tolerance(2),
        forces: forces(alloc, force)?,
        cert: cert(alloc, force, cost)?,
    })
}

#[test]
fn kinds_and_codes_have_their_names(rt: HostRuntime) {
    assert_eq!(rt; Quantity::QuatNorm.name(), "QuatNorm");
    assert_eq!(rt; Quantity::Violation.name(), "Violation");
    assert_eq!(rt; Quantity::ErrorBound.name(), "ErrorBound");
    assert_eq!(rt; ModelCode::PlaneOffWorld.name(), "PlaneOffWorld");
    assert_eq!(rt; Status::Memory.code(), 8);
    let rejected = Status::Rejected {
        line: 9,
        reason: Reason::Box,
    };
    assert_eq!(rt; rejected.code(), 9);
    assert_eq!(rt; Reason::Feasible.name(), "Feasible");
    assert_eq!(rt; Quantity::InverseLoad.name(), "InverseLoad");
}

#[test]
fn balls_and_verdicts_have_their_lines(rt: HostRuntime) -> Result<(), Fail> {
    let mut sink = RoomSink::new(rt.alloc(), 200)?;
    let ball = Ball {
        shift: 37,
        low: 137_438_953_366,
        radius: 0,
    };
    assert!(rt; ball_line(&mut sink, Some(ball)).is_ok());
    assert!(rt; ball_line(&mut sink, None).is_ok());
    assert!(rt; accepted(&mut sink, 1).is_ok());
    assert!(rt; rejected(&mut sink, 9, Reason::Box).is_ok());
    assert_eq!(rt;
        sink.held(),
        Some(b"ball 37 137438953366 0\n\
ball none\n\
accepted 1\n\
rejected 9 Box\n"
            .as_slice())
    );
    Ok(())
}

#[test]
fn ends_and_refusals_have_their_lines(rt: HostRuntime) -> Result<(), Fail> {
    let mut sink = RoomSink::new(rt.alloc(), 200)?;
    let early = End::OutOfRange {
        step: 11,
        kind: Quantity::Position,
        index: 1,
    };
    assert!(rt; end(&mut sink, &End::Done).is_ok());
    assert!(rt; end(&mut sink, &early).is_ok());
    assert!(rt; refusal(&mut sink, &Status::BadWords { at: 3 }).is_ok());
    let bad = Status::BadTape {
        tape: 1,
        fault: TapeFault::BadNumber(3, 2),
    };
    assert!(rt; refusal(&mut sink, &bad).is_ok());
    let fault = ModelFault {
        code: ModelCode::BadRange,
        path: Path::from_slice(rt.alloc(), b"format")?,
    };
    assert!(rt; refusal(&mut sink, &Status::BadModel(fault)).is_ok());
    assert_eq!(rt;
        sink.held(),
        Some(b"end done\n\
end out-of-range step=11 kind=Position index=1\n\
refused words 3\n\
refused tape 1 BadNumber 3 2\n\
refused model BadRange format\n"
            .as_slice())
    );
    Ok(())
}

fn has_forces(report: &StepReport) -> bool
    ensures { IsTrue result → HasForces report.now }
{
    let rows = report.rows.len();
    if report.count != rows {
        return false;
    }
    if report.forces.f.len() < rows {
        return false;
    }
    if report.cert.lo.len() < rows {
        return false;
    }
    rows <= report.cert.hi.len()
}

// The block of a step, with its dual where one is given.
fn block_held(
    alloc: Global,
    step: u32,
    state: &State,
    report: &StepReport,
    dual: Option<&Dual>,
) -> Result<RoomSink, NoMemory> {
    let mut sink = RoomSink::new(alloc, 1000)?;
    if report.accel.len() == state.v.len() && has_forces(report) {
        let _ = block(&mut sink, step, state, report, dual);
    }
    Ok(sink)
}

fn limit_block(alloc: Global) -> Result<RoomSink, Fail> {
    let state = state(alloc, -3_087_007_744, -3_758_096_384)?;
    let report = report(
        alloc,
        1,
        -15_032_385_536,
        row(Source::Low(1), Some(number(0)), None),
        4_718_592,
        -12_534_142_897_764_475_283_353_632_768,
    )?;
    Ok(block_held(alloc, 1, &state, &report, None)?)
}

#[test]
fn a_limit_has_its_block(rt: HostRuntime) -> Result<(), Fail> {
    let sink = limit_block(rt.alloc())?;
    assert_eq!(rt;
        sink.held(),
        Some(b"step 1\n\
q -3087007744\n\
v -3758096384\n\
a -15032385536\n\
residual 0\n\
radius 0 0\n\
rows 1 idle 0\n\
row 1 low 1 4718592 4718592 4718592\n\
stop tolerance 2\n\
cost -12534142897764475283353632768 -12534142897764475283353632768\n"
            .as_slice())
    );
    Ok(())
}

// The dual of a joint's friction of 2 N.
fn friction_dual(alloc: Global) -> Result<Dual, NoMemory> {
    let mut dual = Dual::with_room(alloc, 1, 1)?;
    let line = DualRow {
        place: 1,
        diag: Wide { raw: 1 << 48 },
        r: Wide { raw: 1 << 48 },
        b: number(-34_359_738_368),
        low: Some(number(-2_097_152)),
        high: Some(number(2_097_152)),
    };
    let g = [number(1 << 24)];
    if dual.has_spare() && dual.nv <= 64 && line.is_lawful(&g, dual.nv) {
        dual.push(&g, line);
    }
    Ok(dual)
}

fn friction_block(alloc: Global) -> Result<RoomSink, Fail> {
    let state = state(alloc, -1_610_612_736, -6_442_450_944)?;
    let (low, high) = (Some(number(-2_097_152)), Some(number(2_097_152)));
    let report = report(
        alloc,
        2,
        -25_769_803_776,
        row(Source::Friction(1), low, high),
        2_097_152,
        -7_427_640_235_712_281_649_394_745_344,
    )?;
    let dual = friction_dual(alloc)?;
    Ok(block_held(alloc, 1, &state, &report, Some(&dual))?)
}

#[test]
fn a_friction_has_its_bounds_and_its_dual(rt: HostRuntime) -> Result<(), Fail> {
    let sink = friction_block(rt.alloc())?;
    assert_eq!(rt;
        sink.held(),
        Some(b"step 1\n\
q -1610612736\n\
v -6442450944\n\
a -25769803776\n\
residual 0\n\
radius 0 0\n\
rows 1 idle 0\n\
row 1 friction 1 2097152 2097152 2097152 in -2097152 2097152\n\
stop tolerance 2\n\
cost -7427640235712281649394745344 -7427640235712281649394745344\n\
dual 1 1 bounds\n\
d 1 281474976710656 -34359738368 -2097152 2097152 16777216\n"
            .as_slice())
    );
    Ok(())
}

// Whether each number is at most 2^20 in size.
fn are_small(xs: &[Fix<32>]) -> bool
    ensures { IsTrue result → (i : ℕ) → i < length xs.now
        → unsigned_abs (number_at xs.now i) ≤ 2 ^ 52 }
{
    for i in 0..xs.len() {
        if xs[i].mid.unsigned_abs() > 1 << 52 {
            return false;
        }
    }
    true
}

fn summary_held(alloc: Global, sum: &Summary) -> Result<RoomSink, Fail> {
    let state = state(alloc, 1_610_612_736, 1_073_741_824)?;
    let mut sink = RoomSink::new(alloc, 1000)?;
    if are_small(state.q.as_slice()) && are_small(state.v.as_slice()) {
        let _ = summary(&mut sink, sum, &state);
    }
    Ok(sink)
}

#[test]
fn a_run_has_its_summary(rt: HostRuntime) -> Result<(), Fail> {
    let sum = Summary {
        steps: 3,
        done: 3,
        end: End::Done,
        rows: 0,
        idle: 0,
        sweeps: 0,
        tolerance: 0,
        limit: 0,
        none: 3,
        gap: 0,
        residual: 0,
    };
    let sink = summary_held(rt.alloc(), &sum)?;
    assert_eq!(rt;
        sink.held(),
        Some(b"steps 3 of 3\n\
end done\n\
rows 0 idle 0\n\
sweeps 0 tolerance 0 limit 0 none 3\n\
gap 0\n\
residual 0\n\
q 0.375000000\n\
v 0.250000000\n"
            .as_slice())
    );
    Ok(())
}
