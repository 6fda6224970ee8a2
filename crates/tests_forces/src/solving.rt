//! The solver of a dual, its certificate, and both together, on the same duals, worked by hand: each
//! force's nearest step, its bounds, when the sweeps end, and what a certificate says of what they leave.
ghost use Rattle.std.specs.Prelude.{◌≡◌, length, IfOk};

use fx_list::Array;
use fx_num::{Fix, Number, Wide};
use mj_cert::certify;
use mj_force::enclose;
use mj_pgs::solve;
use mj_types::{Cert, Dual, DualRow, Forces, OutOfRange, Quantity, Stop};
use std::alloc::{AllocError, Global};
use std::process::Abort;
use std::test::Fail;

/// A row of a dual: the first two of its numbers of G, which are 0 from there on.
#[derive(Clone, Copy)]
struct Line {
    g: [i64; 2],
    r: i128,
    b: i64,
    low: Option<i64>,
    high: Option<i64>,
}

/// A row that pushes alone: its low bound is 0, and it has no high one.
fn push(g: [i64; 2], r: i128, b: i64) -> Line {
    Line {
        g,
        r,
        b,
        low: Some(0),
        high: None,
    }
}

fn bound(x: Option<i64>) -> Option<Fix<20>> {
    match x {
        Some(mid) => Some(Number { mid, rad: () }),
        None => None,
    }
}

/// Adds a row, at a place in the list of rows.
fn add(
    rt: &impl Abort,
    alloc: Global,
    dual: &mut Dual,
    place: usize,
    line: &Line,
) -> Result<(), Fail> {
    let nv = dual.nv;
    let mut numbers = Vec::new(alloc);
    for k in 0..nv {
        let mid = if k < 2 { line.g[k] } else { 0 };
        numbers.push(Number { mid, rad: () })?;
    }
    let [first, second] = line.g.map(|x| i128::from(x).wrapping_mul(i128::from(x)));
    let row = DualRow {
        place,
        diag: Wide {
            raw: first.wrapping_add(second),
        },
        r: Wide { raw: line.r },
        b: Number {
            mid: line.b,
            rad: (),
        },
        low: bound(line.low),
        high: bound(line.high),
    };
    assert!(rt; nv <= 64);
    assert!(rt; dual.has_spare());
    assert!(rt; row.is_lawful(numbers.as_slice(), nv), "a lawful row");
    dual.push(numbers.as_slice(), row);
    Ok(())
}

/// A dual of these rows, whose places are counted from one.
fn dual_of(
    rt: &impl Abort,
    alloc: Global,
    nv: usize,
    first: usize,
    lines: &[Line],
) -> Result<Dual, Fail> {
    assert!(rt; nv <= 64);
    assert!(rt; lines.len() <= 1024);
    assert!(rt; first <= 1024);
    let mut dual = Dual::with_room(alloc, lines.len(), nv)?;
    for (i, line) in lines.iter().enumerate() {
        add(rt, alloc, &mut dual, first + i, line)?;
    }
    Ok(dual)
}

/// What a certificate says: the cost, the bound, and the ends of the box.
#[derive(Clone, Copy)]
struct Wanted {
    cost2: i128,
    bound2: i128,
    ends: [(i64, i64); 3],
}

/// A dual of the first of these rows, how it is solved, and what comes of it. Arrays and not slices, so
/// that a case holds no reference. What a certificate says is compared where it is given.
#[derive(Clone, Copy)]
struct Case {
    nv: usize,
    first: usize,
    rows: usize,
    lines: [Line; 3],
    iterations: u32,
    swept: Result<Stop, OutOfRange>,
    f: [i64; 3],
    u: [i64; 2],
    certified: Option<Result<Wanted, OutOfRange>>,
}

const NO_LINE: Line = Line {
    g: [0, 0],
    r: 0,
    b: 0,
    low: None,
    high: None,
};

const MANY: Case = Case {
    nv: 1,
    first: 1,
    rows: 1,
    lines: [NO_LINE, NO_LINE, NO_LINE],
    iterations: 100,
    swept: Ok(Stop::NoRows),
    f: [0, 0, 0],
    u: [0, 0],
    certified: None,
};

const ONCE: Case = Case {
    iterations: 1,
    rows: 2,
    swept: Ok(Stop::Limit(1)),
    ..MANY
};

/// 1e-8.
const TOLERANCE: i64 = 43;

/// What the solver and the certificate answer one after the other, and both together.
#[derive(Drop)]
struct Told {
    swept: Result<Stop, OutOfRange>,
    certified: Result<(), OutOfRange>,
    enclosed: Result<Stop, OutOfRange>,
    forces: Forces,
    cert: Cert,
}

/// A certificate of ones, with room for so many rows.
fn no_certificate(alloc: Global, rows: usize) -> Result<Cert, AllocError>
    ensures lo { IfOk result (λ c. length c.lo ≡ rows) }
    ensures hi { IfOk result (λ c. length c.hi ≡ rows) }
    ensures slope { IfOk result (λ c. length c.slope ≡ rows) }
    ensures depth { IfOk result (λ c. length c.depth ≡ rows) }
{
    Ok(Cert {
        cost2: 1,
        bound2: 1,
        lo: Array::filled(alloc, rows, Number { mid: 1, rad: () })?,
        hi: Array::filled(alloc, rows, Number { mid: 1, rad: () })?,
        slope: Array::filled(alloc, rows, Wide { raw: 1 })?,
        depth: Array::filled(alloc, rows, Wide { raw: 1 })?,
    })
}

/// The direct calls: the one place where a dual is solved and certified.
fn solve_and_certify(
    rt: &impl Abort,
    alloc: Global,
    dual: &Dual,
    iterations: u32,
    tolerance: i64,
) -> Result<Told, Fail> {
    assert!(rt; iterations >= 1);
    assert!(rt; tolerance >= 0);
    assert!(rt; dual.is_solvable());
    let tolerance = Number {
        mid: tolerance,
        rad: (),
    };
    let mut forces = Forces::with_room(alloc, dual.m, dual.nv)?;
    let mut cert = no_certificate(alloc, dual.m)?;
    let enclosed = enclose(dual, iterations, tolerance, &mut forces, &mut cert);
    let swept = solve(dual, iterations, tolerance, &mut forces);
    let certified = match swept {
        Ok(_) => certify(dual, &forces, &mut cert),
        Err(_) => Ok(()),
    };
    Ok(Told {
        swept,
        certified,
        enclosed,
        forces,
        cert,
    })
}

fn raws<const F: u32>(alloc: Global, list: &[Fix<F>]) -> Result<Vec<i64>, AllocError> {
    let mut raws = Vec::new(alloc);
    for x in list {
        raws.push(x.mid)?;
    }
    Ok(raws)
}

fn ends_of(alloc: Global, cert: &Cert) -> Result<Vec<(i64, i64)>, AllocError> {
    let mut ends = Vec::new(alloc);
    for (lo, hi) in cert.lo.as_slice().iter().zip(cert.hi.as_slice().iter()) {
        ends.push((lo.mid, hi.mid))?;
    }
    Ok(ends)
}

/// Compares what comes of a case.
fn compare(rt: &impl Abort, alloc: Global, case: &Case) -> Result<(), Fail> {
    assert!(rt; case.rows <= 3 && case.nv <= 2);
    let dual = dual_of(rt, alloc, case.nv, case.first, &case.lines[..case.rows])?;
    let told = solve_and_certify(rt, alloc, &dual, case.iterations, TOLERANCE)?;
    assert_eq!(rt; told.swept, case.swept);
    if let Ok(stop) = told.swept {
        let f = raws(alloc, told.forces.f.as_slice())?;
        assert_eq!(rt; f.as_slice(), &case.f[..case.rows]);
        let u = raws(alloc, told.forces.u.as_slice())?;
        assert_eq!(rt; u.as_slice(), &case.u[..case.nv]);
        let enclosed = match told.certified {
            Ok(()) => Ok(stop),
            Err(fault) => Err(fault),
        };
        assert_eq!(rt; told.enclosed, enclosed);
    } else {
        assert_eq!(rt; told.enclosed, told.swept);
    }
    match case.certified {
        Some(Ok(wanted)) => {
            assert_eq!(rt; told.certified, Ok(()));
            assert_eq!(rt; told.cert.cost2, wanted.cost2);
            assert_eq!(rt; told.cert.bound2, wanted.bound2);
            let ends = ends_of(alloc, &told.cert)?;
            assert_eq!(rt; ends.as_slice(), &wanted.ends[..case.rows]);
        }
        Some(Err(fault)) => assert_eq!(rt; told.certified, Err(fault)),
        None => (),
    }
    Ok(())
}

fn fault(kind: Quantity, index: usize) -> OutOfRange {
    OutOfRange { kind, index }
}

const TIGHT: i128 = -(1 << 87);

#[test]
fn one_row_alone(rt: HostRuntime) -> Result<(), Fail> {
    let alloc = rt.alloc();
    // b, how the sweeps end, the force and u, the cost and the bound, and the ends of the box
    for (r, b, sweeps, f, u, cost2, bound2, ends) in [
        (
            1 << 48,
            -(1 << 32),
            2,
            524_288,
            8_796_093_022_208,
            TIGHT,
            TIGHT,
            (524_288, 524_288),
        ),
        // it parts
        (1 << 48, 1 << 32, 1, 0, 0, 0, 0, (0, 0)),
        // a tie goes to 0
        (
            1 << 48,
            -(1 << 12),
            1,
            0,
            0,
            0,
            -281_474_976_710_656,
            (0, 2),
        ),
        // 2^47 / (2^48 + 1) is nearer to 0 than to 1, and little is known
        (1, -(1 << 11), 1, 0, 0, 0, -(1 << 94), (0, 1 << 48)),
    ] {
        let case = Case {
            lines: [push([1 << 24, 0], r, b), NO_LINE, NO_LINE],
            swept: Ok(Stop::Tolerance(sweeps)),
            f: [f, 0, 0],
            u: [u, 0],
            certified: Some(Ok(Wanted {
                cost2,
                bound2,
                ends: [ends, (0, 0), (0, 0)],
            })),
            ..MANY
        };
        compare(&rt, alloc, &case)?;
    }
    Ok(())
}

#[test]
fn no_rows_need_no_sweep(rt: HostRuntime) -> Result<(), Fail> {
    let nothing = Wanted {
        cost2: 0,
        bound2: 0,
        ends: [(0, 0), (0, 0), (0, 0)],
    };
    let case = Case {
        rows: 0,
        certified: Some(Ok(nothing)),
        ..MANY
    };
    compare(&rt, rt.alloc(), &case)
}

#[test]
fn forces_stay_within_their_bounds(rt: HostRuntime) -> Result<(), Fail> {
    let alloc = rt.alloc();
    let most = Some(2_097_152);
    let cost = -7_427_640_235_712_281_649_394_745_344;
    for (b, least, greatest, sweeps, f, u, cost2, bound2, ends) in [
        (
            -(1 << 35),
            Some(-2_097_152),
            most,
            2,
            2_097_152,
            35_184_372_088_832,
            cost,
            cost,
            (2_097_152, 2_097_152),
        ),
        (
            1 << 35,
            Some(-2_097_152),
            most,
            2,
            -2_097_152,
            -35_184_372_088_832,
            cost,
            cost,
            (-2_097_152, -2_097_152),
        ),
        (
            1 << 12,
            None,
            None,
            1,
            0,
            0,
            0,
            -281_474_976_710_656,
            (-2, 0),
        ),
    ] {
        let line = Line {
            g: [1 << 24, 0],
            r: 1 << 48,
            b,
            low: least,
            high: greatest,
        };
        let case = Case {
            lines: [line, NO_LINE, NO_LINE],
            swept: Ok(Stop::Tolerance(sweeps)),
            f: [f, 0, 0],
            u: [u, 0],
            certified: Some(Ok(Wanted {
                cost2,
                bound2,
                ends: [ends, (0, 0), (0, 0)],
            })),
            ..MANY
        };
        compare(&rt, alloc, &case)?;
    }
    Ok(())
}

// One sweep, in which each row sees those before it.
#[test]
fn what_one_sweep_leaves_is_certified(rt: HostRuntime) -> Result<(), Fail> {
    let alloc = rt.alloc();
    let row = push([1 << 24, 0], 1 << 48, -(1 << 32));
    let gap = Wanted {
        cost2: -193_428_131_138_340_667_952_988_160,
        bound2: -212_770_944_252_174_734_748_286_976,
        ends: [(0, 524_288), (0, 524_288), (0, 0)],
    };
    let twice = Case {
        lines: [row, row, NO_LINE],
        f: [524_288, 262_144, 0],
        u: [13_194_139_533_312, 0],
        certified: Some(Ok(gap)),
        ..ONCE
    };
    compare(&rt, alloc, &twice)?;
    let first = push([1 << 24, 0], 1, -(1 << 32));
    let second = push([-(1 << 24), 0], 1, -(1 << 32));
    let against = Case {
        lines: [first, second, NO_LINE],
        f: [1_048_576, 2_097_152, 0],
        u: [-17_592_186_044_416, 0],
        certified: Some(Err(fault(Quantity::Shortfall, 1))),
        ..ONCE
    };
    compare(&rt, alloc, &against)?;
    let hard = push([1 << 24, 0], 1 << 48, -(1 << 46));
    let beside = Case {
        nv: 2,
        rows: 3,
        lines: [hard, hard, push([0, 1 << 24], 1, 0)],
        f: [1 << 33, 1 << 32, 0],
        u: [3 << 56, 0],
        certified: Some(Err(fault(Quantity::Box, 3))),
        ..ONCE
    };
    compare(&rt, alloc, &beside)
}

#[test]
fn numbers_past_their_limits_end_the_sweeps(rt: HostRuntime) -> Result<(), Fail> {
    let alloc = rt.alloc();
    let rest = push([1 << 24, 0], 1 << 48, 0);
    let dear = push([1 << 14, 0], 1 << 48, -(1 << 50));
    let strong = push([1 << 14, 0], 1, -(1 << 56));
    let far = push([0, 1 << 24], 1, -(1 << 48));
    for (nv, first, lines, kind, index) in [
        (1, 1, [dear, rest], Quantity::Cost, 1),
        (1, 1, [rest, strong], Quantity::Force, 2),
        (2, 1, [rest, far], Quantity::Reach, 2),
        // places go on from the first row's
        (1, 7, [strong, rest], Quantity::Force, 7),
    ] {
        let case = Case {
            nv,
            first,
            lines: [lines[0], lines[1], NO_LINE],
            swept: Err(fault(kind, index)),
            ..ONCE
        };
        compare(&rt, alloc, &case)?;
    }
    // the force 0 is the nearest one, and the parabola is back at 0 only after 2^52 raw
    let slack = Case {
        first: 7,
        lines: [push([1 << 26, 0], 1, -(1 << 15)), NO_LINE, NO_LINE],
        swept: Ok(Stop::Tolerance(1)),
        certified: Some(Err(fault(Quantity::Box, 7))),
        ..MANY
    };
    compare(&rt, alloc, &slack)
}

// Two rows against one another, and a thousand that push nothing, in 64 dofs.
#[test]
fn the_largest_dual_is_solved(rt: HostRuntime) -> Result<(), Fail> {
    let alloc = rt.alloc();
    let mut lines = Vec::new(alloc);
    lines.push(push([1 << 24, 0], 1, -(1 << 32)))?;
    lines.push(push([-(1 << 24), 0], 1, -(1 << 32)))?;
    let mut f = Vec::new(alloc);
    f.push(8_387_559_424)?;
    f.push(8_388_608_000)?;
    for _ in 2..1024 {
        lines.push(push([0, 1 << 24], 1, 0))?;
        f.push(0)?;
    }
    let dual = dual_of(&rt, alloc, 64, 1, lines.as_slice())?;
    let told = solve_and_certify(&rt, alloc, &dual, 4000, 0)?;
    assert_eq!(rt; told.swept, Ok(Stop::Limit(4000)));
    assert_eq!(rt;
        raws(alloc, told.forces.f.as_slice())?.as_slice(),
        f.as_slice()
    );
    let mut u = [0; 64];
    u[0] = -17_592_186_044_416;
    assert_eq!(rt;
        raws(alloc, told.forces.u.as_slice())?.as_slice(),
        u.as_slice()
    );
    Ok(())
}
