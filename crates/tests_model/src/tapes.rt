// What no clause says of tapes: worked texts, faults in their order, and that calls can succeed.
use fx_num::Fix;
use mj_tape::tape;
use mj_types::{Model, Tape, TapeFault};
use mj_valid::judge;
use std::alloc::Global;
use std::test::Fail;

/// Motors, a text, steps, room for values, and the first fault. A control is at most 2^20 in size: that
/// is 2^52 raw, and one raw more is 2.3283e-10 above.
const FAULTS: [(usize, &str, u32, usize, Option<TapeFault>); 16] = [
    (2, "1,2\n3,4\n", 3, 100, Some(TapeFault::Short(2))),
    (
        2,
        "1,2\n3,4\n5,x\n",
        3,
        100,
        Some(TapeFault::BadNumber(3, 2)),
    ),
    (
        2,
        "1,2\n3,4\n5,x\n",
        9,
        100,
        Some(TapeFault::BadNumber(3, 2)),
    ),
    (2, "1,2,3\n", 1, 100, Some(TapeFault::Width(1))),
    (2, "1,2\n3\n", 1, 100, Some(TapeFault::Width(2))),
    (2, "a,b\n1,2\n", 1, 100, Some(TapeFault::BadNumber(1, 1))),
    (0, "1\n", 0, 100, Some(TapeFault::Width(1))),
    (0, "", 0, 100, None),
    (2, "1,2\n3,4\n5,6\n", 1, 6, None),
    (2, "1,2\n3,4\n5,6\n", 1, 5, Some(TapeFault::TooLarge)),
    (2, "1,2\n3,4\n5,x\n", 1, 4, Some(TapeFault::TooLarge)),
    (2, "1,2\n3,x\n5,6\n", 1, 4, Some(TapeFault::BadNumber(2, 2))),
    (1, "1048576\n", 1, 100, None),
    (
        1,
        "1048576.00000000023283\n",
        1,
        100,
        Some(TapeFault::BadNumber(1, 1)),
    ),
    (1, "-1048576\n", 1, 100, None),
    (
        1,
        "-1048576.00000000023283\n",
        1,
        100,
        Some(TapeFault::BadNumber(1, 1)),
    ),
];

// A body on a slide, with so many motors.
fn model(alloc: Global, motors: usize) -> Result<Model, Fail> {
    let mut text = String::from_str(
        alloc,
        "[[body]]\nname = \"a\"\ninertial = { mass = 1 }\n[[body.joint]]\nname = \"z\"\ntype = \"slide\"\n",
    )?;
    for _ in 0..motors {
        text.push_str("[[motor]]\njoint = \"z\"\n")?;
    }
    Ok(judge(alloc, text.as_bytes())?)
}

// What a tape of a model with so many motors is read to.
fn read(
    alloc: Global,
    motors: usize,
    text: &str,
    steps: u32,
    room: usize,
) -> Result<Result<Tape, TapeFault>, Fail> {
    let model = model(alloc, motors)?;
    Ok(tape(alloc, &model, text.as_bytes(), steps, room))
}

fn fault(
    alloc: Global,
    motors: usize,
    text: &str,
    steps: u32,
    room: usize,
) -> Result<Option<TapeFault>, Fail> {
    Ok(read(alloc, motors, text, steps, room)?.err())
}

#[test]
fn faults_come_in_order(rt: HostRuntime) -> Result<(), Fail> {
    for (motors, text, steps, room, wanted) in FAULTS {
        assert_eq!(rt;
            fault(rt.alloc(), motors, text, steps, room)?,
            wanted,
            "{text}"
        );
    }
    Ok(())
}

// Whether the numbers are these whole ones.
fn are_wholes(numbers: &[Fix<32>], wholes: &[i64]) -> bool {
    if numbers.len() != wholes.len() {
        return false;
    }
    for i in 0..wholes.len() {
        if numbers[i].mid != wholes[i].wrapping_mul(1 << 32) {
            return false;
        }
    }
    true
}

// Whether a text is a tape of so many rows of two controls, which are these whole numbers.
fn holds(alloc: Global, text: &str, rows: usize, wholes: &[i64]) -> Result<bool, Fail> {
    match read(alloc, 2, text, 0, 100)? {
        Ok(held) => Ok(
            held.rows == rows && held.width == 2 && are_wholes(held.values.as_slice(), wholes),
        ),
        Err(_) => Ok(false),
    }
}

#[test]
fn records_are_held_row_after_row(rt: HostRuntime) -> Result<(), Fail> {
    for text in [
        "1,2\n3,-4\n",
        "1,2\n3,-4",
        "1,2\r\n3,-4\r\n",
        "\"1\",2\n3,\"-4\"\n",
    ] {
        assert!(rt; holds(rt.alloc(), text, 2, &[1, 2, 3, -4])?, "{text}");
    }
    assert!(rt; holds(rt.alloc(), "", 0, &[])?);
    Ok(())
}
