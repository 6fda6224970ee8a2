// What no clause says of the reader of models: worked faults with their paths, defaults against their
// numerals, and that calls can succeed.
use fx_list::Array;
use fx_num::Fix;
use fx_text::read_decimal;
use mj_read::{RawJoint, RawModel, raw_model};
use mj_types::ModelCode;
use std::alloc::Global;
use std::test::Fail;

/// A text, the code of its first fault, and the path.
const FAULTS: [(&str, ModelCode, &str); 16] = [
    ("[", ModelCode::NotToml, ""),
    (
        "[option]\ntimestep = 0.25\n",
        ModelCode::FloatValue,
        "option.timestep",
    ),
    (
        "option = { noslip_iterations = 1 }",
        ModelCode::UnknownKey,
        "option.noslip_iterations",
    ),
    ("z = 1\n\"a\\nb\" = 1\n", ModelCode::UnknownKey, "a?b"),
    ("body = [[0.5]]", ModelCode::WrongKind, "body[1]"),
    ("body = [true, 0.5]", ModelCode::FloatValue, "body[2]"),
    ("[[body]]\n", ModelCode::MissingKey, "body[1].name"),
    (
        "[[body]]\nname = [0.5]\n",
        ModelCode::FloatValue,
        "body[1].name",
    ),
    (
        "[[body]]\nname = \"a\"\npos = [[0.5], 0, 0]\n",
        ModelCode::WrongKind,
        "body[1].pos",
    ),
    (
        "[[body]]\nname = \"a\"\ninertial = {}\n",
        ModelCode::MissingKey,
        "body[1].inertial.mass",
    ),
    (
        "[[body]]\nname = \"a\"\ninertial = { mass = \"000000000000000000000000001\" }\n",
        ModelCode::BadNumber,
        "body[1].inertial.mass",
    ),
    (
        "[[motor]]\n[[motor]]\n",
        ModelCode::MissingKey,
        "motor[1].joint",
    ),
    (
        "[[geom]]\ntype = \"box\"\n",
        ModelCode::MissingKey,
        "geom[1].size",
    ),
    (
        "[[body]]\nname = \"a\"\n[[body.joint]]\ntype = \"ball\"\nstiffness = 1\n",
        ModelCode::UnknownKey,
        "body[1].joint[1].stiffness",
    ),
    (
        "[[body]]\nname = \"a\"\n[[body.joint]]\nfrictionloss = 2\n",
        ModelCode::UnknownKey,
        "body[1].joint[1].frictionloss",
    ),
    (
        "[[body]]\nname = \"a\"\n[[body.joint]]\ntype = 1\n",
        ModelCode::WrongKind,
        "body[1].joint[1].type",
    ),
];

fn is_accepted(alloc: Global, text: &[u8]) -> bool {
    match raw_model(alloc, text) {
        Ok(_) => true,
        Err(_) => false,
    }
}

// Whether a text is refused with this code at this path.
fn is_refused(alloc: Global, text: &[u8], code: ModelCode, path: &str) -> bool {
    match raw_model(alloc, text) {
        Ok(_) => false,
        Err(fault) => fault.code == code && fault.path.is(path.as_bytes()),
    }
}

#[test]
fn a_fault_has_its_code_and_path(rt: HostRuntime) {
    for (text, code, path) in FAULTS {
        assert!(rt;
            is_refused(rt.alloc(), text.as_bytes(), code, path),
            "{text}"
        );
    }
}

#[test]
fn a_file_has_a_mebibyte_at_most(rt: HostRuntime) -> Result<(), Fail> {
    let feeds = vec![in rt.alloc(); b'\n'; 1_048_577]?;
    assert!(rt; is_refused(rt.alloc(), feeds.as_slice(), ModelCode::TooLarge, ""));
    assert!(rt; is_accepted(rt.alloc(), &feeds[1..]));
    Ok(())
}

#[test]
fn a_plane_needs_no_size(rt: HostRuntime) {
    assert!(rt; is_accepted(rt.alloc(), b"[[geom]]\ntype = \"plane\"\n"));
}

// Whether the numbers have these raw values.
fn are_raws(numbers: &Array<Fix<32>>, raws: &[i64]) -> bool {
    if numbers.len() != raws.len() {
        return false;
    }
    for i in 0..raws.len() {
        if numbers.as_slice()[i].mid != raws[i] {
            return false;
        }
    }
    true
}

// The raw values are 0.002 and -9.81 times 2^32, to the nearest.
fn is_empty_model(raw: &RawModel) -> bool {
    raw.format == 1
        && raw.body.len() == 0
        && raw.option.timestep.mid == 8_589_935
        && are_raws(&raw.option.gravity, &[0, 0, -42_133_629_174])
        && raw.option.solver.is(b"PGS")
        && raw.keyframe.is_none()
}

fn is_read_as_empty(alloc: Global, text: &[u8]) -> bool {
    match raw_model(alloc, text) {
        Ok(raw) => is_empty_model(&raw),
        Err(_) => false,
    }
}

/// One joint with what is given here, and all else left out.
const GIVEN: &[u8] = b"format = 2
[[body]]
name = \"a\"
[[body.joint]]
frictionloss = 2
solreflimit = [-1]
";

fn first_joint(raw: &RawModel) -> Option<&RawJoint> {
    raw.body.as_slice().first()?.joint.as_slice().first()
}

fn is_given_joint(joint: &RawJoint) -> bool {
    joint.kind.is(b"hinge")
        && joint.frictionloss.mid == 8_589_934_592
        && are_raws(&joint.solreflimit, &[-4_294_967_296, 4_294_967_296])
}

fn is_read_as_given(alloc: Global) -> bool {
    match raw_model(alloc, GIVEN) {
        Ok(raw) => match first_joint(&raw) {
            Some(joint) => is_given_joint(joint),
            None => false,
        },
        Err(_) => false,
    }
}

#[test]
fn what_is_left_out_has_its_default(rt: HostRuntime) {
    assert!(rt; is_read_as_empty(rt.alloc(), b""));
    assert!(rt; is_read_as_given(rt.alloc()));
}

/// The time step, the third number of gravity, the tolerance, and a joint's solref and solimp.
const DEFAULTS: [&str; 10] = [
    "0.002", "-9.81", "1e-8", "0.02", "1", "0.9", "0.95", "0.001", "0.5", "2",
];

fn defaults_of(raw: &RawModel) -> Option<[i64; 10]> {
    let joint = first_joint(raw)?;
    let [_, _, down] = raw.option.gravity.as_slice() else {
        return None;
    };
    let [tc, dr] = joint.solreffriction.as_slice() else {
        return None;
    };
    let [dmin, dmax, width, mid, power] = joint.solimpfriction.as_slice() else {
        return None;
    };
    Some([
        raw.option.timestep.mid,
        down.mid,
        raw.option.tolerance.mid,
        tc.mid,
        dr.mid,
        dmin.mid,
        dmax.mid,
        width.mid,
        mid.mid,
        power.mid,
    ])
}

fn defaults(alloc: Global) -> Option<[i64; 10]> {
    match raw_model(alloc, GIVEN) {
        Ok(raw) => defaults_of(&raw),
        Err(_) => None,
    }
}

fn raw_of(numeral: &str) -> Option<i64> {
    match read_decimal::<32>(numeral.as_bytes()) {
        Ok(number) => Some(number.mid),
        Err(_) => None,
    }
}

#[test]
fn the_defaults_are_their_numerals(rt: HostRuntime) -> Result<(), Fail> {
    let raws = defaults(rt.alloc()).ok_or("no defaults")?;
    for i in 0..10 {
        assert_eq!(rt; raw_of(DEFAULTS[i]), Some(raws[i]), "default {i}");
    }
    Ok(())
}
