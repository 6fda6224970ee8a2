// What no clause says of the judging of models: worked faults with their paths, and that calls can
// succeed.
use mj_types::ModelCode;
use mj_valid::judge;
use std::alloc::Global;
use std::test::Fail;

/// One body on a slide.
const SLIDE: &str = "[option]
timestep = \"0.25\"
gravity = [0, 0, -8]
[[body]]
name = \"a\"
inertial = { mass = 1 }
[[body.joint]]
name = \"z\"
type = \"slide\"
";

/// What stands before and after the slide, the code of the first fault, and its path.
const FAULTS: [(&str, &str, ModelCode, &str); 27] = [
    ("format = 3\n", "", ModelCode::BadRange, "format"),
    (
        "",
        "[[body]]\nname = \"a\"\n",
        ModelCode::DuplicateName,
        "body[2].name",
    ),
    (
        "",
        "[[body.joint]]\nname = \"z\"\n",
        ModelCode::DuplicateName,
        "body[1].joint[2].name",
    ),
    (
        "",
        "[[body]]\nname = \"world\"\n",
        ModelCode::DuplicateName,
        "body[2].name",
    ),
    (
        "",
        "[[body]]\nname = \"\"\n",
        ModelCode::LimitPassed,
        "body[2].name",
    ),
    (
        "",
        "[[body]]\nname = \"b\"\nparent = \"c\"\n",
        ModelCode::UnknownName,
        "body[2].parent",
    ),
    (
        "",
        "[[body]]\nname = \"b\"\nparent = \"b\"\n",
        ModelCode::ParentLater,
        "body[2].parent",
    ),
    (
        "",
        "[[tendon]]\njoint = [{ joint = \"z\", coef = 1 }, { joint = \"z\", coef = 1 }]\n",
        ModelCode::DuplicateName,
        "tendon[1].joint[2].joint",
    ),
    (
        "",
        "[[body.joint]]\nname = \"f\"\ntype = \"free\"\n",
        ModelCode::FreeJoint,
        "body[1].joint[2].type",
    ),
    (
        "",
        "[[body.joint]]\ntype = \"screw\"\n",
        ModelCode::BadRange,
        "body[1].joint[2].type",
    ),
    (
        "",
        "[[body.joint]]\naxis = [0, 0, 0]\n",
        ModelCode::NotUnit,
        "body[1].joint[2].axis",
    ),
    (
        "",
        "[[body.joint]]\npos = [0, 1025, 0]\n",
        ModelCode::LimitPassed,
        "body[1].joint[2].pos",
    ),
    (
        "",
        "[[body.joint]]\nrange = [1, 1]\n",
        ModelCode::BadRange,
        "body[1].joint[2].range",
    ),
    (
        "",
        "[[body.joint]]\nsolreflimit = [-1]\n",
        ModelCode::BadSolref,
        "body[1].joint[2].solreflimit",
    ),
    (
        "",
        "[[body.joint]]\nsolimplimit = [\"0.5\", \"0.5\", 1, \"0.5\", 6]\n",
        ModelCode::BadSolimp,
        "body[1].joint[2].solimplimit",
    ),
    (
        "",
        "[[body]]\nname = \"b\"\nparent = \"a\"\n[[body.joint]]\ntype = \"free\"\n",
        ModelCode::FreeJoint,
        "body[2].joint[1].type",
    ),
    (
        "",
        "[[body.geom]]\ntype = \"plane\"\n",
        ModelCode::PlaneOffWorld,
        "body[1].geom[1].type",
    ),
    (
        "",
        "[[body.geom]]\ntype = \"capsule\"\nsize = [1]\n",
        ModelCode::BadRange,
        "body[1].geom[1].size",
    ),
    (
        "",
        "[[body.geom]]\nname = \"g\"\nsize = [1]\n[[geom]]\nname = \"g\"\ntype = \"plane\"\n",
        ModelCode::DuplicateName,
        "geom[1].name",
    ),
    (
        "",
        "[[geom]]\ntype = \"plane\"\ncondim = 4\n",
        ModelCode::BadRange,
        "geom[1].condim",
    ),
    (
        "",
        "[[motor]]\njoint = \"y\"\n",
        ModelCode::UnknownName,
        "motor[1].joint",
    ),
    (
        "",
        "[[tendon]]\nname = \"t\"\njoint = [{ joint = \"z\", coef = 1 }]\n[[motor]]\njoint = \"z\"\ntendon = \"t\"\n",
        ModelCode::BadRange,
        "motor[1].tendon",
    ),
    (
        "format = 2\n",
        "[[equality]]\njoint1 = \"z\"\njoint2 = \"y\"\n",
        ModelCode::UnknownName,
        "equality[1].joint2",
    ),
    (
        "format = 2\n",
        "[[equality]]\njoint1 = \"z\"\njoint2 = \"z\"\n",
        ModelCode::BadRange,
        "equality[1].joint2",
    ),
    (
        "",
        "[keyframe]\nqpos = [0, 0]\n",
        ModelCode::BadRange,
        "keyframe.qpos",
    ),
    (
        "",
        "[keyframe]\nqpos = [4097]\n",
        ModelCode::LimitPassed,
        "keyframe.qpos",
    ),
    (
        "",
        "[keyframe]\nqvel = [4097]\n",
        ModelCode::LimitPassed,
        "keyframe.qvel",
    ),
];

/// Models that aren't the slide: the text, the code of the first fault, and its path.
const OTHER_FAULTS: [(&str, ModelCode, &str); 4] = [
    ("", ModelCode::EmptyModel, ""),
    ("format = 3\n", ModelCode::EmptyModel, ""),
    (
        "[[body]]\nname = \"a\"\nparent = \"b\"\n[[body.joint]]\nname = \"z\"\n",
        ModelCode::UnknownName,
        "body[1].parent",
    ),
    (
        "[[body]]\nname = \"a\"\nparent = \"a\"\n[[body.joint]]\nname = \"z\"\n",
        ModelCode::ParentLater,
        "body[1].parent",
    ),
];

fn is_accepted(alloc: Global, text: &str) -> bool {
    match judge(alloc, text.as_bytes()) {
        Ok(_) => true,
        Err(_) => false,
    }
}

// Whether a text is refused with this code at this path.
fn is_refused(alloc: Global, text: &str, code: ModelCode, path: &str) -> bool {
    match judge(alloc, text.as_bytes()) {
        Ok(_) => false,
        Err(fault) => fault.code == code && fault.path.is(path.as_bytes()),
    }
}

#[test]
fn a_fault_has_its_code_and_path(rt: HostRuntime) -> Result<(), Fail> {
    let alloc = rt.alloc();
    for (before, after, code, path) in FAULTS {
        let text = format!(in alloc; "{before}{SLIDE}{after}")?;
        assert!(rt; is_refused(alloc, text.as_str(), code, path), "{text}");
    }
    for (text, code, path) in OTHER_FAULTS {
        assert!(rt; is_refused(alloc, text, code, path), "{text}");
    }
    Ok(())
}

#[test]
fn the_slide_is_accepted(rt: HostRuntime) -> Result<(), Fail> {
    let alloc = rt.alloc();
    for (before, after) in [
        ("", ""),
        ("format = 2\n", ""),
        ("", "[[body]]\nname = \"z\"\n[[body.joint]]\nname = \"a\"\n"),
    ] {
        let text = format!(in alloc; "{before}{SLIDE}{after}")?;
        assert!(rt; is_accepted(alloc, text.as_str()), "{text}");
    }
    Ok(())
}

#[test]
fn counts_are_judged_first(rt: HostRuntime) -> Result<(), Fail> {
    let alloc = rt.alloc();
    for (before, part, times, path) in [
        ("format = 3\n", "[[body]]\nname = \"b\"\n", 128, "body"),
        (
            "format = 3\n",
            "[[body.joint]]\ntype = \"slide\"\n",
            64,
            "dof",
        ),
        (
            "format = 2\n",
            "[[equality]]\njoint1 = \"z\"\n",
            65,
            "equality",
        ),
    ] {
        let mut text = format!(in alloc; "{before}{SLIDE}")?;
        for _ in 0..times {
            text.push_str(part)?;
        }
        assert!(rt;
            is_refused(alloc, text.as_str(), ModelCode::LimitPassed, path),
            "{path}"
        );
    }
    Ok(())
}
