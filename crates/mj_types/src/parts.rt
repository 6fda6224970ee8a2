// What a model is made of, with the names of MJCF. Bodies, joints, geoms, tendons and motors are
// numbered from 1, and the world is body 0.
use fx_list::Array;
use fx_num::{Fix, Plain};
use fx_vec::{Q4, V3};

/// How soft a constraint is (MuJoCo documentation, Computation, solver parameters): `tc` and `dr` are
/// solref's two numbers, `dmin`, `dmax`, `width`, `mid` and `power` those of solimp.
#[derive(Clone, Copy)]
pub struct Soft {
    pub tc: Fix<32>,
    pub dr: Fix<32>,
    pub dmin: Fix<32>,
    pub dmax: Fix<32>,
    pub width: Fix<32>,
    pub mid: Fix<32>,
    pub power: u32,
}

/// The least and the greatest number that is taken: of a joint's position, a tendon's length or a
/// motor's control. The least is below the greatest.
#[derive(Clone, Copy)]
pub struct Range {
    pub least: Fix<32>,
    pub greatest: Fix<32>,
}

/// A free joint has 7 positions and 6 velocities, a ball 4 and 3, a hinge and a slide 1 and 1.
#[derive(Clone, Copy, Debug, PartialEq, Eq)]
pub enum JointKind {
    Free,
    Ball,
    Hinge,
    Slide,
}

#[derive(Clone, Copy, Debug, PartialEq, Eq)]
pub enum GeomKind {
    Plane,
    Sphere,
    Capsule,
}

/// A rigid body. `parent` is its parent's number, `root` that of its tree's root body. `pos` and `quat`
/// place it in its parent's frame, `ipos` and `iquat` its inertial frame in its own. Its joints are
/// the `jntnum` joints from the place `jntadr`, its dofs the `dofnum` from the place `dofadr`.
#[derive(Clone, Copy)]
pub struct Body {
    pub parent: usize,
    pub root: usize,
    pub pos: V3<Plain, 32>,
    pub quat: Q4,
    pub mass: Fix<40>,
    pub ipos: V3<Plain, 32>,
    pub iquat: Q4,
    pub ixx: Fix<40>,
    pub iyy: Fix<40>,
    pub izz: Fix<40>,
    pub jntadr: usize,
    pub jntnum: usize,
    pub dofadr: usize,
    pub dofnum: usize,
}

/// A joint of a body. Its positions begin at the place `qadr` of a state's, its velocities at `dadr`.
#[derive(Clone, Copy)]
pub struct Joint {
    pub kind: JointKind,
    pub body: usize,
    pub pos: V3<Plain, 32>,
    pub axis: V3<Plain, 32>,
    pub qadr: usize,
    pub dadr: usize,
    pub range: Option<Range>,
    pub margin: Fix<32>,
    pub stiffness: Fix<32>,
    pub springref: Fix<32>,
    pub damping: Fix<32>,
    pub armature: Fix<40>,
    pub frictionloss: Fix<32>,
    pub soft: Soft,
    pub soft_friction: Soft,
}

/// One velocity of a model: it is velocity `part`, from 0, of a joint, which is on `body`. `base` is
/// the place of the first dof that turns or moves together with it: of its joint, and for a rotation
/// of a free joint that of the first rotation.
#[derive(Clone, Copy)]
pub struct Dof {
    pub joint: usize,
    pub part: usize,
    pub body: usize,
    pub base: usize,
}

/// A shape that touches others. A capsule's axis is its own z axis, and `half` is half its length.
#[derive(Clone, Copy)]
pub struct Geom {
    pub kind: GeomKind,
    pub body: usize,
    pub pos: V3<Plain, 32>,
    pub quat: Q4,
    pub radius: Fix<32>,
    pub half: Fix<32>,
    pub contype: u32,
    pub conaffinity: u32,
    pub condim: u32,
    pub friction: Fix<32>,
    pub margin: Fix<32>,
    pub soft: Soft,
}

/// A joint's part in a fixed tendon's length.
#[derive(Clone, Copy)]
pub struct Term {
    pub joint: usize,
    pub coef: Fix<32>,
}

/// A fixed tendon: its length is the sum of its terms' coefficients times their joints' positions.
#[derive(Drop)]
pub struct Tendon {
    pub terms: Array<Term>,
    pub range: Option<Range>,
    pub margin: Fix<32>,
    pub stiffness: Fix<32>,
    pub damping: Fix<32>,
    pub springlength: Fix<32>,
    pub soft: Soft,
}

/// What a motor drives: a joint or a tendon, by its number.
#[derive(Clone, Copy, Debug, PartialEq, Eq)]
pub enum Drive {
    Joint(usize),
    Tendon(usize),
}

/// A motor: its force is the control, clamped to the range where there is one, times the gear.
#[derive(Clone, Copy)]
pub struct Motor {
    pub drive: Drive,
    pub gear: Fix<32>,
    pub ctrlrange: Option<Range>,
}

/// An equality of joints: joint 1's position is `c0`, and `c1` times joint 2's more where there is one.
#[derive(Clone, Copy)]
pub struct Equality {
    pub joint1: usize,
    pub joint2: Option<usize>,
    pub c0: Fix<32>,
    pub c1: Fix<32>,
    pub soft: Soft,
}
