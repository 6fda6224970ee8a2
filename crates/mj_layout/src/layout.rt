// Numbering: bodies, joints, dofs and geoms in the order of their bodies.
ghost use Rattle.std.specs.Prelude.{◌≡◌, ℕ, suc, ◌+◌, ◌++◌, ◌<◌, ◌≤◌, length, IfOk, OnOk};
ghost use Rattle.mj_types.specs.Parts as of;
ghost use Rattle.mj_types.specs.Parts.{joint};
ghost use Rattle.mj_types.specs.Lawful.{positions_before, velocities_before};
ghost use Rattle.mj_layout.specs.Layout as spec;
ghost use Rattle.mj_layout.specs.Layout.{part};
ghost use Rattle.mj_layout.specs.Placing.{IsPlaced, HasPlaces, IsLaidOut};

use fx_list::Array;
use mj_types::{Body, Dof, Geom, Joint, JointKind};
use std::alloc::{AllocError, Global};

/// A body with its joints and its geoms, which name it as theirs. Its root and the places of its joints
/// and dofs aren't known yet, nor are those of its joints' positions and velocities.
#[derive(Drop)]
pub struct BodyParts {
    pub body: Body,
    pub joints: Array<Joint>,
    pub geoms: Array<Geom>,
}

/// A model's lists of bodies, joints, dofs and geoms, and how many positions and velocities it has.
#[derive(Drop)]
pub struct Layout {
    pub bodies: Array<Body>,
    pub joints: Array<Joint>,
    pub dofs: Array<Dof>,
    pub geoms: Array<Geom>,
    pub nq: usize,
    pub nv: usize,
}

/// How many positions a joint has.
pub fn position_count(kind: JointKind) -> usize
    ensures { result ≡ of.position_count kind }
{
    match kind {
        JointKind::Free => 7,
        JointKind::Ball => 4,
        JointKind::Hinge => 1,
        JointKind::Slide => 1,
    }
}

/// How many velocities a joint has.
pub fn velocity_count(kind: JointKind) -> usize
    ensures { result ≡ of.velocity_count kind }
{
    match kind {
        JointKind::Free => 6,
        JointKind::Ball => 3,
        JointKind::Hinge => 1,
        JointKind::Slide => 1,
    }
}

/// The first part of a joint that turns with this one.
fn first_part(kind: JointKind, part: usize) -> usize
    ensures { result ≡ of.first_part kind part }
{
    match kind {
        JointKind::Free => if part < 3 { 0 } else { 3 },
        _ => 0,
    }
}

/// The joints of a body, by its place.
fn part_joints(parts: &Array<BodyParts>, b: usize) -> &[Joint]
    requires { b < length parts.now }
    ensures { result.now ≡ (part parts.now b).joints }
{
    parts.entry(b).joints.as_slice()
}

/// The geoms of a body, by its place.
fn part_geoms(parts: &Array<BodyParts>, b: usize) -> &[Geom]
    requires { b < length parts.now }
    ensures { result.now ≡ (part parts.now b).geoms }
{
    parts.entry(b).geoms.as_slice()
}

/// The joints of each body in turn.
fn joints_on(alloc: Global, parts: &Array<BodyParts>) -> Result<Array<Joint>, AllocError>
    ensures { IfOk result (λ a. a ≡ spec.joints_on parts.now) }
{
    let mut all = Vec::new(alloc);
    for b in 0..parts.len() {
        all.extend_from_slice(part_joints(parts, b))?;
    }
    Ok(Array::from_vec(all))
}

/// Joints with the places of their positions and velocities, and how many these are.
#[derive(Drop)]
struct Placed {
    joints: Vec<Joint>,
    nq: usize,
    nv: usize,
}

/// The joint at a place, which begins at these places.
fn placed_joint(joints: &Array<Joint>, j: usize, qadr: usize, dadr: usize) -> Joint
    requires { j < length joints.now }
    ensures { result ≡ record (joint joints.now j) { qadr = qadr; dadr = dadr } }
{
    let mut x = joints.at(j);
    x.qadr = qadr;
    x.dadr = dadr;
    x
}

/// Joints with the places of their positions and velocities.
fn place_joints(alloc: Global, joints: &Array<Joint>) -> Result<Placed, AllocError>
    requires { length joints.now ≤ 64 }
    ensures { IfOk result (λ p. IsPlaced joints.now (length joints.now) p) }
{
    let mut p = Placed {
        joints: Vec::new(alloc),
        nq: 0,
        nv: 0,
    };
    for j in 0..joints.len() {
        let x = placed_joint(joints, j, p.nq, p.nv);
        p.joints.push(x)?;
        p.nq += position_count(x.kind);
        p.nv += velocity_count(x.kind);
    }
    Ok(p)
}

/// How many velocities the joints before a place have, from where each joint's begin.
fn velocities_before(joints: &Array<Joint>, nv: usize, j: usize) -> usize
    requires place { j ≤ length joints.now }
    requires places { HasPlaces joints.now nv }
    ensures { result ≡ velocities_before joints.now j }
{
    if j < joints.len() {
        joints.at(j).dadr
    } else {
        nv
    }
}

/// The number of the root of a body's tree.
fn root(made: &[Body], b: usize, parent: usize) -> usize
    requires earlier { parent ≤ length made.now }
    requires few { b < 128 }
    ensures { result ≡ spec.root_from made.now b parent }
{
    if parent == 0 {
        b + 1
    } else {
        made[parent - 1].root
    }
}

/// A body with its root and the places of its joints and dofs.
fn with_places(
    x: &Body,
    root: usize,
    jntadr: usize,
    jntnum: usize,
    dofadr: usize,
    dofnum: usize,
) -> Body
    ensures { result ≡ record x.now {
      root = root;
      jntadr = jntadr;
      jntnum = jntnum;
      dofadr = dofadr;
      dofnum = dofnum;
    } }
{
    let mut body = *x;
    body.root = root;
    body.jntadr = jntadr;
    body.jntnum = jntnum;
    body.dofadr = dofadr;
    body.dofnum = dofnum;
    body
}

/// The next body, of which the first joint stands at `place`.
#[tactic(auto, using(crate::proofs::SumOrder::velocities_grow))]
fn next_body(
    parts: &Array<BodyParts>,
    joints: &Array<Joint>,
    nv: usize,
    made: &[Body],
    place: usize,
) -> Body
    requires there { length made.now < length parts.now }
    requires few { length parts.now ≤ 128 }
    requires few_joints { length joints.now ≤ 64 }
    requires parent { (part parts.now (length made.now)).body.parent ≤ length made.now }
    requires room { place + length (part parts.now (length made.now)).joints
        ≤ length joints.now }
    requires places { HasPlaces joints.now nv }
    ensures { result ≡ spec.body_from parts.now joints.now made.now (length made.now) place }
{
    let x = parts.entry(made.len());
    let count = x.joints.len();
    let first = velocities_before(joints, nv, place);
    let end = velocities_before(joints, nv, place + count);
    let root = root(made, made.len(), x.body.parent);
    with_places(&x.body, root, place, count, first, end - first)
}

/// The bodies with their roots and the places of their joints and dofs.
#[tactic(auto, unfolding(crate::specs::Layout::bodies_of))]
fn bodies_of(
    alloc: Global,
    parts: &Array<BodyParts>,
    joints: &Array<Joint>,
    nv: usize,
) -> Result<Array<Body>, AllocError>
    requires parts { IsLaidOut parts.now }
    requires whole { length joints.now ≡ length (spec.joints_on parts.now) }
    requires places { HasPlaces joints.now nv }
    ensures { IfOk result (λ a. a ≡ spec.bodies_of parts.now joints.now) }
{
    let mut made = Vec::new(alloc);
    let mut place = 0;
    for b in 0..parts.len() {
        let body = next_body(parts, joints, nv, made.as_slice(), place);
        made.push(body)?;
        place += body.jntnum;
    }
    Ok(Array::from_vec(made))
}

/// The dofs of a joint, which has that number, are added to a list.
fn add_dofs(dofs: &mut Vec<Dof>, x: &Joint, number: usize) -> Result<(), AllocError>
    requires { x.now.dadr ≤ 512 }
    ensures { OnOk result (dofs.new.items ≡ dofs.old.items ++ spec.dofs_on number x.now) }
{
    for i in 0..velocity_count(x.kind) {
        dofs.push(Dof {
            joint: number,
            part: i,
            body: x.body,
            base: x.dadr + first_part(x.kind, i),
        })?;
    }
    Ok(())
}

/// The dofs of each joint in turn.
#[tactic(auto, unfolding(crate::specs::Layout::dofs_of))]
fn dofs_of(alloc: Global, joints: &Array<Joint>) -> Result<Array<Dof>, AllocError>
    requires { (j : ℕ) → j < length joints.now → (joint joints.now j).dadr ≤ 512 }
    ensures { IfOk result (λ a. a ≡ spec.dofs_of joints.now) }
{
    let mut all = Vec::new(alloc);
    for j in 0..joints.len() {
        add_dofs(&mut all, joints.entry(j), j + 1)?;
    }
    Ok(Array::from_vec(all))
}

/// The world's geoms, and those of each body in turn.
#[tactic(auto, unfolding(crate::specs::Layout::geoms_of))]
fn geoms_of(world: Array<Geom>, parts: &Array<BodyParts>) -> Result<Array<Geom>, AllocError>
    ensures { IfOk result (λ a. a ≡ spec.geoms_of world parts.now) }
{
    let mut all = world.into_vec();
    for b in 0..parts.len() {
        all.extend_from_slice(part_geoms(parts, b))?;
    }
    Ok(Array::from_vec(all))
}

/// The lists of a model, from its bodies with their joints and geoms and the world's geoms.
#[tactic(auto, unfolding(crate::specs::Layout::layout))]
pub fn lay_out(
    alloc: Global,
    parts: &Array<BodyParts>,
    world: Array<Geom>,
) -> Result<Layout, AllocError>
    requires { IsLaidOut parts.now }
    ensures { IfOk result (λ l. l ≡ spec.layout parts.now world) }
{
    let all = joints_on(alloc, parts)?;
    let placed = place_joints(alloc, &all)?;
    let joints = Array::from_vec(placed.joints);
    let bodies = bodies_of(alloc, parts, &joints, placed.nv)?;
    let dofs = dofs_of(alloc, &joints)?;
    let geoms = geoms_of(world, parts)?;
    Ok(Layout {
        bodies,
        joints,
        dofs,
        geoms,
        nq: placed.nq,
        nv: placed.nv,
    })
}
