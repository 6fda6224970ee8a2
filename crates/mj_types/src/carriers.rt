// What the parts of a step hand on to one another.
ghost use Rattle.std.specs.Prelude.{◌≡◌, [], IfOk};

use crate::NoMemory;
use crate::model::Model;
use crate::room::{filled, listing, no_inertia, no_motion, no_vector, unturned, zeros};
use fx_list::{Array, Listing};
use fx_near::Near;
use fx_num::{Carry, Fix, Num, Number, Plain};
use fx_vec::{Inertia10, Q4, Sp6, V3};
use std::alloc::Global;

/// Where everything is in a state: the position and the orientation of each body and its centre of
/// mass, its inertia about its tree's reference point, the motion column of each dof, and the position
/// and the orientation of each geom. `anchor` and `axis` of each joint are working room.
#[derive(Drop)]
pub struct Frames {
    pub pos: Array<V3<Plain, 32>>,
    pub quat: Array<Q4>,
    pub com: Array<V3<Plain, 32>>,
    pub inertia: Array<Inertia10>,
    pub column: Array<Sp6<Plain, 32>>,
    pub gpos: Array<V3<Plain, 32>>,
    pub gquat: Array<Q4>,
    pub anchor: Array<V3<Plain, 32>>,
    pub axis: Array<V3<Plain, 32>>,
}

/// For each body, the inertia of that body and all bodies below it together.
#[derive(Drop)]
pub struct Composite {
    pub list: Array<Inertia10>,
}

/// The mass matrix in the space of dofs, with radii: row after row, `nv` numbers a row.
#[derive(Drop)]
pub struct Mass {
    pub m: Array<Near<40>>,
}

/// The mass matrix factored as `M = L^T D L` over listed entries alone (Featherstone, Rigid Body
/// Dynamics Algorithms, chapter 6). From `at[k - 1]` up to but not including `at[k]`, `above` lists the
/// dofs above dof k in ascending order, and `w` and `l` have their entries there.
#[derive(Drop)]
pub struct Factor {
    pub at: Array<usize>,
    pub above: Array<usize>,
    pub w: Array<Fix<40>>,
    pub l: Array<Fix<32>>,
    pub d: Array<Fix<40>>,
}

/// The force that is applied at each dof, and the length of each tendon and its rate.
#[derive(Drop)]
pub struct Applied {
    pub tau: Array<Fix<32>>,
    pub length: Array<Fix<32>>,
    pub rate: Array<Fix<32>>,
}

/// Two geoms that touch: `a` and `b` are their numbers, the normal points from `a` to `b`, and a
/// negative distance is how deep they are in one another.
#[derive(Clone, Copy)]
pub struct Contact {
    pub a: usize,
    pub b: usize,
    pub dist: Fix<32>,
    pub point: V3<Plain, 32>,
    pub normal: V3<Plain, 32>,
    pub t1: V3<Plain, 32>,
    pub t2: V3<Plain, 32>,
}

/// The contacts of a state, at most `njmax`.
#[derive(Drop)]
pub struct Contacts {
    pub list: Listing<Contact>,
}

impl Frames {
    ghost use Rattle.mj_types.specs.Rooms as spec;

    /// Frames with room for the model's bodies, dofs, geoms and joints.
    pub fn new(alloc: Global, model: &Model) -> Result<Frames, NoMemory>
        ensures room { IfOk result (λ f. spec.FramesRoom model.now f) }
    {
        let (bodies, geoms, joints) = (model.bodies.len(), model.geoms.len(), model.joints.len());
        // One match over all results: after a `?` for each list, each later one would have to free the
        // lists before it.
        match (
            filled(alloc, bodies, no_vector()),
            filled(alloc, bodies, unturned()),
            filled(alloc, bodies, no_vector()),
            filled(alloc, bodies, no_inertia()),
            filled(alloc, model.nv, no_motion()),
            filled(alloc, geoms, no_vector()),
            filled(alloc, geoms, unturned()),
            filled(alloc, joints, no_vector()),
            filled(alloc, joints, no_vector()),
        ) {
            (
                Ok(pos),
                Ok(quat),
                Ok(com),
                Ok(inertia),
                Ok(column),
                Ok(gpos),
                Ok(gquat),
                Ok(anchor),
                Ok(axis),
            ) => Ok(Frames {
                pos,
                quat,
                com,
                inertia,
                column,
                gpos,
                gquat,
                anchor,
                axis,
            }),
            _ => Err(NoMemory),
        }
    }
}

impl Composite {
    ghost use Rattle.mj_types.specs.Rooms as spec;

    /// Composite inertias with room for the model's bodies.
    pub fn new(alloc: Global, model: &Model) -> Result<Composite, NoMemory>
        ensures room { IfOk result (λ c. spec.CompositeRoom model.now c) }
    {
        let list = filled(alloc, model.bodies.len(), no_inertia())?;
        Ok(Composite { list })
    }
}

impl Mass {
    ghost use Rattle.mj_types.specs.Rooms as spec;

    /// A mass matrix with room for the model's dofs.
    pub fn new(alloc: Global, model: &Model) -> Result<Mass, NoMemory>
        ensures room { IfOk result (λ m. spec.MassRoom model.now m) }
    {
        let m = filled(alloc, model.nv * model.nv, Number { mid: 0, rad: 0 })?;
        Ok(Mass { m })
    }
}

impl Applied {
    ghost use Rattle.mj_types.specs.Rooms as spec;

    /// Applied forces with room for the model's dofs and tendons.
    pub fn new(alloc: Global, model: &Model) -> Result<Applied, NoMemory>
        ensures room { IfOk result (λ a. spec.AppliedRoom model.now a) }
    {
        Ok(Applied {
            tau: zeros(alloc, model.nv)?,
            length: zeros(alloc, model.tendons.len())?,
            rate: zeros(alloc, model.tendons.len())?,
        })
    }
}

impl Contacts {
    ghost use Rattle.mj_types.specs.Rooms as spec;

    /// No contact, with room for `njmax`.
    pub fn new(alloc: Global, model: &Model) -> Result<Contacts, NoMemory>
        ensures room { IfOk result (λ c. spec.ContactsRoom model.now c) }
        ensures empty { IfOk result (λ c. c.list.list ≡ []) }
    {
        let list = listing(alloc, model.njmax)?;
        Ok(Contacts { list })
    }
}
