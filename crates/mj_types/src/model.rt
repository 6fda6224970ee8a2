// The model that every step reads.
ghost use Rattle.mj_types.specs.Lawful.{
  AreOptions,
  AreBodies,
  AreJoints,
  AreDofs,
  AreGeoms,
  AreTendons,
  AreMotors,
  AreEqualities,
  ArePositions,
  AreVelocities,
};

use crate::parts::{Body, Dof, Equality, Geom, Joint, Motor, Tendon};
use fx_list::Array;
use fx_num::{Fix, Plain};
use fx_vec::V3;

/// An accepted model. `h` is the time step; `nq` and `nv` count positions and velocities; at most
/// `njmax` rows stand in a step. Bodies, joints and geoms are in the order of the file, the world's
/// geoms first. `qpos0` and `qvel0` are the state that a run starts from. What each list keeps is said
/// by its ghost field.
#[derive(Drop)]
pub struct Model {
    pub format: u32,
    pub h: Fix<32>,
    pub gravity: V3<Plain, 32>,
    pub iterations: u32,
    pub tolerance: Fix<32>,
    pub njmax: usize,
    pub nq: usize,
    pub nv: usize,
    pub bodies: Array<Body>,
    pub joints: Array<Joint>,
    pub dofs: Array<Dof>,
    pub geoms: Array<Geom>,
    pub tendons: Array<Tendon>,
    pub motors: Array<Motor>,
    pub equalities: Array<Equality>,
    pub qpos0: Array<Fix<32>>,
    pub qvel0: Array<Fix<32>>,
    pub ghost of_options: { AreOptions h gravity iterations tolerance njmax format },
    pub ghost of_bodies: { AreBodies bodies },
    pub ghost of_joints: { AreJoints bodies joints nq nv },
    pub ghost of_dofs: { AreDofs joints dofs nv },
    pub ghost of_geoms: { AreGeoms bodies geoms },
    pub ghost of_tendons: { AreTendons joints tendons },
    pub ghost of_motors: { AreMotors joints tendons motors },
    pub ghost of_equalities: { AreEqualities joints equalities },
    pub ghost start: { ArePositions joints nq qpos0 },
    pub ghost start_velocities: { AreVelocities nv qvel0 },
}
