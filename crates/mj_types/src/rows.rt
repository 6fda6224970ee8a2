// The constraint rows of a state, and what a step reports.
ghost use Rattle.std.specs.Prelude.{◌≡◌, ◌*◌, IfOk, [], false};

use crate::NoMemory;
use crate::dual::{Cert, Forces};
use crate::model::Model;
use crate::parts::Soft;
use crate::room::{listing, zeros};
use fx_list::{Array, Listing};
use fx_num::Fix;
use mj_optimum::Stop;
use std::alloc::Global;

/// What a row stands for, by numbers: a joint's low or high limit, a tendon's, an edge of a contact's
/// friction pyramid (0 for a contact without friction, else 1 to 4), an equality, or a joint's friction.
#[derive(Clone, Copy, Debug, PartialEq, Eq)]
pub enum Source {
    Low(usize),
    High(usize),
    TendonLow(usize),
    TendonHigh(usize),
    Contact(usize, u32),
    Equality(usize),
    Friction(usize),
}

/// A constraint row: how far it is violated, how soft it is, the bounds of its force, each of which
/// may be missing, and whether it is idle: no dof moves it, so that it is left out of the dual.
#[derive(Clone, Copy)]
pub struct Row {
    pub source: Source,
    pub r: Fix<32>,
    pub soft: Soft,
    pub idle: bool,
    pub low: Option<Fix<20>>,
    pub high: Option<Fix<20>>,
}

/// The rows of a state in their order, at most `njmax`, and their Jacobians: row after row, `nv` numbers
/// a row. `row` and `reduced` are working room for one row.
#[derive(Drop)]
pub struct Rows {
    pub list: Listing<Row>,
    pub jac: Listing<Fix<32>>,
    pub row: Array<Fix<32>>,
    pub reduced: Array<Fix<24>>,
}

/// What a step did: its acceleration and how exactly it solves the equations of motion, the largest
/// radius of the mass matrix's entries and of the bias forces, and the rows, of which there are
/// `count`, with their forces and the certificate.
#[derive(Drop)]
pub struct StepReport {
    pub format: u32,
    pub accel: Array<Fix<32>>,
    pub residual: i128,
    pub mass_radius: i64,
    pub bias_radius: i64,
    pub rows: Listing<Row>,
    pub count: usize,
    pub stop: Stop,
    pub forces: Forces,
    pub cert: Cert,
}

/// What a run came to: the steps that were asked for and done, its end, and sums over the steps: rows in
/// the duals and idle rows, sweeps, and how often each stop came. `gap` is the largest difference of cost
/// and bound, `residual` the largest residual, both 0 where no step was done.
#[derive(Clone, Copy, Debug, PartialEq, Eq)]
pub struct Summary {
    pub steps: u32,
    pub done: u32,
    pub end: crate::range::End,
    pub rows: u64,
    pub idle: u64,
    pub sweeps: u64,
    pub tolerance: u64,
    pub limit: u64,
    pub none: u64,
    pub gap: i128,
    pub residual: i128,
}

impl Rows {
    ghost use Rattle.mj_types.specs.RowRooms as spec;

    /// No row, with room for `njmax`.
    pub fn new(alloc: Global, model: &Model) -> Result<Rows, NoMemory>
        ensures room { IfOk result (λ r. spec.RowsRoom model.now r) }
        ensures empty { IfOk result (λ r. r.list.list ≡ []) }
    {
        Ok(Rows {
            list: listing(alloc, model.njmax)?,
            jac: listing(alloc, model.njmax * model.nv)?,
            row: zeros(alloc, model.nv)?,
            reduced: zeros(alloc, model.nv)?,
        })
    }
}

impl StepReport {
    ghost use Rattle.mj_types.specs.RowRooms as spec;

    /// A report of no rows, with room for the model's.
    pub fn new(alloc: Global, model: &Model) -> Result<StepReport, NoMemory>
        ensures room { IfOk result (λ r. spec.ReportRoom model.now r) }
        ensures empty { IfOk result (λ r. r.rows.list ≡ []) }
        ensures count { IfOk result (λ r. r.count ≡ 0) }
    {
        Ok(StepReport {
            format: model.format,
            accel: zeros(alloc, model.nv)?,
            residual: 0,
            mass_radius: 0,
            bias_radius: 0,
            rows: listing(alloc, model.njmax)?,
            count: 0,
            stop: Stop::NoRows,
            forces: Forces::new(alloc, model)?,
            cert: Cert::new(alloc, model)?,
        })
    }
}
