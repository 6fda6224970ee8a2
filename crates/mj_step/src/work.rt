// The workspace of a run, and one step in it.
ghost use Rattle.std.specs.Prelude.{◌≡◌, ◌^◌, false, is_ok, length, pos, List, None, IsTrue, IfOk, IfErr, IfSome};
ghost use Rattle.fx_whole.specs.First.{refusal_of};
ghost use Rattle.mj_types.specs.declared.state.State.{State};
ghost use Rattle.mj_types.specs.Control.{Control};
ghost use Rattle.mj_types.specs.States.{Fits};
ghost use Rattle.mj_types.specs.Solved.{IsSolved};
ghost use Rattle.mj_types.specs.StepValues.{values_of, dual_values};
ghost use Rattle.mj_types.specs.Masses.{mass_at};
ghost use Rattle.mj_types.specs.Parts.{number_at};
ghost use Rattle.mj_types.specs.BiasRooms.{BiasRoom};
ghost use Rattle.mj_types.specs.FactorRooms.{FactorRoom};
ghost use Rattle.mj_types.specs.Problems.{HasRoom};
ghost use Rattle.mj_types.specs.Rooms.{FramesRoom, CompositeRoom, MassRoom, AppliedRoom, ContactsRoom};
ghost use Rattle.mj_types.specs.RowRooms.{RowsRoom, ReportRoom};
ghost use Rattle.mj_euler.specs.Written.{StateRoom};
ghost use Rattle.mj_quadratic.specs.Balls.{Encloses};
ghost use Rattle.mj_ball.specs.Shifts.{ball_of};
ghost use Rattle.mj_passive.specs.Forces.{AreControls, applied_fault};
ghost use Rattle.mj_step.specs.Certified.{IsCertified, HasCertificate};
ghost use Rattle.mj_step.specs.Covered.{IsCovered};
ghost use Rattle.mj_step.specs.Steps as spec;
ghost use Rattle.mj_step.specs.Workspace.{MadeFor, HasFrames, HasMass, HasBias, HasApplied, HasLoad, HasAcceleration, HasFactor, HasRows, CanPush, HasForces, CanEnclose, HasGap};

use crate::loading::fill_load;
use crate::report::{
    copy_into, copy_rows, fill_free_load, largest_bias_radius, largest_mass_radius,
};
use fx_list::Array;
use fx_near::Band;
use fx_num::{Fix, Number};
use mj_ball::ball;
use mj_bias::bias;
use mj_contact::contacts;
use mj_dual::assemble;
use mj_euler::integrate;
use mj_factor::{factor, residual, solve};
use mj_force::enclose;
use mj_inertia::{composites, mass_matrix};
use mj_kin::frames;
use mj_passive::applied;
use mj_types::{
    Applied, Ball, Bias, Composite, Contacts, Dual, Factor, Frames, Mass, Model, NoMemory,
    OutOfRange, Rows, State, StepReport,
};
use std::alloc::Global;

/// All that a run's steps need beside the model and the state. It is made once; a step takes no memory.
/// The fields are public so that contracts can name them. `free_load` is the force that is applied less
/// the bias force, and `smooth` the acceleration that it gives; `load` and `accel` are those with the
/// forces of the constraints. `spare` is working room for a ball. `is_done` says whether the last step
/// was done, so that the report and the dual are its.
#[derive(Drop)]
pub struct Work {
    pub frames: Frames,
    pub composite: Composite,
    pub mass: Mass,
    pub bias: Bias<Band>,
    pub applied: Applied,
    pub factor: Factor,
    pub spare: Factor,
    pub contacts: Contacts,
    pub free_load: Array<Fix<32>>,
    pub smooth: Vec<Fix<32>>,
    pub load: Array<Fix<32>>,
    pub accel: Vec<Fix<32>>,
    pub rows: Rows,
    pub dual: Dual,
    pub report: StepReport,
    pub next: State,
    pub is_done: bool,
}

// Zeros.
fn zeros(alloc: Global, n: usize) -> Result<Array<Fix<32>>, NoMemory>
    ensures { IfOk result (λ a. length a ≡ n) }
{
    match Array::filled(alloc, n, Number { mid: 0, rad: () }) {
        Ok(list) => Ok(list),
        Err(_) => Err(NoMemory),
    }
}

// The workspace is made in parts: what the mass matrix is made of,
#[derive(Drop)]
struct TreeRooms {
    frames: Frames,
    composite: Composite,
    mass: Mass,
}

impl TreeRooms {
    fn new(alloc: Global, model: &Model) -> Result<TreeRooms, NoMemory>
        ensures frames { IfOk result (λ r. FramesRoom model.now r.frames) }
        ensures composite { IfOk result (λ r. CompositeRoom model.now r.composite) }
        ensures mass { IfOk result (λ r. MassRoom model.now r.mass) }
    {
        Ok(TreeRooms {
            frames: Frames::new(alloc, model)?,
            composite: Composite::new(alloc, model)?,
            mass: Mass::new(alloc, model)?,
        })
    }
}

// the forces, the factors and the contacts,
#[derive(Drop)]
struct ForceRooms {
    bias: Bias<Band>,
    applied: Applied,
    factor: Factor,
    spare: Factor,
    contacts: Contacts,
}

impl ForceRooms {
    fn new(alloc: Global, model: &Model) -> Result<ForceRooms, NoMemory>
        ensures bias { IfOk result (λ r. BiasRoom model.now r.bias) }
        ensures applied { IfOk result (λ r. AppliedRoom model.now r.applied) }
        ensures factor { IfOk result (λ r. FactorRoom model.now r.factor) }
        ensures spare { IfOk result (λ r. FactorRoom model.now r.spare) }
        ensures contacts { IfOk result (λ r. ContactsRoom model.now r.contacts) }
    {
        Ok(ForceRooms {
            bias: Bias::new(alloc, model)?,
            applied: Applied::new(alloc, model)?,
            factor: Factor::new(alloc, model)?,
            spare: Factor::new(alloc, model)?,
            contacts: Contacts::new(alloc, model)?,
        })
    }
}

// the rows, their dual and the report,
#[derive(Drop)]
struct RowRooms {
    rows: Rows,
    dual: Dual,
    report: StepReport,
}

impl RowRooms {
    fn new(alloc: Global, model: &Model) -> Result<RowRooms, NoMemory>
        ensures rows { IfOk result (λ r. RowsRoom model.now r.rows) }
        ensures dual { IfOk result (λ r. HasRoom model.now.njmax model.now.nv r.dual) }
        ensures report { IfOk result (λ r. ReportRoom model.now r.report) }
    {
        Ok(RowRooms {
            rows: Rows::new(alloc, model)?,
            dual: Dual::new(alloc, model)?,
            report: StepReport::new(alloc, model)?,
        })
    }
}

// and the loads, the accelerations and the next state.
#[derive(Drop)]
struct NumberRooms {
    free_load: Array<Fix<32>>,
    smooth: Vec<Fix<32>>,
    load: Array<Fix<32>>,
    accel: Vec<Fix<32>>,
    next: State,
}

impl NumberRooms {
    fn new(alloc: Global, model: &Model) -> Result<NumberRooms, NoMemory>
        ensures free_load { IfOk result (λ r. length r.free_load ≡ model.now.nv) }
        ensures smooth { IfOk result (λ r. length r.smooth.items ≡ model.now.nv) }
        ensures load { IfOk result (λ r. length r.load ≡ model.now.nv) }
        ensures accel { IfOk result (λ r. length r.accel.items ≡ model.now.nv) }
        ensures next { IfOk result (λ r. StateRoom model.now r.next) }
    {
        Ok(NumberRooms {
            free_load: zeros(alloc, model.nv)?,
            smooth: zeros(alloc, model.nv)?.into_vec(),
            load: zeros(alloc, model.nv)?,
            accel: zeros(alloc, model.nv)?.into_vec(),
            next: State::new(alloc, model)?,
        })
    }
}

// The rows and the numbers.
#[derive(Drop)]
struct LastRooms {
    rows: RowRooms,
    numbers: NumberRooms,
}

impl LastRooms {
    fn new(alloc: Global, model: &Model) -> Result<LastRooms, NoMemory>
        ensures rows { IfOk result (λ r. RowsRoom model.now r.rows.rows) }
        ensures dual { IfOk result (λ r. HasRoom model.now.njmax model.now.nv r.rows.dual) }
        ensures report { IfOk result (λ r. ReportRoom model.now r.rows.report) }
        ensures free_load { IfOk result (λ r. length r.numbers.free_load ≡ model.now.nv) }
        ensures smooth { IfOk result (λ r. length r.numbers.smooth.items ≡ model.now.nv) }
        ensures load { IfOk result (λ r. length r.numbers.load ≡ model.now.nv) }
        ensures accel { IfOk result (λ r. length r.numbers.accel.items ≡ model.now.nv) }
        ensures next { IfOk result (λ r. StateRoom model.now r.numbers.next) }
    {
        let rows = RowRooms::new(alloc, model)?;
        match NumberRooms::new(alloc, model) {
            Ok(numbers) => Ok(LastRooms { rows, numbers }),
            Err(NoMemory) => {
                drop(rows);
                Err(NoMemory)
            }
        }
    }
}

// The parts together: a workspace for the model that each is made for.
fn joined(model: &Model, tree: TreeRooms, forces: ForceRooms, last: LastRooms) -> Work
    requires frames { FramesRoom model.now tree.frames }
    requires composite { CompositeRoom model.now tree.composite }
    requires mass { MassRoom model.now tree.mass }
    requires bias { BiasRoom model.now forces.bias }
    requires applied { AppliedRoom model.now forces.applied }
    requires factor { FactorRoom model.now forces.factor }
    requires spare { FactorRoom model.now forces.spare }
    requires rows { RowsRoom model.now last.rows.rows }
    requires dual { HasRoom model.now.njmax model.now.nv last.rows.dual }
    requires report { ReportRoom model.now last.rows.report }
    requires contacts { ContactsRoom model.now forces.contacts }
    requires free_load { length last.numbers.free_load ≡ model.now.nv }
    requires smooth { length last.numbers.smooth.items ≡ model.now.nv }
    requires load { length last.numbers.load ≡ model.now.nv }
    requires accel { length last.numbers.accel.items ≡ model.now.nv }
    requires next { StateRoom model.now last.numbers.next }
    ensures made { MadeFor model.now result }
    ensures flag { result.is_done ≡ false }
{
    let TreeRooms {
        frames,
        composite,
        mass,
    } = tree;
    let ForceRooms {
        bias,
        applied,
        factor,
        spare,
        contacts,
    } = forces;
    let LastRooms { rows, numbers } = last;
    let RowRooms { rows, dual, report } = rows;
    let NumberRooms {
        free_load,
        smooth,
        load,
        accel,
        next,
    } = numbers;
    Work {
        frames,
        composite,
        mass,
        bias,
        applied,
        factor,
        spare,
        contacts,
        free_load,
        smooth,
        load,
        accel,
        rows,
        dual,
        report,
        next,
        is_done: false,
    }
}

impl Work {
    /// A workspace for a model: all memory of all its steps.
    pub fn new(alloc: Global, model: &Model) -> Result<Work, NoMemory>
        ensures made { IfOk result (λ w. MadeFor model.now w) }
        ensures flag { IfOk result (λ w. w.is_done ≡ false) }
    {
        let tree = TreeRooms::new(alloc, model)?;
        let forces = match ForceRooms::new(alloc, model) {
            Ok(forces) => forces,
            Err(NoMemory) => {
                drop(tree);
                return Err(NoMemory);
            }
        };
        match LastRooms::new(alloc, model) {
            Ok(last) => Ok(joined(model, tree, forces, last)),
            Err(NoMemory) => {
                drop(tree);
                drop(forces);
                Err(NoMemory)
            }
        }
    }

    /// One step by semi-implicit Euler (MuJoCo documentation, Computation): the accelerations without
    /// constraints, the constraints' rows and their dual, its forces by projected Gauss-Seidel with
    /// their certificate, and the acceleration that all forces give; the state moves on by the model's
    /// time step under the controls. Where a number leaves its range, the first such number is named and
    /// the state stays. Takes no memory.
    pub fn step(
        &mut self,
        model: &Model,
        state: &mut State,
        controls: &[Fix<32>],
    ) -> Result<(), OutOfRange>
        requires made { MadeFor model.now self.old }
        requires fits { Fits model.now state.old }
        requires controls { AreControls model.now controls.now }
        ensures made { MadeFor model.now self.new }
        ensures fits { Fits model.now state.new }
        ensures first { refusal_of result
            ≡ spec.step_fault model.now state.old controls.now }
        ensures state { IfOk result (λ _. state.new
            ≡ spec.step_state model.now state.old controls.now) }
        ensures report { IfOk result (λ _. values_of state.new self.new.report
            ≡ spec.step_values model.now state.old controls.now) }
        ensures dual { IfOk result (λ _. dual_values self.new.dual
            ≡ spec.dual_at model.now state.old controls.now) }
        ensures count { IfOk result (λ _. self.new.report.count
            ≡ length self.new.report.rows.list) }
        ensures mass { IfOk result (λ _. HasMass model.now state.old self.new.mass) }
        ensures load { IfOk result (λ _. HasLoad model.now
            (spec.free_load model.now state.old controls.now) self.new.free_load) }
        ensures smooth { IfOk result (λ _. HasAcceleration model.now
            (spec.smooth model.now state.old controls.now) self.new.smooth.items) }
        ensures rows { IfOk result (λ _. HasRows model.now state.old controls.now
            self.new.rows self.new.dual) }
        ensures forces { IfOk result (λ _. CanPush model.now.nv
            self.new.rows self.new.dual self.new.report.forces) }
        ensures whole_load { IfOk result (λ _. HasLoad model.now
            (spec.load model.now state.old controls.now) self.new.load) }
        ensures accel { IfOk result (λ _. HasAcceleration model.now
            (spec.acceleration model.now state.old controls.now) self.new.accel.items) }
        ensures can_enclose { IfOk result (λ _. CanEnclose model.now
            self.new.mass self.new.accel.items) }
        ensures gap { IfOk result (λ _. HasGap self.new.report.cert) }
        ensures solved { IfOk result (λ _. IsSolved self.new.dual self.new.report.forces) }
        ensures enclosed { IfOk result (λ _. HasCertificate self.new.dual self.new.report) }
        ensures certified { IfOk result (λ _. IsCertified model.now state.old controls.now) }
        ensures covered { IfOk result (λ _. IsCovered model.now state.old controls.now) }
        ensures kept { IfErr result (λ _. state.new ≡ state.old) }
        ensures flag { self.new.is_done ≡ is_ok result }
    {
        self.is_done = false;
        self.compute(model, state, controls)?;
        std::mem::swap(state, &mut self.next);
        self.is_done = true;
        Ok(())
    }

    /// What the last step told, which was done.
    pub fn report(&self) -> &StepReport
        requires { IsTrue self.now.is_done }
        ensures { result.now ≡ self.now.report }
    {
        &self.report
    }

    /// The dual of the last step, which was done.
    pub fn dual(&self) -> &Dual
        requires { IsTrue self.now.is_done }
        ensures { result.now ≡ self.now.dual }
    {
        &self.dual
    }

    /// The rows of the last step, which was done, with their Jacobians.
    pub fn jacobian(&self) -> &Rows
        requires { IsTrue self.now.is_done }
        ensures { result.now ≡ self.now.rows }
    {
        &self.rows
    }

    /// The acceleration without contact forces of the last step, which was done.
    pub fn smooth(&self) -> &[Fix<32>]
        requires { IsTrue self.now.is_done }
        ensures { result.now ≡ self.now.smooth.items }
    {
        self.smooth.as_slice()
    }

    /// The mass matrix of the last step, which was done.
    pub fn mass(&self) -> &Mass
        requires { IsTrue self.now.is_done }
        ensures { result.now ≡ self.now.mass }
    {
        &self.mass
    }

    /// The force applied less the bias force in the last step, which was done.
    pub fn free_load(&self) -> &[Fix<32>]
        requires { IsTrue self.now.is_done }
        ensures { result.now ≡ self.now.free_load }
    {
        self.free_load.as_slice()
    }

    /// A ball around the acceleration of the last step, which was done, that holds each rational
    /// solution of the step's own equation of motion `M x = tau - c + J^T f`; see `mj_ball::ball`.
    /// What the step told stays. Takes no memory.
    pub fn ball(&mut self, model: &Model) -> Option<Ball>
        requires done { IsTrue self.old.is_done }
        requires made { MadeFor model.now self.old }
        requires can { CanEnclose model.now self.old.mass self.old.accel.items }
        ensures made { MadeFor model.now self.new }
        ensures value { result ≡ ball_of model.now.nv (mass_at model.now.nv self.old.mass.m)
            (number_at self.old.accel.items) (number_at self.old.load) }
        ensures encloses { IfSome result (λ b. Encloses model.now.nv
            (mass_at model.now.nv self.old.mass.m) (number_at self.old.accel.items)
            (number_at self.old.load) (pos (2 ^ 40)) b.radius) }
        ensures of_step { (s : State) (u : List Control) → HasMass model.now s self.old.mass
            → HasAcceleration model.now (spec.acceleration model.now s u) self.old.accel.items
            → HasLoad model.now (spec.load model.now s u) self.old.load
            → result ≡ spec.ball_at model.now s u }
        ensures report { self.new.report ≡ self.old.report }
        ensures dual { self.new.dual ≡ self.old.dual }
        ensures rows { self.new.rows ≡ self.old.rows }
        ensures smooth { self.new.smooth ≡ self.old.smooth }
        ensures mass { self.new.mass ≡ self.old.mass }
        ensures free_load { self.new.free_load ≡ self.old.free_load }
        ensures whole_load { self.new.load ≡ self.old.load }
        ensures accel { self.new.accel ≡ self.old.accel }
        ensures flag { self.new.is_done ≡ self.old.is_done }
    {
        ball(
            model,
            &self.mass,
            self.accel.as_slice(),
            self.load.as_slice(),
            &mut self.spare,
        )
    }

    // The next state and the report, from a state.
    fn compute(
        &mut self,
        model: &Model,
        state: &State,
        controls: &[Fix<32>],
    ) -> Result<(), OutOfRange>
        requires made { MadeFor model.now self.old }
        requires fits { Fits model.now state.now }
        requires controls { AreControls model.now controls.now }
        ensures made { MadeFor model.now self.new }
        ensures first { refusal_of result
            ≡ spec.step_fault model.now state.now controls.now }
        ensures next { IfOk result (λ _. self.new.next
            ≡ spec.step_state model.now state.now controls.now) }
        ensures fits { IfOk result (λ _. Fits model.now self.new.next) }
        ensures report { IfOk result (λ _. values_of self.new.next self.new.report
            ≡ spec.step_values model.now state.now controls.now) }
        ensures count { IfOk result (λ _. self.new.report.count
            ≡ length self.new.report.rows.list) }
        ensures mass { IfOk result (λ _. HasMass model.now state.now self.new.mass) }
        ensures load { IfOk result (λ _. HasLoad model.now
            (spec.free_load model.now state.now controls.now) self.new.free_load) }
        ensures smooth { IfOk result (λ _. HasAcceleration model.now
            (spec.smooth model.now state.now controls.now) self.new.smooth.items) }
        ensures rows { IfOk result (λ _. HasRows model.now state.now controls.now
            self.new.rows self.new.dual) }
        ensures forces { IfOk result (λ _. CanPush model.now.nv
            self.new.rows self.new.dual self.new.report.forces) }
        ensures whole_load { IfOk result (λ _. HasLoad model.now
            (spec.load model.now state.now controls.now) self.new.load) }
        ensures accel { IfOk result (λ _. HasAcceleration model.now
            (spec.acceleration model.now state.now controls.now) self.new.accel.items) }
        ensures gap { IfOk result (λ _. HasGap self.new.report.cert) }
        ensures solved { IfOk result (λ _. IsSolved self.new.dual self.new.report.forces) }
        ensures enclosed { IfOk result (λ _. HasCertificate self.new.dual self.new.report) }
        ensures flag { self.new.is_done ≡ self.old.is_done }
    {
        self.weigh(model, state)?;
        self.push(model, state, controls)?;
        self.accelerate_freely(model, state, controls)?;
        self.constrain(model, state, controls)?;
        self.enclose(model, state, controls)?;
        self.push_constraints(model, state, controls)?;
        self.accelerate(model, state, controls)?;
        integrate(model, state, self.accel.as_slice(), &mut self.next)?;
        self.fill_report(model, state, controls);
        Ok(())
    }

    // The frames, the mass matrix and the bias forces of a state.
    fn weigh(&mut self, model: &Model, state: &State) -> Result<(), OutOfRange>
        requires made { MadeFor model.now self.old }
        requires fits { Fits model.now state.now }
        ensures made { MadeFor model.now self.new }
        ensures first { refusal_of result ≡ spec.weigh_fault model.now state.now }
        ensures frames { IfOk result (λ _. HasFrames model.now state.now self.new.frames) }
        ensures mass { IfOk result (λ _. HasMass model.now state.now self.new.mass) }
        ensures bias { IfOk result (λ _. HasBias model.now state.now self.new.bias.c) }
        ensures flag { self.new.is_done ≡ self.old.is_done }
    {
        frames(model, state, &mut self.frames)?;
        composites(model, &self.frames, &mut self.composite);
        mass_matrix(
            model,
            self.frames.column.as_slice(),
            &self.composite,
            &mut self.mass,
        )?;
        bias(model, &self.frames, state, &mut self.bias)?;
        Ok(())
    }

    // The applied forces, less the bias forces.
    fn push(&mut self, model: &Model, state: &State, controls: &[Fix<32>]) -> Result<(), OutOfRange>
        requires made { MadeFor model.now self.old }
        requires fits { Fits model.now state.now }
        requires controls { AreControls model.now controls.now }
        requires bias { HasBias model.now state.now self.old.bias.c }
        ensures made { MadeFor model.now self.new }
        ensures first { refusal_of result ≡ applied_fault model.now state.now controls.now }
        ensures applied { IfOk result (λ _. HasApplied model.now state.now self.new.applied) }
        ensures load { IfOk result (λ _. HasLoad model.now
            (spec.free_load model.now state.now controls.now) self.new.free_load) }
        ensures frames { self.new.frames ≡ self.old.frames }
        ensures mass { self.new.mass ≡ self.old.mass }
        ensures bias { self.new.bias ≡ self.old.bias }
        ensures flag { self.new.is_done ≡ self.old.is_done }
    {
        applied(model, state, controls, &mut self.applied)?;
        fill_free_load(
            model,
            self.applied.tau.as_slice(),
            self.bias.c.as_slice(),
            &mut self.free_load,
        );
        Ok(())
    }

    // The factor of the mass matrix, and the acceleration without constraints.
    fn accelerate_freely(
        &mut self,
        model: &Model,
        state: &State,
        controls: &[Fix<32>],
    ) -> Result<(), OutOfRange>
        requires made { MadeFor model.now self.old }
        requires mass { HasMass model.now state.now self.old.mass }
        requires load { HasLoad model.now
            (spec.free_load model.now state.now controls.now) self.old.free_load }
        ensures made { MadeFor model.now self.new }
        ensures first { refusal_of result
            ≡ spec.smooth_fault model.now state.now controls.now }
        ensures factor { IfOk result (λ _. HasFactor model.now state.now self.new.factor) }
        ensures smooth { IfOk result (λ _. HasAcceleration model.now
            (spec.smooth model.now state.now controls.now) self.new.smooth.items) }
        ensures frames { self.new.frames ≡ self.old.frames }
        ensures mass { self.new.mass ≡ self.old.mass }
        ensures bias { self.new.bias ≡ self.old.bias }
        ensures applied { self.new.applied ≡ self.old.applied }
        ensures load { self.new.free_load ≡ self.old.free_load }
        ensures flag { self.new.is_done ≡ self.old.is_done }
    {
        factor(model, &self.mass, &mut self.factor)?;
        solve(
            model,
            &self.factor,
            self.free_load.as_slice(),
            self.smooth.as_mut_slice(),
        )?;
        Ok(())
    }

    // The rows of all constraints, and the dual of those that aren't idle.
    fn constrain(
        &mut self,
        model: &Model,
        state: &State,
        controls: &[Fix<32>],
    ) -> Result<(), OutOfRange>
        requires made { MadeFor model.now self.old }
        requires fits { Fits model.now state.now }
        requires frames { HasFrames model.now state.now self.old.frames }
        requires applied { HasApplied model.now state.now self.old.applied }
        requires factor { HasFactor model.now state.now self.old.factor }
        requires smooth { HasAcceleration model.now
            (spec.smooth model.now state.now controls.now) self.old.smooth.items }
        ensures made { MadeFor model.now self.new }
        ensures first { refusal_of result
            ≡ spec.rows_fault model.now state.now controls.now }
        ensures rows { IfOk result (λ _. HasRows model.now state.now controls.now
            self.new.rows self.new.dual) }
        ensures mass { self.new.mass ≡ self.old.mass }
        ensures bias { self.new.bias ≡ self.old.bias }
        ensures factor { self.new.factor ≡ self.old.factor }
        ensures load { self.new.free_load ≡ self.old.free_load }
        ensures smooth { self.new.smooth ≡ self.old.smooth }
        ensures flag { self.new.is_done ≡ self.old.is_done }
    {
        contacts(model, &self.frames, &mut self.contacts)?;
        assemble(
            model,
            state,
            &self.frames,
            &self.applied,
            &self.contacts,
            &self.factor,
            self.smooth.as_slice(),
            &mut self.rows,
            &mut self.dual,
        )?;
        Ok(())
    }

    // The forces of the dual, and their certificate.
    fn enclose(
        &mut self,
        model: &Model,
        state: &State,
        controls: &[Fix<32>],
    ) -> Result<(), OutOfRange>
        requires made { MadeFor model.now self.old }
        requires rows { HasRows model.now state.now controls.now self.old.rows self.old.dual }
        ensures made { MadeFor model.now self.new }
        ensures first { refusal_of result
            ≡ spec.force_fault model.now state.now controls.now }
        ensures forces { IfOk result
            (λ _. HasForces model.now state.now controls.now self.new.report) }
        ensures solved { IfOk result (λ _. IsSolved self.new.dual self.new.report.forces) }
        ensures mass { self.new.mass ≡ self.old.mass }
        ensures bias { self.new.bias ≡ self.old.bias }
        ensures factor { self.new.factor ≡ self.old.factor }
        ensures load { self.new.free_load ≡ self.old.free_load }
        ensures smooth { self.new.smooth ≡ self.old.smooth }
        ensures rows { self.new.rows ≡ self.old.rows }
        ensures dual { self.new.dual ≡ self.old.dual }
        ensures flag { self.new.is_done ≡ self.old.is_done }
    {
        self.report.stop = enclose(
            &self.dual,
            model.iterations,
            model.tolerance,
            &mut self.report.forces,
            &mut self.report.cert,
        )?;
        Ok(())
    }

    // The load with the forces of the constraints.
    fn push_constraints(
        &mut self,
        model: &Model,
        state: &State,
        controls: &[Fix<32>],
    ) -> Result<(), OutOfRange>
        requires made { MadeFor model.now self.old }
        requires load { HasLoad model.now
            (spec.free_load model.now state.now controls.now) self.old.free_load }
        requires rows { HasRows model.now state.now controls.now self.old.rows self.old.dual }
        requires in_range { spec.rows_fault model.now state.now controls.now ≡ None }
        requires forces { HasForces model.now state.now controls.now self.old.report }
        ensures made { MadeFor model.now self.new }
        ensures first { refusal_of result
            ≡ spec.load_fault model.now state.now controls.now }
        ensures load { IfOk result (λ _. HasLoad model.now
            (spec.load model.now state.now controls.now) self.new.load) }
        ensures can { CanPush model.now.nv self.old.rows self.old.dual self.old.report.forces }
        ensures mass { self.new.mass ≡ self.old.mass }
        ensures bias { self.new.bias ≡ self.old.bias }
        ensures factor { self.new.factor ≡ self.old.factor }
        ensures free_load { self.new.free_load ≡ self.old.free_load }
        ensures smooth { self.new.smooth ≡ self.old.smooth }
        ensures rows { self.new.rows ≡ self.old.rows }
        ensures dual { self.new.dual ≡ self.old.dual }
        ensures report { self.new.report ≡ self.old.report }
        ensures flag { self.new.is_done ≡ self.old.is_done }
    {
        fill_load(
            model.nv,
            self.free_load.as_slice(),
            &self.rows,
            &self.dual,
            &self.report.forces,
            &mut self.load,
        )?;
        Ok(())
    }

    // The acceleration that the load gives: the one without constraints, where the dual has no rows.
    fn accelerate(
        &mut self,
        model: &Model,
        state: &State,
        controls: &[Fix<32>],
    ) -> Result<(), OutOfRange>
        requires made { MadeFor model.now self.old }
        requires factor { HasFactor model.now state.now self.old.factor }
        requires smooth { HasAcceleration model.now
            (spec.smooth model.now state.now controls.now) self.old.smooth.items }
        requires in_range { spec.smooth_fault model.now state.now controls.now ≡ None }
        requires rows { HasRows model.now state.now controls.now self.old.rows self.old.dual }
        requires load { HasLoad model.now
            (spec.load model.now state.now controls.now) self.old.load }
        ensures made { MadeFor model.now self.new }
        ensures first { refusal_of result ≡ spec.solved_fault model.now state.now
            (spec.load model.now state.now controls.now) }
        ensures accel { IfOk result (λ _. HasAcceleration model.now
            (spec.acceleration model.now state.now controls.now) self.new.accel.items) }
        ensures mass { self.new.mass ≡ self.old.mass }
        ensures bias { self.new.bias ≡ self.old.bias }
        ensures free_load { self.new.free_load ≡ self.old.free_load }
        ensures smooth { self.new.smooth ≡ self.old.smooth }
        ensures load { self.new.load ≡ self.old.load }
        ensures rows { self.new.rows ≡ self.old.rows }
        ensures dual { self.new.dual ≡ self.old.dual }
        ensures report { self.new.report ≡ self.old.report }
        ensures flag { self.new.is_done ≡ self.old.is_done }
    {
        if self.dual.m > 0 {
            return self.solve_load(model, state, controls);
        }
        self.accel.copy_from_slice(self.smooth.as_slice());
        Ok(())
    }

    // The acceleration that the load gives, by a solve.
    fn solve_load(
        &mut self,
        model: &Model,
        state: &State,
        controls: &[Fix<32>],
    ) -> Result<(), OutOfRange>
        requires made { MadeFor model.now self.old }
        requires factor { HasFactor model.now state.now self.old.factor }
        requires load { HasLoad model.now
            (spec.load model.now state.now controls.now) self.old.load }
        ensures made { MadeFor model.now self.new }
        ensures first { refusal_of result ≡ spec.solved_fault model.now state.now
            (spec.load model.now state.now controls.now) }
        ensures accel { IfOk result (λ _. HasAcceleration model.now
            (spec.acceleration model.now state.now controls.now) self.new.accel.items) }
        ensures mass { self.new.mass ≡ self.old.mass }
        ensures bias { self.new.bias ≡ self.old.bias }
        ensures free_load { self.new.free_load ≡ self.old.free_load }
        ensures smooth { self.new.smooth ≡ self.old.smooth }
        ensures load { self.new.load ≡ self.old.load }
        ensures rows { self.new.rows ≡ self.old.rows }
        ensures dual { self.new.dual ≡ self.old.dual }
        ensures report { self.new.report ≡ self.old.report }
        ensures flag { self.new.is_done ≡ self.old.is_done }
    {
        solve(
            model,
            &self.factor,
            self.load.as_slice(),
            self.accel.as_mut_slice(),
        )?;
        Ok(())
    }

    // What the step tells, of which the next state is computed.
    fn fill_report(&mut self, model: &Model, state: &State, controls: &[Fix<32>])
        requires made { MadeFor model.now self.old }
        requires mass { HasMass model.now state.now self.old.mass }
        requires bias { HasBias model.now state.now self.old.bias.c }
        requires load { HasLoad model.now
            (spec.load model.now state.now controls.now) self.old.load }
        requires accel { HasAcceleration model.now
            (spec.acceleration model.now state.now controls.now) self.old.accel.items }
        requires rows { HasRows model.now state.now controls.now self.old.rows self.old.dual }
        requires forces { HasForces model.now state.now controls.now self.old.report }
        requires next { self.old.next ≡ spec.step_state model.now state.now controls.now }
        ensures made { MadeFor model.now self.new }
        ensures next { self.new.next ≡ self.old.next }
        ensures report { values_of self.new.next self.new.report
            ≡ spec.step_values model.now state.now controls.now }
        ensures count { self.new.report.count ≡ length self.new.report.rows.list }
        ensures forces { self.new.report.forces ≡ self.old.report.forces }
        ensures mass { self.new.mass ≡ self.old.mass }
        ensures load { self.new.free_load ≡ self.old.free_load }
        ensures whole_load { self.new.load ≡ self.old.load }
        ensures accel { self.new.accel ≡ self.old.accel }
        ensures smooth { self.new.smooth ≡ self.old.smooth }
        ensures rows { self.new.rows ≡ self.old.rows }
        ensures dual { self.new.dual ≡ self.old.dual }
        ensures flag { self.new.is_done ≡ self.old.is_done }
    {
        copy_into(&mut self.report.accel, self.accel.as_slice());
        self.report.residual = residual(&self.mass, self.accel.as_slice(), self.load.as_slice());
        self.report.mass_radius = largest_mass_radius(model, &self.mass);
        self.report.bias_radius = largest_bias_radius(self.bias.c.as_slice());
        copy_rows(&self.rows, &mut self.report);
    }
}
