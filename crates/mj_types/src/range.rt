// The numbers of a step that have a range, and how a run ends.
ghost use Rattle.std.specs.Prelude.{◌≡◌};
ghost use Rattle.fx_whole.specs.First.{refusal_of};
ghost use Rattle.mj_types.specs.Ranges as spec;

/// A kind of number that a step makes within a range. A printed kind is its name.
#[derive(Clone, Copy, Debug, PartialEq, Eq)]
pub enum Quantity {
    /// The length of a body's quaternion before it is made a unit.
    QuatNorm,
    /// A position of a body or of its centre of mass.
    FramePos,
    /// A centre of mass, from its tree's reference point.
    Arm,
    /// The length of a geom's quaternion before it is made a unit.
    GeomNorm,
    /// A body's first moment, or a number of its rotational inertia.
    Inertia,
    /// A number of a dof's motion column.
    Column,
    /// A number of the momentum that a dof's unit velocity gives.
    Momentum,
    /// An entry of the mass matrix.
    Mass,
    /// A number of the motion that carries a dof's column, or of the column's rate.
    DofMotion,
    /// A number of a body's motion, of its acceleration without forces, or of its momentum.
    BodyMotion,
    /// A number of the force that a body's motion asks for.
    Wrench,
    /// A number of the wrench on the bodies that a dof moves, or the bias force.
    Bias,
    /// A tendon's length or its rate.
    TendonLength,
    /// A tendon's force.
    TendonForce,
    /// The force that is applied at a dof.
    Applied,
    /// A pivot of the factor.
    Pivot,
    /// An entry of the factor below the diagonal.
    Lower,
    /// An acceleration, or a number of a solve on the way to it.
    Accel,
    /// The number of rows.
    Rows,
    /// An entry of a row's Jacobian, or a lever arm's velocity.
    Jacobian,
    /// The violation of an equality.
    Violation,
    /// A number of a row's half solve.
    Reduced,
    /// A row's diagonal entry or its regularizer.
    Regularizer,
    /// A number of a row's reference acceleration.
    Reference,
    /// A row's acceleration without contact forces, or the dual's right side.
    DualVector,
    /// A row's force.
    Force,
    /// A number of u = G^T f.
    Reach,
    /// A sum of the cost's terms.
    Cost,
    /// The sum of the rows' shortfalls.
    Shortfall,
    /// How far the box reaches from a row's force.
    Box,
    /// The whole force at a dof.
    Load,
    /// A velocity after the step.
    Velocity,
    /// A position after the step.
    Position,
    /// The acceleration that a step gives to a row.
    InverseRate,
    /// A row's force by itself, from the step's acceleration.
    InverseForce,
    /// The whole force at a dof with these forces.
    InverseLoad,
    /// A radius of an error.
    ErrorBound,
}

impl Quantity {
    /// The kind's name, as a trace prints it.
    pub fn name(self) -> &'static str
        ensures { result.now ≡ spec.quantity_name self }
    {
        match self {
            Quantity::QuatNorm => "QuatNorm",
            Quantity::FramePos => "FramePos",
            Quantity::Arm => "Arm",
            Quantity::GeomNorm => "GeomNorm",
            Quantity::Inertia => "Inertia",
            Quantity::Column => "Column",
            Quantity::Momentum => "Momentum",
            Quantity::Mass => "Mass",
            Quantity::DofMotion => "DofMotion",
            Quantity::BodyMotion => "BodyMotion",
            Quantity::Wrench => "Wrench",
            Quantity::Bias => "Bias",
            Quantity::TendonLength => "TendonLength",
            Quantity::TendonForce => "TendonForce",
            Quantity::Applied => "Applied",
            Quantity::Pivot => "Pivot",
            Quantity::Lower => "Lower",
            Quantity::Accel => "Accel",
            Quantity::Rows => "Rows",
            Quantity::Jacobian => "Jacobian",
            Quantity::Violation => "Violation",
            Quantity::Reduced => "Reduced",
            Quantity::Regularizer => "Regularizer",
            Quantity::Reference => "Reference",
            Quantity::DualVector => "DualVector",
            Quantity::Force => "Force",
            Quantity::Reach => "Reach",
            Quantity::Cost => "Cost",
            Quantity::Shortfall => "Shortfall",
            Quantity::Box => "Box",
            Quantity::Load => "Load",
            Quantity::Velocity => "Velocity",
            Quantity::Position => "Position",
            Quantity::InverseRate => "InverseRate",
            Quantity::InverseForce => "InverseForce",
            Quantity::InverseLoad => "InverseLoad",
            Quantity::ErrorBound => "ErrorBound",
        }
    }
}

/// The first number of a step that left its range: its kind, and which of that kind, from 1.
#[derive(Clone, Copy, Debug, PartialEq, Eq)]
pub struct OutOfRange {
    pub kind: Quantity,
    pub index: usize,
}

impl OutOfRange {
    /// Nothing where a number is in its range, which the caller judged; else its fault.
    pub fn unless(good: bool, kind: Quantity, index: usize) -> Result<(), OutOfRange>
        ensures { refusal_of result ≡ spec.unless good kind index }
    {
        if good {
            Ok(())
        } else {
            Err(OutOfRange { kind, index })
        }
    }
}

/// How a run ends: after all its steps, or in the step, from 1, whose first number out of range is named.
#[derive(Clone, Copy, Debug, PartialEq, Eq)]
pub enum End {
    Done,
    OutOfRange {
        step: usize,
        kind: Quantity,
        index: usize,
    },
}
