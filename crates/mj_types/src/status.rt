// What a command answers.
ghost use Rattle.std.specs.Prelude.{◌≡◌};
ghost use Rattle.mj_types.specs.Answers as spec;

use crate::range::Quantity;
use crate::tape::TapeFault;
use crate::verdict::Reason;
use fx_list::Text;

/// Why a model is refused.
#[derive(Clone, Copy, Debug, PartialEq, Eq)]
pub enum ModelCode {
    /// The file has more bytes than are read.
    TooLarge,
    /// The file is no TOML document.
    NotToml,
    /// A key that its table doesn't have.
    UnknownKey,
    /// A required key isn't there.
    MissingKey,
    /// A value is a TOML float, which is never exact.
    FloatValue,
    /// A value is of another form.
    WrongKind,
    /// A number can't be read.
    BadNumber,
    /// A count, or a name's length, passes its limit.
    LimitPassed,
    /// No joint gives a degree of freedom.
    EmptyModel,
    /// A name stands before for an object of the same kind.
    DuplicateName,
    /// A name that no object has.
    UnknownName,
    /// A body stands before its parent.
    ParentLater,
    /// A free joint with another, or below the world's children.
    FreeJoint,
    /// A plane that isn't the world's.
    PlaneOffWorld,
    /// A quaternion or an axis is too short to be made a unit.
    NotUnit,
    /// A value is out of its range.
    BadRange,
    /// Solimp's width or power is out of its range.
    BadSolimp,
    /// Solref has neither of its forms.
    BadSolref,
    /// Memory was wanted and not found.
    Memory,
}

impl ModelCode {
    /// The code's name, as a refusal prints it.
    pub fn name(self) -> &'static str
        ensures { result.now ≡ spec.model_code_name self }
    {
        match self {
            ModelCode::TooLarge => "TooLarge",
            ModelCode::NotToml => "NotToml",
            ModelCode::UnknownKey => "UnknownKey",
            ModelCode::MissingKey => "MissingKey",
            ModelCode::FloatValue => "FloatValue",
            ModelCode::WrongKind => "WrongKind",
            ModelCode::BadNumber => "BadNumber",
            ModelCode::LimitPassed => "LimitPassed",
            ModelCode::EmptyModel => "EmptyModel",
            ModelCode::DuplicateName => "DuplicateName",
            ModelCode::UnknownName => "UnknownName",
            ModelCode::ParentLater => "ParentLater",
            ModelCode::FreeJoint => "FreeJoint",
            ModelCode::PlaneOffWorld => "PlaneOffWorld",
            ModelCode::NotUnit => "NotUnit",
            ModelCode::BadRange => "BadRange",
            ModelCode::BadSolimp => "BadSolimp",
            ModelCode::BadSolref => "BadSolref",
            ModelCode::Memory => "Memory",
        }
    }
}

/// Where in a model a fault is, as `body[2].joint[1].range`; empty where no key is named.
pub type Path = Text;

/// Why a model is refused, and at which key.
#[derive(Debug, Drop)]
pub struct ModelFault {
    pub code: ModelCode,
    pub path: Path,
}

/// What a command answers. Words, steps and lines count from 1.
#[derive(Debug, Drop)]
pub enum Status {
    /// The whole text was written, and no number left its range.
    Done,
    /// The words are refused, first at this one.
    BadWords {
        at: usize,
    },
    /// The whole text was written; the run ended early, at this step's first number out of range.
    OutOfRange {
        step: usize,
        kind: Quantity,
        index: usize,
    },
    /// The model is refused.
    BadModel(ModelFault),
    /// A tape is refused: which one, from 1, and why.
    BadTape {
        tape: usize,
        fault: TapeFault,
    },
    /// A file couldn't be read; nothing was written.
    ReadFault,
    /// A write failed; a prefix of the text was written.
    WriteFault,
    /// Memory was wanted and not found; nothing was written.
    Memory,
    /// A dump is rejected, first at this line, and why; its verdict was written.
    Rejected {
        line: usize,
        reason: Reason,
    },
}

impl Status {
    /// The number that the program ends with.
    pub fn code(&self) -> u8
        ensures { result ≡ spec.code_of self.now }
    {
        match self {
            Status::Done => 0,
            Status::BadWords { .. } => 2,
            Status::OutOfRange { .. } => 3,
            Status::BadModel(_) => 4,
            Status::BadTape { .. } => 5,
            Status::ReadFault => 6,
            Status::WriteFault => 7,
            Status::Memory => 8,
            Status::Rejected { .. } => 9,
        }
    }
}
