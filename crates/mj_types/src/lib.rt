//! What the layers hand to one another: models, answers and their causes.
#![tactic(auto)]

pub mod bias;
pub mod carriers;
pub mod dual;
mod factor;
pub mod model;
pub mod parts;
pub mod range;
mod room;
pub mod rows;
pub mod state;
pub mod status;
pub mod tape;
mod tree;
pub mod verdict;
pub mod wants;

pub use bias::Bias;
pub use carriers::{Applied, Composite, Contact, Contacts, Factor, Frames, Mass};
pub use dual::{Cert, Dual, DualRow, Forces};
pub use mj_io::NoMemory;
pub use mj_optimum::Stop;
pub use model::Model;
pub use parts::{
    Body, Dof, Drive, Equality, Geom, GeomKind, Joint, JointKind, Motor, Range, Soft, Tendon, Term,
};
pub use range::{End, OutOfRange, Quantity};
pub use rows::{Row, Rows, Source, StepReport, Summary};
pub use state::State;
pub use status::{ModelCode, ModelFault, Path, Status};
pub use tape::{Tape, TapeFault};
pub use verdict::{Reason, Verdict};
pub use wants::{Ball, Inverse, Wants};
