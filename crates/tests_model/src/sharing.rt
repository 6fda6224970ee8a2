// Each public type of this layer can be sent to other threads and shared with them.
use fx_near::Band;
use fx_num::Plain;
use mj_fan::NoGate;
use mj_form::{AllNumbers, NumberAt, Numbers, Refusal, TextForm, Walker, Whole};
use mj_judge::choices::Extent;
use mj_judge::softness::{Solimp, Solref};
use mj_layout::{BodyParts, Layout};
use mj_read::{
    RawBody, RawEquality, RawGeom, RawInertial, RawJoint, RawKeyframe, RawModel, RawMotor,
    RawOption, RawTendon, RawTerm,
};
use mj_types::{
    Applied, Ball, Bias, Body, Cert, Composite, Contact, Contacts, Dof, Drive, Dual, DualRow, End,
    Equality, Factor, Forces, Frames, Geom, GeomKind, Inverse, Joint, JointKind, Mass, Model,
    ModelCode, ModelFault, Motor, NoMemory, OutOfRange, Path, Quantity, Range, Reason, Row, Rows,
    Soft, Source, State, Status, StepReport, Stop, Summary, Tape, TapeFault, Tendon, Term, Verdict,
    Wants,
};
use mj_walk::bodies::Inertia;
use mj_walk::settings::Settings;
use mj_words::table::{Form, Rule};
use mj_words::{Command, Name};

// A type for which it isn't so is refused here.
fn is_shared<T: Send + Sync>() {}

#[test]
fn each_part_of_a_model_can_be_sent_and_shared() {
    is_shared::<Model>();
    is_shared::<Body>();
    is_shared::<Joint>();
    is_shared::<JointKind>();
    is_shared::<Dof>();
    is_shared::<Geom>();
    is_shared::<GeomKind>();
    is_shared::<Tendon>();
    is_shared::<Term>();
    is_shared::<Motor>();
    is_shared::<Drive>();
    is_shared::<Equality>();
    is_shared::<Range>();
    is_shared::<Soft>();
    is_shared::<ModelCode>();
    is_shared::<ModelFault>();
    is_shared::<Path>();
}

#[test]
fn each_part_of_a_step_can_be_sent_and_shared() {
    is_shared::<State>();
    is_shared::<Frames>();
    is_shared::<Composite>();
    is_shared::<Mass>();
    is_shared::<Bias<Plain>>();
    is_shared::<Bias<Band>>();
    is_shared::<Factor>();
    is_shared::<Applied>();
    is_shared::<Contact>();
    is_shared::<Contacts>();
    is_shared::<Source>();
    is_shared::<Row>();
    is_shared::<Rows>();
    is_shared::<DualRow>();
    is_shared::<Dual>();
    is_shared::<Forces>();
    is_shared::<Stop>();
    is_shared::<Cert>();
    is_shared::<StepReport>();
    is_shared::<Quantity>();
    is_shared::<OutOfRange>();
    is_shared::<End>();
    is_shared::<Summary>();
}

#[test]
fn each_part_of_a_command_can_be_sent_and_shared() {
    is_shared::<Command>();
    is_shared::<Name>();
    is_shared::<Form>();
    is_shared::<Rule>();
    is_shared::<Tape>();
    is_shared::<TapeFault>();
    is_shared::<Status>();
    is_shared::<Ball>();
    is_shared::<Inverse>();
    is_shared::<Wants>();
    is_shared::<Verdict>();
    is_shared::<Reason>();
    is_shared::<NoMemory>();
    is_shared::<NoGate>();
    is_shared::<RawModel>();
    is_shared::<RawOption>();
    is_shared::<RawBody>();
    is_shared::<RawInertial>();
    is_shared::<RawJoint>();
    is_shared::<RawGeom>();
    is_shared::<RawTendon>();
    is_shared::<RawTerm>();
    is_shared::<RawMotor>();
    is_shared::<RawEquality>();
    is_shared::<RawKeyframe>();
    is_shared::<TextForm>();
    is_shared::<Whole>();
    is_shared::<NumberAt<32>>();
    is_shared::<Numbers<32, 1, 2>>();
    is_shared::<AllNumbers<32>>();
    is_shared::<Walker>();
    is_shared::<Refusal<ModelFault>>();
    is_shared::<Extent>();
    is_shared::<Solref>();
    is_shared::<Solimp>();
    is_shared::<BodyParts>();
    is_shared::<Layout>();
    is_shared::<Inertia>();
    is_shared::<Settings>();
}
