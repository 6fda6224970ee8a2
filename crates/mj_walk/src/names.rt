// What a name stands for.
ghost use Rattle.std.specs.Prelude.{◌≡◌, List, bytes_eq};
ghost use Rattle.std.specs.List.{list_any, position};
ghost use Rattle.mj_judge.specs.Names.{is_named, optional_name};
ghost use Rattle.mj_walk.specs.Names as spec;

use fx_list::Text;
use mj_judge::{is_named, joint_type, name, same_text, unless};
use mj_read::{RawBody, RawEquality, RawGeom, RawJoint, RawMotor, RawTendon, RawTerm};
use mj_types::{Drive, JointKind, ModelCode};

fn has_body(text: &Text, bodies: &[RawBody]) -> bool
    ensures { result ≡ spec.has_body text.now bodies.now }
{
    bodies.iter().any(|b| same_text(&b.name, text.as_slice()))
}

fn has_joint(text: &Text, joints: &[RawJoint]) -> bool
    ensures { result ≡ spec.has_joint text.now joints.now }
{
    joints.iter().any(|j| is_named(&j.name, text))
}

fn has_geom(text: &Text, geoms: &[RawGeom]) -> bool
    ensures { result ≡ spec.has_geom text.now geoms.now }
{
    geoms.iter().any(|g| is_named(&g.name, text))
}

fn has_tendon(text: &Text, tendons: &[RawTendon]) -> bool
    ensures { result ≡ spec.has_tendon text.now tendons.now }
{
    tendons.iter().any(|t| is_named(&t.name, text))
}

fn has_motor(text: &Text, motors: &[RawMotor]) -> bool
    ensures { result ≡ spec.has_motor text.now motors.now }
{
    motors.iter().any(|m| is_named(&m.name, text))
}

fn has_equality(text: &Text, equalities: &[RawEquality]) -> bool
    ensures { result ≡ spec.has_equality text.now equalities.now }
{
    equalities.iter().any(|e| is_named(&e.name, text))
}

fn has_term(text: &Text, terms: &[RawTerm]) -> bool
    ensures { result ≡ spec.has_term text.now terms.now }
{
    terms.iter().any(|t| same_text(&t.joint, text.as_slice()))
}

fn body_has_joint(bodies: &[RawBody], text: &Text) -> bool
    ensures { result ≡ list_any (λ b. spec.has_joint text.now b.joint) bodies.now }
{
    bodies.iter().any(|b| has_joint(text, b.joint.as_slice()))
}

fn body_has_geom(bodies: &[RawBody], text: &Text) -> bool
    ensures { result ≡ list_any (λ b. spec.has_geom text.now b.geom) bodies.now }
{
    bodies.iter().any(|b| has_geom(text, b.geom.as_slice()))
}

fn met_joint(before: &[RawBody], earlier: &[RawJoint], text: &Text) -> bool
    ensures { result ≡ spec.met_joint before.now earlier.now text.now }
{
    body_has_joint(before, text) || has_joint(text, earlier)
}

fn met_geom(before: &[RawBody], earlier: &[RawGeom], text: &Text) -> bool
    ensures { result ≡ spec.met_geom before.now earlier.now text.now }
{
    body_has_geom(before, text) || has_geom(text, earlier)
}

/// Judges a joint's name behind the joints that were met.
pub(crate) fn joint_name(
    before: &[RawBody],
    earlier: &[RawJoint],
    own: &Option<Text>,
) -> Result<(), ModelCode>
    ensures { result ≡ optional_name (spec.met_joint before.now earlier.now) own.now }
{
    match own {
        None => Ok(()),
        Some(text) => name(text, met_joint(before, earlier, text)),
    }
}

/// Judges a geom's name behind the geoms that were met.
pub(crate) fn geom_name(
    before: &[RawBody],
    earlier: &[RawGeom],
    own: &Option<Text>,
) -> Result<(), ModelCode>
    ensures { result ≡ optional_name (spec.met_geom before.now earlier.now) own.now }
{
    match own {
        None => Ok(()),
        Some(text) => name(text, met_geom(before, earlier, text)),
    }
}

/// Judges a tendon's name behind the tendons before.
pub(crate) fn tendon_name(earlier: &[RawTendon], own: &Option<Text>) -> Result<(), ModelCode>
    ensures { result ≡ optional_name (λ text. spec.has_tendon text earlier.now) own.now }
{
    match own {
        None => Ok(()),
        Some(text) => name(text, has_tendon(text, earlier)),
    }
}

/// Judges a motor's name behind the motors before.
pub(crate) fn motor_name(earlier: &[RawMotor], own: &Option<Text>) -> Result<(), ModelCode>
    ensures { result ≡ optional_name (λ text. spec.has_motor text earlier.now) own.now }
{
    match own {
        None => Ok(()),
        Some(text) => name(text, has_motor(text, earlier)),
    }
}

/// Judges an equality's name behind the equalities before.
pub(crate) fn equality_name(earlier: &[RawEquality], own: &Option<Text>) -> Result<(), ModelCode>
    ensures { result ≡ optional_name (λ text. spec.has_equality text earlier.now) own.now }
{
    match own {
        None => Ok(()),
        Some(text) => name(text, has_equality(text, earlier)),
    }
}

/// Judges a body's name: it is new, and isn't the world's.
#[tactic(auto, unfolding(crate::specs::Names::body_name))]
pub(crate) fn body_name(before: &[RawBody], text: &Text) -> Result<(), ModelCode>
    ensures { result ≡ spec.body_name before.now text.now }
{
    let met = same_text(text, b"world") || has_body(text, before);
    name(text, met)
}

fn body_place(bodies: &[RawBody], text: &Text) -> Option<usize>
    ensures { result ≡ position (λ b. bytes_eq b.name text.now) bodies.now }
{
    bodies
        .iter()
        .position(|b| same_text(&b.name, text.as_slice()))
}

/// The number of a body's parent: 0 for the world, else that of a body before. `ParentLater` where this
/// body or a later one has the name, else `UnknownName`.
#[tactic(auto, unfolding(crate::specs::Names::parent_number))]
pub(crate) fn parent_number(
    before: &[RawBody],
    rest: &[RawBody],
    text: &Text,
) -> Result<usize, ModelCode>
    ensures { result ≡ spec.parent_number before.now rest.now text.now }
{
    if same_text(text, b"world") {
        return Ok(0);
    }
    match body_place(before, text) {
        Some(place) => Ok(place + 1),
        None => if has_body(text, rest) {
            Err(ModelCode::ParentLater)
        } else {
            Err(ModelCode::UnknownName)
        },
    }
}

fn is_scalar_type(kind: Option<JointKind>) -> bool
    ensures { result ≡ spec.is_scalar_type kind }
{
    match kind {
        Some(JointKind::Hinge) => true,
        Some(JointKind::Slide) => true,
        _ => false,
    }
}

fn is_scalar_named(text: &Text, j: &RawJoint) -> bool
    ensures { result ≡ spec.is_scalar_named text.now j.now }
{
    is_named(&j.name, text) && is_scalar_type(joint_type(&j.kind))
}

fn scalar_place(joints: &[RawJoint], text: &Text) -> Option<usize>
    ensures { result ≡ position (spec.is_scalar_named text.now) joints.now }
{
    joints.iter().position(|j| is_scalar_named(text, j))
}

/// The number of the hinge or slide with a name, else `UnknownName`.
#[tactic(auto, unfolding(crate::specs::Names::scalar_number))]
pub(crate) fn scalar_number(joints: &[RawJoint], text: &Text) -> Result<usize, ModelCode>
    ensures { result ≡ spec.scalar_number joints.now text.now }
{
    match scalar_place(joints, text) {
        Some(place) => Ok(place + 1),
        None => Err(ModelCode::UnknownName),
    }
}

fn tendon_place(tendons: &[RawTendon], text: &Text) -> Option<usize>
    ensures { result ≡ position (λ t. is_named text.now t.name) tendons.now }
{
    tendons.iter().position(|t| is_named(&t.name, text))
}

/// The number of the tendon with a name, else `UnknownName`.
#[tactic(auto, unfolding(crate::specs::Names::tendon_number))]
fn tendon_number(tendons: &[RawTendon], text: &Text) -> Result<usize, ModelCode>
    ensures { result ≡ spec.tendon_number tendons.now text.now }
{
    match tendon_place(tendons, text) {
        Some(place) => Ok(place + 1),
        None => Err(ModelCode::UnknownName),
    }
}

/// The number of a tendon's joint: `DuplicateName` where it names it before, else `UnknownName` where it
/// is no hinge or slide.
#[tactic(auto, unfolding(crate::specs::Names::term_number))]
pub(crate) fn term_number(
    joints: &[RawJoint],
    earlier: &[RawTerm],
    text: &Text,
) -> Result<usize, ModelCode>
    ensures { result ≡ spec.term_number joints.now earlier.now text.now }
{
    unless(!has_term(text, earlier), ModelCode::DuplicateName)?;
    scalar_number(joints, text)
}

/// The number of a motor's joint, where it names one.
#[tactic(auto, unfolding(crate::specs::Names::optional_scalar))]
pub(crate) fn optional_scalar(
    joints: &[RawJoint],
    text: &Option<Text>,
) -> Result<Option<usize>, ModelCode>
    ensures { result ≡ spec.optional_scalar joints.now text.now }
{
    match text {
        None => Ok(None),
        Some(text) => {
            let number = scalar_number(joints, text)?;
            Ok(Some(number))
        }
    }
}

/// What a motor drives: the joint that it names, or else its tendon. `BadRange` where it names both.
#[tactic(auto, unfolding(crate::specs::Names::drive_of))]
pub(crate) fn drive_of(
    tendons: &[RawTendon],
    joint: Option<usize>,
    text: &Option<Text>,
) -> Result<Drive, ModelCode>
    ensures { result ≡ spec.drive_of tendons.now joint text.now }
{
    match text {
        None => match joint {
            None => Err(ModelCode::MissingKey),
            Some(number) => Ok(Drive::Joint(number)),
        },
        Some(text) => {
            let number = tendon_number(tendons, text)?;
            match joint {
                None => Ok(Drive::Tendon(number)),
                Some(_) => Err(ModelCode::BadRange),
            }
        }
    }
}

/// The number of an equality's second joint, where it names one. `BadRange` where it is the first again.
#[tactic(auto, unfolding(crate::specs::Names::second_number))]
pub(crate) fn second_number(
    joints: &[RawJoint],
    first: usize,
    text: &Option<Text>,
) -> Result<Option<usize>, ModelCode>
    ensures { result ≡ spec.second_number joints.now first text.now }
{
    match text {
        None => Ok(None),
        Some(text) => {
            let number = scalar_number(joints, text)?;
            if number == first {
                Err(ModelCode::BadRange)
            } else {
                Ok(Some(number))
            }
        }
    }
}
