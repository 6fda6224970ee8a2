// What a row line says that its row stands for, and the kind that an end line names.
ghost use Rattle.std.specs.Prelude.{◌≡◌, ℕ, IsTrue};
ghost use Rattle.std.specs.Str.{bytes_eq};
ghost use Rattle.mj_types.specs.Ranges.{quantity_name};
ghost use Rattle.mj_reading.specs.Reading.{Read, Is, IsToken, NoLetter, NoNumber};
ghost use Rattle.mj_check.specs.Sources as spec;

use mj_reading::Scan;
use mj_types::Quantity;

/// A kind of row, as its line names it.
#[derive(Clone, Copy, PartialEq, Eq)]
pub enum SourceName {
    Low,
    High,
    TendonLow,
    TendonHigh,
    Contact,
    Equality,
    Friction,
}

/// What a row stands for, as its line tells it: of which joint, tendon, contact or equality, and a
/// contact's edge.
#[derive(Clone, Copy)]
pub struct SourceTold {
    pub name: SourceName,
    pub number: u128,
    pub edge: Option<usize>,
}

// Whether two texts are the same.
fn is_same_text(a: &[u8], b: &[u8]) -> bool
    ensures { result ≡ bytes_eq a.now b.now }
{
    a == b
}

// The kind of row that a text names.
fn source_named(text: &[u8]) -> Option<SourceName>
    ensures { result ≡ spec.source_named text.now }
{
    if is_same_text(text, b"low") {
        Some(SourceName::Low)
    } else if is_same_text(text, b"high") {
        Some(SourceName::High)
    } else if is_same_text(text, b"tlow") {
        Some(SourceName::TendonLow)
    } else if is_same_text(text, b"thigh") {
        Some(SourceName::TendonHigh)
    } else if is_same_text(text, b"contact") {
        Some(SourceName::Contact)
    } else if is_same_text(text, b"equality") {
        Some(SourceName::Equality)
    } else if is_same_text(text, b"friction") {
        Some(SourceName::Friction)
    } else {
        None
    }
}

// Whether there are rows of this kind, in a format whose rows tell their bounds or don't.
fn is_name_of(bounds: bool, name: SourceName) -> bool
    ensures yes { IsTrue result → spec.IsNameOf bounds name }
    ensures only { spec.IsNameOf bounds name → IsTrue result }
{
    match name {
        SourceName::Equality => bounds,
        SourceName::Friction => bounds,
        _ => true,
    }
}

// The kind, where there are rows of it.
fn name_within(bounds: bool, name: SourceName) -> Option<SourceName>
    ensures yes { spec.IsNameOf bounds name → result ≡ Some name }
    ensures no { (spec.IsNameOf bounds name → ⊥) → result ≡ None }
{
    if is_name_of(bounds, name) {
        Some(name)
    } else {
        None
    }
}

// The kind of row that a text names in this format.
fn name_of(bounds: bool, text: &[u8]) -> Option<SourceName>
    ensures { IsToken (spec.IsNameOf bounds) spec.name_text text.now result }
{
    match source_named(text) {
        Some(name) => name_within(bounds, name),
        None => None,
    }
}

// Reads the name of a kind of row.
fn read_name(scan: &mut Scan<'_>, bounds: bool) -> SourceName
    ensures { Read Is (spec.IsNameOf bounds) spec.name_text NoLetter scan.old result scan.new }
{
    match name_of(bounds, scan.letters()) {
        Some(name) => {
            scan.pass_letters();
            name
        }
        None => {
            scan.stop();
            SourceName::Low
        }
    }
}

// Reads the edge of a contact.
fn read_edge(scan: &mut Scan<'_>, name: SourceName) -> Option<usize>
    ensures { Read Is (spec.IsEdge name) spec.edge_text NoNumber scan.old result scan.new }
{
    match name {
        SourceName::Contact => Some(scan.labelled(b" ", 0, 4)),
        _ => None,
    }
}

// Reads what a row stands for.
pub(crate) fn read_source(scan: &mut Scan<'_>, bounds: bool) -> SourceTold
    ensures { Read Is (spec.IsSource bounds) spec.source_line NoNumber
        scan.old result scan.new }
{
    let name = read_name(scan, bounds);
    scan.word(b" ");
    let number = scan.number_from_one();
    let edge = read_edge(scan, name);
    SourceTold { name, number, edge }
}

// The kinds of number that an end line may name.
fn kinds() -> [Quantity; 34]
    ensures { result ≡ spec.all_kinds }
{
    [
        Quantity::QuatNorm,
        Quantity::FramePos,
        Quantity::Arm,
        Quantity::GeomNorm,
        Quantity::Inertia,
        Quantity::Column,
        Quantity::Momentum,
        Quantity::Mass,
        Quantity::DofMotion,
        Quantity::BodyMotion,
        Quantity::Wrench,
        Quantity::Bias,
        Quantity::TendonLength,
        Quantity::TendonForce,
        Quantity::Applied,
        Quantity::Pivot,
        Quantity::Lower,
        Quantity::Accel,
        Quantity::Rows,
        Quantity::Jacobian,
        Quantity::Violation,
        Quantity::Reduced,
        Quantity::Regularizer,
        Quantity::Reference,
        Quantity::DualVector,
        Quantity::Force,
        Quantity::Reach,
        Quantity::Cost,
        Quantity::Shortfall,
        Quantity::Box,
        Quantity::Load,
        Quantity::Velocity,
        Quantity::Position,
        Quantity::ErrorBound,
    ]
}

// Whether a text names a kind.
fn is_named(text: &[u8], kind: Quantity) -> bool
    ensures { result ≡ bytes_eq text.now (quantity_name kind) }
{
    is_same_text(text, kind.name().as_bytes())
}

// The kind that a text names.
fn kind_named(text: &[u8]) -> Option<Quantity>
    ensures { result ≡ spec.kind_named text.now }
{
    for kind in kinds() {
        if is_named(text, kind) {
            return Some(kind);
        }
    }
    None
}

// Reads the name of a kind.
pub(crate) fn read_kind(scan: &mut Scan<'_>) -> Quantity
    ensures { Read Is spec.IsKind quantity_name NoLetter scan.old result scan.new }
{
    match kind_named(scan.letters()) {
        Some(kind) => {
            scan.pass_letters();
            kind
        }
        None => {
            scan.stop();
            Quantity::QuatNorm
        }
    }
}
