// Names.
ghost use Rattle.std.specs.Prelude.{◌≡◌, ℕ, bytes_eq};
ghost use Rattle.mj_judge.specs.Names as spec;

use crate::numbers::unless;
use fx_list::Text;
use mj_types::ModelCode;

/// Whether two texts have the same bytes.
pub fn same_text(a: &Text, b: &[u8]) -> bool
    ensures { result ≡ bytes_eq a.now b.now }
{
    a.as_slice() == b
}

/// Whether an object's name is this one.
pub fn is_named(own: &Option<Text>, name: &Text) -> bool
    ensures { result ≡ spec.is_named name.now own.now }
{
    match own {
        None => false,
        Some(text) => same_text(text, name.as_slice()),
    }
}

/// Whether a name has 1 to 64 bytes.
fn is_name(text: &Text) -> bool
    ensures { result ≡ spec.is_name text.now }
{
    1 <= text.len() && text.len() <= 64
}

/// Judges a name: `LimitPassed` unless it has 1 to 64 bytes, then `DuplicateName` if it was met before.
#[tactic(auto, unfolding(crate::specs::Names::name))]
pub fn name(text: &Text, met: bool) -> Result<(), ModelCode>
    ensures { result ≡ spec.name met text.now }
{
    if !is_name(text) {
        return Err(ModelCode::LimitPassed);
    }
    unless(!met, ModelCode::DuplicateName)
}
