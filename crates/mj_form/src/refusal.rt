// Why reading stops, and at which path.
ghost use Rattle.std.specs.Prelude.{◌≡◌, ◌++◌, Result, IfOk, codes};
ghost use Rattle.mj_types.specs.declared.status.ModelCode.{ModelCode};
ghost use Rattle.mj_form.specs.Reading as spec;
ghost use Rattle.mj_form.specs.Reading.{Read, Reads};

use fx_list::Text;
use itoa::Buffer;
use mj_types::{ModelCode, ModelFault};
use std::alloc::{AllocError, AllocFailed, Global};

/// Why nothing is read: memory was wanted and not found, or a fault was found.
#[derive(Debug, Drop)]
pub enum Refusal<E> {
    Memory,
    Found(E),
}

impl<E> From<AllocError> for Refusal<E> {
    ghost use Rattle.mj_form.specs.declared.refusal.Refusal.TheVariants.{Memory};

    ghost from_gives = { λ _ refusal. refusal ≡ Memory };

    fn from(_: AllocError) -> Refusal<E> {
        Refusal::Memory
    }
}

impl<T: Drop, E> From<AllocFailed<T>> for Refusal<E> {
    ghost use Rattle.mj_form.specs.declared.refusal.Refusal.TheVariants.{Memory};

    ghost from_gives = { λ _ refusal. refusal ≡ Memory };

    fn from(_: AllocFailed<T>) -> Refusal<E> {
        Refusal::Memory
    }
}

/// The refusal with this code at a path.
pub fn refuse<A>(alloc: Global, code: ModelCode, path: &[u8]) -> Result<A, Refusal<ModelFault>>
    ensures { Reads result (spec.refused code path.now) }
{
    let path = Text::from_slice(alloc, path)?;
    Err(Refusal::Found(ModelFault { code, path }))
}

/// What is read at a key: a fault gets the key as its path.
pub(crate) fn at_key<A>(
    alloc: Global,
    key: &str,
    read: Result<A, Refusal<ModelCode>>,
) -> Result<A, Refusal<ModelFault>>
    ensures { (found : Result A ModelCode) → Reads read found
        → Reads result (spec.at_key key.now found) }
{
    match read {
        Ok(x) => Ok(x),
        Err(refusal) => match refusal {
            Refusal::Memory => Err(Refusal::Memory),
            Refusal::Found(code) => refuse(alloc, code, key.as_bytes()),
        },
    }
}

/// The place of an item of an array, from 1, as `body[2]`.
pub(crate) fn place(alloc: Global, key: &str, n: usize) -> Result<Vec<u8>, AllocError>
    ensures { IfOk result (λ v. v.items ≡ spec.place key.now n) }
{
    let mut buffer = Buffer::new();
    let mut bytes = Vec::from_slice(alloc, key.as_bytes())?;
    bytes.extend_from_slice(b"[")?;
    bytes.extend_from_slice(buffer.format(n).as_bytes())?;
    bytes.extend_from_slice(b"]")?;
    Ok(bytes)
}

/// The fault with a place and a dot put before its path.
fn move_under(place: Vec<u8>, fault: ModelFault) -> Result<ModelFault, AllocError>
    ensures { IfOk result (λ moved. moved ≡ record {
      code = fault.code;
      path = place.items ++ codes "." ++ fault.path;
    }) }
{
    let mut path = place;
    path.extend_from_slice(b".")?;
    path.extend_from_slice(fault.path.as_slice())?;
    Ok(ModelFault {
        code: fault.code,
        path: Text::from_vec(path),
    })
}

/// What is read of the table at a key: a fault's path begins with the key and a dot.
pub fn under_key<A>(
    alloc: Global,
    key: &str,
    read: Result<A, Refusal<ModelFault>>,
) -> Result<A, Refusal<ModelFault>>
    ensures { (reading : Read A) → Reads read reading
        → Reads result (spec.under (key.now ++ codes ".") reading) }
{
    match read {
        Ok(x) => Ok(x),
        Err(refusal) => match refusal {
            Refusal::Memory => Err(Refusal::Memory),
            Refusal::Found(fault) => {
                let place = Vec::from_slice(alloc, key.as_bytes())?;
                Err(Refusal::Found(move_under(place, fault)?))
            }
        },
    }
}

/// What is read of an item of an array of tables: a fault's path begins with its place and a dot.
pub fn under_item<A>(
    alloc: Global,
    key: &str,
    n: usize,
    read: Result<A, Refusal<ModelFault>>,
) -> Result<A, Refusal<ModelFault>>
    ensures { (reading : Read A) → Reads read reading
        → Reads result (spec.under (spec.place key.now n ++ codes ".") reading) }
{
    match read {
        Ok(x) => Ok(x),
        Err(refusal) => match refusal {
            Refusal::Memory => Err(Refusal::Memory),
            Refusal::Found(fault) => {
                let place = place(alloc, key, n)?;
                Err(Refusal::Found(move_under(place, fault)?))
            }
        },
    }
}
