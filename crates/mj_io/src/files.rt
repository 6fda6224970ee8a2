// Files in memory by name.
ghost use Rattle.std.specs.Prelude.{◌≡◌, ◌≤◌, take, IfOk, vec_len, option_copied};
ghost use Rattle.mj_io.specs.Shelf as spec;

use crate::NoMemory;
use std::alloc::Global;

// The bytes of the first file of a name.
pub(crate) fn find<'a>(files: &'a [(String, Vec<u8>)], name: &str) -> Option<&'a [u8]>
    ensures { option_copied result ≡ spec.first_named name.now (spec.texts_of files.now) }
{
    for file in files {
        if file.0.as_str() == name {
            return Some(file.1.as_slice());
        }
    }
    None
}

// A copy of the first `cap` bytes.
pub(crate) fn prefix_of(alloc: Global, bytes: &[u8], cap: usize) -> Result<Vec<u8>, NoMemory>
    ensures gives { IfOk result (λ v. v.items ≡ take cap bytes.now) }
    ensures within { IfOk result (λ v. vec_len v ≤ cap) }
{
    let count = bytes.len().min(cap);
    match Vec::from_slice(alloc, &bytes[..count]) {
        Ok(copy) => Ok(copy),
        Err(_) => Err(NoMemory),
    }
}
