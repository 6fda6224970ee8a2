// The controls of a run, step by step.
ghost use Rattle.std.specs.Prelude.{◌≡◌};
ghost use Rattle.mj_types.specs.Control.{FillsRows, AreSmall};

use fx_list::Array;
use fx_num::Fix;

/// Why a tape is refused. Records and columns count from 1: the tape has more bytes or values than are
/// taken; a record hasn't one field for each motor; a field is no control (its record and its column);
/// there are fewer records than steps (how many there are); memory was wanted and not found.
#[derive(Clone, Copy, Debug, PartialEq, Eq)]
pub enum TapeFault {
    TooLarge,
    Width(usize),
    BadNumber(usize, usize),
    Short(usize),
    Memory,
}

/// The controls of a run, row after row: row k holds the controls of step k + 1, one for each motor,
/// and each is at most 2^20 in size.
#[derive(Debug, Drop)]
pub struct Tape {
    pub rows: usize,
    pub width: usize,
    pub values: Array<Fix<32>>,
    ghost filled: { FillsRows rows width values },
    ghost small: { AreSmall values },
}
