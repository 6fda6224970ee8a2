// Lists of numbers, each after a space.
ghost use Rattle.std.specs.Prelude.{◌≡◌, ◌≤◌, length};
ghost use Rattle.mj_types.specs.Duals.{wide_at};
ghost use Rattle.mj_trace.specs.Lines.{spaced, numbers_text};
ghost use Rattle.mj_reading.specs.Reading.{Read, Is, IsRaw, Anything, NoNumber};
ghost use Rattle.mj_check.specs.Lines as spec;

use fx_list::Array;
use fx_num::Wide;
use mj_reading::Scan;

/// Two numbers of a line.
#[derive(Clone, Copy)]
pub struct Pair {
    pub first: Wide<0>,
    pub second: Wide<0>,
}

// Reads a number after a space.
pub(crate) fn read_spaced(scan: &mut Scan<'_>) -> Wide<0>
    ensures { Read Is IsRaw (λ x. spaced x.raw) NoNumber scan.old result scan.new }
{
    scan.word(b" ");
    scan.number()
}

// Reads so many numbers into a list.
pub(crate) fn read_numbers(scan: &mut Scan<'_>, out: &mut Array<Wide<0>>, n: usize)
    requires { n ≤ length out.old }
    ensures len { length out.new ≡ length out.old }
    ensures read { Read (spec.Agree n) (spec.AreWide n) (numbers_text n) NoNumber scan.old
        (wide_at out.new) scan.new }
{
    for i in 0..n {
        out.put(i, read_spaced(scan));
    }
}

// Reads a line of a label and two numbers.
pub(crate) fn read_pair(scan: &mut Scan<'_>, label: &[u8]) -> Pair
    ensures { Read Is spec.IsPair (spec.pair_line label.now) Anything scan.old result scan.new }
{
    scan.word(label);
    let first = scan.number();
    scan.word(b" ");
    let second = scan.number();
    scan.word(b"\n");
    Pair { first, second }
}
