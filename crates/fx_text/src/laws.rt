// What the grammar means, as laws that callers can cite.
ghost use Rattle.fx_text.specs.Prefixes.{RefusedBytesStop};
ghost use Rattle.fx_text.specs.Parts.{NumeralsAreRead, NumeralsHaveParts};

/// Where a text is refused at a byte, the bytes before it are its longest prefix that begins a numeral.
pub fn refused_bytes_stop()
    ensures { RefusedBytesStop }
{}

/// A numeral is read as its parts say: as the number of its digits, its point, its exponent and its
/// sign. So what has parts is never refused at a byte.
pub fn numerals_are_read()
    ensures { NumeralsAreRead }
{}

/// Every text that is a numeral has parts.
pub fn numerals_have_parts()
    ensures { NumeralsHaveParts }
{}
