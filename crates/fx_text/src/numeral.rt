// The grammar of decimal numerals, byte by byte.
ghost use Rattle.std.specs.Prelude.{◌≡◌, cond, Some, None};
ghost use Rattle.fx_text.specs.Numeral as grammar;
ghost use Rattle.fx_text.specs.Decimal as spec;

/// What a byte is in a numeral. A digit has its value; the mark is the `e` of an exponent.
#[derive(Clone, Copy)]
pub enum Kind {
    Digit(u8),
    Sign,
    Point,
    Mark,
    Other,
}

/// How far a numeral has been read: before its sign, behind its sign, in its whole digits, behind a
/// point with no digit before it, behind a point or in the digits after it, behind the exponent's mark,
/// behind the exponent's sign, or behind its first or second digit.
#[derive(Clone, Copy)]
pub enum Place {
    Start,
    Signed,
    Whole,
    BarePoint,
    Fraction,
    Marked,
    MarkSigned,
    OneDigit,
    TwoDigits,
}

/// What `byte` is in a numeral.
pub fn kind_of(byte: u8) -> Kind
    ensures { result ≡ grammar.kind_of byte }
{
    match byte {
        b'0'..=b'9' => Kind::Digit(byte - b'0'),
        b'+' | b'-' => Kind::Sign,
        b'.' => Kind::Point,
        b'E' | b'e' => Kind::Mark,
        _ => Kind::Other,
    }
}

/// The place behind a byte of this kind, where such a byte may follow.
pub fn next(place: Place, kind: Kind) -> Option<Place>
    ensures { result ≡ grammar.next place kind }
{
    match (place, kind) {
        (Place::Start, Kind::Sign) => Some(Place::Signed),
        (Place::Start | Place::Signed | Place::Whole, Kind::Digit(_)) => Some(Place::Whole),
        (Place::Start | Place::Signed, Kind::Point) => Some(Place::BarePoint),
        (Place::Whole, Kind::Point) => Some(Place::Fraction),
        (Place::BarePoint | Place::Fraction, Kind::Digit(_)) => Some(Place::Fraction),
        (Place::Whole | Place::Fraction, Kind::Mark) => Some(Place::Marked),
        (Place::Marked, Kind::Sign) => Some(Place::MarkSigned),
        (Place::Marked | Place::MarkSigned, Kind::Digit(_)) => Some(Place::OneDigit),
        (Place::OneDigit, Kind::Digit(_)) => Some(Place::TwoDigits),
        _ => None,
    }
}

/// Whether a numeral may end at this place.
pub fn may_end(place: Place) -> bool
    ensures { result ≡ grammar.may_end place }
{
    match place {
        Place::Whole | Place::Fraction | Place::OneDigit | Place::TwoDigits => true,
        _ => false,
    }
}

/// Where a text stops being a numeral: the length of its longest prefix that begins one. `None` where
/// it is a numeral.
pub fn bad_byte(text: &[u8]) -> Option<usize>
    ensures { result ≡ cond (grammar.is_numeral text.now) None
        (Some (grammar.prefix_length text.now)) }
{
    let mut place = Place::Start;
    for (at, byte) in text.iter().enumerate() {
        match next(place, kind_of(*byte)) {
            Some(behind) => place = behind,
            None => return Some(at),
        }
    }
    if may_end(place) {
        None
    } else {
        Some(text.len())
    }
}
