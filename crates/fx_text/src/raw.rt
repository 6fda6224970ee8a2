// Numbers are read as they are printed.
ghost use Rattle.std.specs.Prelude.{◌≡◌, ◌+◌, ◌-◌, ◌*◌, ◌^◌, ◌<◌, ◌≤◌, min, ◌↔◌, ◌≢◌, ◌∷◌, pos, negsuc, Some, None, IsTrue, length, get_or};
ghost use Rattle.fx_text.specs.Raw as spec;

/// The greatest size of a number without a sign, and of one with it.
const MOST: u128 = (1 << 127) - 1;

// Whether the byte is a digit.
fn is_digit(byte: u8) -> bool
    ensures { IsTrue result ↔ (48 ≤ byte) × (byte ≤ 57) }
{
    byte.is_ascii_digit()
}

// Whether a number may begin so: with a byte, and with a zero only where that is all of it.
fn may_begin(digits: &[u8]) -> bool
    ensures some { IsTrue result → 0 < length digits.now }
    ensures lead { IsTrue result → get_or digits.now 0 0 ≡ 48 → length digits.now ≡ 1 }
    ensures only { 0 < length digits.now → (get_or digits.now 0 0 ≡ 48 → length digits.now ≡ 1)
        → IsTrue result }
{
    !digits.is_empty() && (digits[0] != b'0' || digits.len() == 1)
}

// The number with one digit more, or the greatest of 128 bits.
fn with_digit(n: u128, byte: u8) -> u128
    requires { 48 ≤ byte }
    ensures { result ≡ min (min (10 * n) (2 ^ 128 - 1) + (byte - 48)) (2 ^ 128 - 1) }
{
    n.saturating_mul(10).saturating_add(u128::from(byte - b'0'))
}

/// The number up to `most` of which the text is the decimal text, with no zero before it.
pub fn read_natural(text: &[u8], most: u128) -> Option<u128>
    requires { most < 2 ^ 128 - 1 }
    ensures { spec.IsNaturalRead most text.now result }
{
    if !may_begin(text) {
        return None;
    }
    let mut n = 0;
    for byte in text {
        if !is_digit(*byte) {
            return None;
        }
        n = with_digit(n, *byte);
    }
    if n <= most { Some(n) } else { None }
}

// `-n`.
fn negative(n: u128) -> i128
    requires some { 0 < n }
    requires size { n ≤ 2 ^ 127 }
    ensures { result ≡ negsuc (n - 1) }
{
    -((n - 1) as i128) - 1
}

// `-n`, where that is below zero.
fn below_zero(n: u128) -> Option<i128>
    requires { n ≤ 2 ^ 127 }
    ensures zero { n ≡ 0 → result ≡ None }
    ensures some { 0 < n → result ≡ Some (negsuc (n - 1)) }
{
    if n == 0 { None } else { Some(negative(n)) }
}

// Of digits behind a minus, which stand for no zero.
fn read_below_zero(digits: &[u8]) -> Option<i128>
    ensures { spec.IsRead (45 ∷ digits.now) result }
{
    match read_natural(digits, MOST + 1) {
        Some(n) => below_zero(n),
        None => None,
    }
}

// Of a text with no minus.
fn read_from_zero(text: &[u8]) -> Option<i128>
    requires { get_or text.now 0 0 ≢ 45 }
    ensures { spec.IsRead text.now result }
{
    match read_natural(text, MOST) {
        Some(n) => Some(n as i128),
        None => None,
    }
}

/// The number that a text was printed from by `print_raw`; nothing where it is no number's text.
pub fn read_raw(text: &[u8]) -> Option<i128>
    ensures { spec.IsRead text.now result }
{
    match text.split_first() {
        Some((45, digits)) => read_below_zero(digits),
        _ => read_from_zero(text),
    }
}
