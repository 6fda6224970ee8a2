// Numbers as words write them.
ghost use Rattle.std.specs.Prelude.{◌≡◌, ◌+◌, ◌≤◌, min, IfSome};
ghost use Rattle.std.specs.List.{list_all};
ghost use Rattle.mj_words.specs.Numbers as spec;

fn is_digit(byte: u8) -> bool
    ensures { result ≡ spec.is_digit byte }
{
    48 <= byte && byte <= 57
}

fn all_digits(text: &[u8]) -> bool
    ensures { result ≡ list_all spec.is_digit text.now }
{
    text.iter().all(|byte| is_digit(*byte))
}

// Whether the digit may lead the rest.
fn leads(first: u8, rest: &[u8]) -> bool
    ensures { result ≡ spec.leads first rest.now }
{
    rest.is_empty() || first != 48
}

fn is_number(text: &[u8]) -> bool
    ensures { result ≡ spec.is_number text.now }
{
    match text.split_first() {
        None => false,
        Some((first, rest)) => all_digits(text) && leads(*first, rest),
    }
}

// The number that digits write, or any number above `most` where it is larger.
fn capped_value(digits: &[u8], most: u32) -> u64
    ensures { result ≡ min (spec.digits_value digits.now) (most + 1) }
{
    let cap = u64::from(most) + 1;
    let mut n = 0;
    for digit in digits {
        n = (10 * n + u64::from(digit.saturating_sub(48))).min(cap);
    }
    n
}

fn number_up_to(text: &[u8], most: u32) -> Option<u32>
    ensures value { result ≡ spec.number_up_to most text.now }
    ensures most { IfSome result (λ n. n ≤ most) }
{
    if !is_number(text) {
        return None;
    }
    let n = capped_value(text, most);
    if n <= u64::from(most) {
        Some(n as u32)
    } else {
        None
    }
}

// The number from `least` to `most` that a word writes.
pub(crate) fn number_within(text: &[u8], least: u32, most: u32) -> Option<u32>
    ensures value { result ≡ spec.number_within least most text.now }
    ensures most { IfSome result (λ n. n ≤ most) }
{
    match number_up_to(text, most) {
        Some(n) => { if least <= n { Some(n) } else { None } }
        None => None,
    }
}
