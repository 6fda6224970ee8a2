// Reading a text from its beginning on.
ghost use Rattle.std.specs.Prelude.{◌≡◌, ◌≢◌, ◌≤◌, ◌<◌, ◌^◌, ◌-◌, ◌++◌, ◌∷◌, [], ℕ, List, length, take, drop, decimal, true, false, IsTrue, Some, None};
ghost use Rattle.std.specs.Fmt.{signed_decimal};
ghost use Rattle.fx_text.specs.Raw.{IsWide};
ghost use Rattle.mj_reading.specs.Reading as spec;
ghost use Rattle.mj_reading.specs.Reading.{Ahead, Read, Is, Any, IsBetween, Anything, NoNumber};

use fx_num::Wide;
use fx_text::{read_natural, read_raw};
use std::marker::Model;

/// The greatest number that is printed without a sign.
const MOST: u128 = (1 << 127) - 1;

/// What is still to be read of a text, and whether all so far was in form. In contracts it is an
/// `Ahead`.
#[derive(Drop)]
pub struct Scan<'a> {
    rest: &'a [u8],
    going: bool,
}

impl<'a> Model for Scan<'a> {
    ghost use Rattle.mj_reading.specs.Reading.{Ahead};

    ghost Value = { Ahead };

    ghost view = { λ s. record { rest = s.rest.now; going = s.going } };
}

// Whether a text has no byte.
fn is_empty(text: &[u8]) -> bool
    ensures yes { IsTrue result → text.now ≡ [] }
    ensures only { text.now ≡ [] → IsTrue result }
{
    text.is_empty()
}

// Whether a byte may stand in a number.
fn is_number_byte(byte: u8) -> bool
    ensures { result ≡ spec.is_number_byte byte }
{
    48 <= byte && byte <= 57 || byte == 45
}

// Whether a text begins with another.
fn begins(text: &[u8], word: &[u8]) -> bool
    ensures yes { IsTrue result → text.now ≡ word.now ++ drop (length word.now) text.now }
    ensures within { IsTrue result → length word.now ≤ length text.now }
    ensures only { (behind : List ℕ) → text.now ≡ word.now ++ behind → IsTrue result }
{
    text.starts_with(word)
}

// Whether a byte is a letter.
fn is_letter(byte: u8) -> bool
    ensures { result ≡ spec.is_letter byte }
{
    97 <= byte && byte <= 122 || 65 <= byte && byte <= 90
}

// How many bytes of a number a text begins with.
fn span(text: &[u8]) -> usize
    ensures value { result ≡ spec.span spec.is_number_byte text.now }
    ensures within { result ≤ length text.now }
{
    for (at, byte) in text.iter().enumerate() {
        if !is_number_byte(*byte) {
            return at;
        }
    }
    text.len()
}

// How many letters a text begins with.
fn letter_span(text: &[u8]) -> usize
    ensures value { result ≡ spec.span spec.is_letter text.now }
    ensures within { result ≤ length text.now }
{
    for (at, byte) in text.iter().enumerate() {
        if !is_letter(*byte) {
            return at;
        }
    }
    text.len()
}

// The number, unless it is below `least`.
fn at_least(least: usize, n: usize) -> Option<usize>
    ensures more { least ≤ n → result ≡ Some n }
    ensures less { n < least → result ≡ None }
{
    if least <= n { Some(n) } else { None }
}

// The number, unless it is 0.
fn from_one(n: u128) -> Option<u128>
    ensures more { 1 ≤ n → result ≡ Some n }
    ensures less { n < 1 → result ≡ None }
{
    if 1 <= n { Some(n) } else { None }
}

// The number within a range that a text was printed from.
fn read_within(text: &[u8], least: usize, most: usize) -> Option<usize>
    ensures { spec.IsToken (IsBetween least most) decimal text.now result }
{
    match read_natural(text, most as u128) {
        Some(n) => at_least(least, n as usize),
        None => None,
    }
}

// The number from 1 on that a text was printed from.
fn read_from_one(text: &[u8]) -> Option<u128>
    ensures { spec.IsToken (IsBetween 1 (2 ^ 127 - 1)) decimal text.now result }
{
    match read_natural(text, MOST) {
        Some(n) => from_one(n),
        None => None,
    }
}

// The number that a text was printed from.
fn read_wide(text: &[u8]) -> Option<Wide<0>>
    ensures { spec.IsToken spec.IsRaw spec.raw_text text.now result }
{
    match read_raw(text) {
        Some(raw) => Some(Wide { raw }),
        None => None,
    }
}

// Whether a text is a mark for a missing number.
fn is_mark(text: &[u8]) -> bool
    ensures yes { IsTrue result → text.now ≡ 45 ∷ [] }
    ensures only { text.now ≡ 45 ∷ [] → IsTrue result }
{
    text == b"-".as_slice()
}

// The number that a text was printed from.
fn some_wide(text: &[u8]) -> Option<Option<Wide<0>>>
    requires { text.now ≢ 45 ∷ [] }
    ensures { spec.IsToken spec.IsOptional spec.optional_text text.now result }
{
    match read_wide(text) {
        Some(x) => Some(Some(x)),
        None => None,
    }
}

// The number that may be missing that a text was printed from.
fn read_optional(text: &[u8]) -> Option<Option<Wide<0>>>
    ensures { spec.IsToken spec.IsOptional spec.optional_text text.now result }
{
    if is_mark(text) {
        Some(None)
    } else {
        some_wide(text)
    }
}

impl<'a> Scan<'a> {
    /// A reading of the whole text.
    pub fn new(text: &'a [u8]) -> Scan<'a>
        ensures { result ≡ record { rest = text.now; going = true } }
    {
        Scan {
            rest: text,
            going: true,
        }
    }

    /// Whether nothing is left.
    pub fn is_done(&self) -> bool
        ensures yes { IsTrue result → self.now.rest ≡ [] }
        ensures only { self.now.rest ≡ [] → IsTrue result }
    {
        is_empty(self.rest)
    }

    /// A reading from the same place on.
    pub fn copy(&self) -> Scan<'a>
        ensures { result ≡ self.now }
    {
        Scan {
            rest: self.rest,
            going: self.going,
        }
    }

    /// Whether all so far was in form.
    pub fn is_going(&self) -> bool
        ensures { result ≡ self.now.going }
    {
        self.going
    }

    // Goes on behind the first `count` bytes.
    fn pass(&mut self, count: usize)
        requires { count ≤ length self.old.rest }
        ensures { self.new ≡ record { rest = drop count self.old.rest; going = self.old.going } }
    {
        self.rest = &self.rest[count..];
    }

    /// Stops.
    pub fn stop(&mut self)
        ensures { self.new ≡ record { rest = self.old.rest; going = false } }
    {
        self.going = false;
    }

    /// Whether the rest begins with this text.
    pub fn begins(&self, text: &[u8]) -> bool
        ensures yes { IsTrue result
            → self.now.rest ≡ text.now ++ drop (length text.now) self.now.rest }
        ensures within { IsTrue result → length text.now ≤ length self.now.rest }
        ensures only { (behind : List ℕ) → self.now.rest ≡ text.now ++ behind → IsTrue result }
    {
        begins(self.rest, text)
    }

    // How many bytes of a number the rest begins with.
    fn span(&self) -> usize
        ensures value { result ≡ spec.span spec.is_number_byte self.now.rest }
        ensures within { result ≤ length self.now.rest }
    {
        span(self.rest)
    }

    /// The letters that the rest begins with.
    pub fn letters(&self) -> &[u8]
        ensures { result.now ≡ take (spec.span spec.is_letter self.now.rest) self.now.rest }
    {
        self.first(letter_span(self.rest))
    }

    /// Goes on behind these letters.
    pub fn pass_letters(&mut self)
        ensures { self.new ≡ record {
          rest = drop (spec.span spec.is_letter self.old.rest) self.old.rest;
          going = self.old.going;
        } }
    {
        self.pass(letter_span(self.rest));
    }

    // The first bytes of the rest.
    fn first(&self, count: usize) -> &[u8]
        requires { count ≤ length self.now.rest }
        ensures { result.now ≡ take count self.now.rest }
    {
        &self.rest[..count]
    }

    /// Reads this text.
    pub fn word(&mut self, text: &[u8])
        ensures { Read Is Any (λ (u : Unit {0}). text.now) Anything self.old tt self.new }
    {
        if self.begins(text) {
            self.pass(text.len());
        } else {
            self.stop();
        }
    }

    /// Reads a number with a sign.
    pub fn number(&mut self) -> Wide<0>
        ensures { Read Is spec.IsRaw spec.raw_text NoNumber self.old result self.new }
    {
        let count = self.span();
        match read_wide(self.first(count)) {
            Some(n) => {
                self.pass(count);
                n
            }
            None => {
                self.stop();
                Wide { raw: 0 }
            }
        }
    }

    /// Reads a label and a number within a range.
    pub fn labelled(&mut self, label: &[u8], least: usize, most: usize) -> usize
        ensures { Read Is (IsBetween least most) (λ n. label.now ++ decimal n) NoNumber
            self.old result self.new }
    {
        self.word(label);
        self.count(least, most)
    }

    /// Reads a label and this number.
    pub fn numbered(&mut self, label: &[u8], n: usize)
        ensures { Read Is Any (λ (u : Unit {0}). label.now ++ decimal n) NoNumber
            self.old tt self.new }
    {
        self.labelled(label, n, n);
    }

    /// Reads a number within a range.
    pub fn count(&mut self, least: usize, most: usize) -> usize
        ensures { Read Is (IsBetween least most) decimal NoNumber self.old result self.new }
    {
        let count = self.span();
        match read_within(self.first(count), least, most) {
            Some(n) => {
                self.pass(count);
                n
            }
            None => {
                self.stop();
                0
            }
        }
    }

    /// Reads a number from 1 on.
    pub fn number_from_one(&mut self) -> u128
        ensures { Read Is (IsBetween 1 (2 ^ 127 - 1)) decimal NoNumber self.old result self.new }
    {
        let count = self.span();
        match read_from_one(self.first(count)) {
            Some(n) => {
                self.pass(count);
                n
            }
            None => {
                self.stop();
                0
            }
        }
    }

    /// Reads a number with a sign that may be missing, and is then a mark.
    pub fn optional_number(&mut self) -> Option<Wide<0>>
        ensures { Read Is spec.IsOptional spec.optional_text NoNumber self.old result self.new }
    {
        let count = self.span();
        match read_optional(self.first(count)) {
            Some(x) => {
                self.pass(count);
                x
            }
            None => {
                self.stop();
                None
            }
        }
    }
}
