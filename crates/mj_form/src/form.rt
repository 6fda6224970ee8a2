// The forms that a key's value may have.
ghost use Rattle.std.specs.Prelude.{◌≡◌, ◌≤◌, ◌^◌, ◌*ℤ◌, pos, nat_le, ◌&&◌, Result};
ghost use Rattle.fx_text.specs.Decimal.{decimal, in_range};
ghost use Rattle.toml.specs.Data.{Data};
ghost use Rattle.toml.specs.View.{view, items_view};
ghost use Rattle.mj_types.specs.declared.status.ModelCode.{ModelCode};
ghost use Rattle.mj_form.specs.Forms as spec;
ghost use Rattle.mj_form.specs.Reading.{Reads};

use crate::refusal::Refusal;
use fx_list::{Array, Text};
use fx_num::{Fix, Number};
use fx_text::read_decimal;
use fx_whole::scale_up;
use mj_types::ModelCode;
use num_traits::ToPrimitive;
use std::alloc::Global;
use toml::Value;

/// A form that a key's value may have.
pub trait Form {
    /// What a value of the form is read as.
    type Out: Drop;

    ghost form: { Data → Result Self.Out ModelCode };

    ghost can_read: { Type 0 };

    /// Reads a value: the fault is `WrongKind` where it has another form, and `BadNumber` where one of
    /// its numbers can't be read.
    fn read(alloc: Global, value: &Value) -> Result<Self::Out, Refusal<ModelCode>>
        requires { can_read }
        ensures { Reads result (form (view value.now)) };

    /// What stands where nothing was read. Takes no memory.
    fn blank(alloc: Global) -> Self::Out;
}

/// A TOML string, as a text.
pub struct TextForm;

/// A TOML integer.
pub struct Whole;

/// A number at scale `F`: a TOML integer, or a decimal numeral in a string.
pub struct NumberAt<const F: u32>;

/// An array of at least `LEAST` numbers and at most `MOST`, at scale `F`.
pub struct Numbers<const F: u32, const LEAST: usize, const MOST: usize>;

/// An array of numbers at scale `F`.
pub struct AllNumbers<const F: u32>;

pub(crate) fn is_float(value: &Value) -> bool
    ensures { result ≡ spec.is_float (view value.now) }
{
    matches!(value, Value::Float(_))
}

pub(crate) fn is_table(value: &Value) -> bool
    ensures { result ≡ spec.is_table (view value.now) }
{
    matches!(value, Value::Table(_))
}

fn is_number(value: &Value) -> bool
    ensures { result ≡ spec.is_number (view value.now) }
{
    matches!(value, Value::Integer(_) | Value::String(_))
}

fn any_float(values: &[Value]) -> bool
    ensures { result ≡ spec.any_item spec.is_float (items_view values.now) }
{
    for value in values {
        if is_float(value) {
            return true;
        }
    }
    false
}

fn all_numbers(values: &[Value]) -> bool
    ensures { result ≡ spec.all_items spec.is_number (items_view values.now) }
{
    for value in values {
        if !is_number(value) {
            return false;
        }
    }
    true
}

/// Whether a value is a float, or an array with a float in it.
pub(crate) fn has_float(value: &Value) -> bool
    ensures { result ≡ spec.has_float (view value.now) }
{
    match value {
        Value::Array(items) => any_float(items.as_slice()),
        _ => is_float(value),
    }
}

/// A raw value as a number at scale `F`, if it fits.
fn in_range<const F: u32>(raw: i128) -> Result<Fix<F>, ModelCode>
    ensures { result ≡ spec.raw_number (in_range raw) }
{
    match raw.to_i64() {
        Some(fitting) => Ok(Number::from_raw(fitting)),
        None => Err(ModelCode::BadNumber),
    }
}

/// A decimal numeral at scale `F`.
fn numeral<const F: u32>(text: &[u8]) -> Result<Fix<F>, ModelCode>
    requires { F ≤ 40 }
    ensures { result ≡ spec.raw_number (decimal F text.now) }
{
    match read_decimal(text) {
        Ok(x) => Ok(x),
        Err(_) => Err(ModelCode::BadNumber),
    }
}

/// A number at scale `F`.
fn number<const F: u32>(value: &Value) -> Result<Fix<F>, ModelCode>
    requires { F ≤ 40 }
    ensures { result ≡ spec.number F (view value.now) }
{
    match value {
        Value::Integer(n) => in_range(scale_up(*n, F)),
        Value::String(text) => numeral(text.as_bytes()),
        _ => Err(ModelCode::WrongKind),
    }
}

/// Each value as a number at scale `F`.
fn each_number<const F: u32>(
    alloc: Global,
    values: &[Value],
) -> Result<Array<Fix<F>>, Refusal<ModelCode>>
    requires { F ≤ 40 }
    ensures { Reads result (spec.each_number F (items_view values.now)) }
{
    let mut found = Vec::with_capacity(alloc, values.len())?;
    for value in values {
        match number(value) {
            Ok(x) => found.push(x)?,
            Err(code) => return Err(Refusal::Found(code)),
        }
    }
    Ok(Array::from_vec(found))
}

/// Whether there are at least `least` values and at most `most`.
#[tactic(auto, using(crate::proofs::Lists::count_view))]
fn has_length(values: &[Value], least: usize, most: usize) -> bool
    ensures { result ≡ (nat_le least (spec.count (items_view values.now))
        && nat_le (spec.count (items_view values.now)) most) }
{
    least <= values.len() && values.len() <= most
}

/// The values as numbers at scale `F`, if there are as many as is allowed and each is one.
fn number_list<const F: u32>(
    alloc: Global,
    values: &[Value],
    allowed: bool,
) -> Result<Array<Fix<F>>, Refusal<ModelCode>>
    requires { F ≤ 40 }
    ensures { Reads result (spec.number_list F allowed (items_view values.now)) }
{
    if allowed && all_numbers(values) {
        each_number(alloc, values)
    } else {
        Err(Refusal::Found(ModelCode::WrongKind))
    }
}

impl Form for TextForm {
    type Out = Text;

    ghost form = { spec.text };

    ghost can_read = { Unit {0} };

    fn read(alloc: Global, value: &Value) -> Result<Text, Refusal<ModelCode>> {
        match value {
            Value::String(text) => Ok(Text::from_slice(alloc, text.as_bytes())?),
            _ => Err(Refusal::Found(ModelCode::WrongKind)),
        }
    }

    fn blank(alloc: Global) -> Text {
        Text::from_vec(Vec::new(alloc))
    }
}

impl Form for Whole {
    type Out = i64;

    ghost form = { spec.whole };

    ghost can_read = { Unit {0} };

    fn read(_alloc: Global, value: &Value) -> Result<i64, Refusal<ModelCode>> {
        match value {
            Value::Integer(n) => Ok(*n),
            _ => Err(Refusal::Found(ModelCode::WrongKind)),
        }
    }

    fn blank(_alloc: Global) -> i64 {
        0
    }
}

impl<const F: u32> Form for NumberAt<F> {
    type Out = Fix<F>;

    ghost form = { spec.number F };

    ghost can_read = { F ≤ 40 };

    fn read(_alloc: Global, value: &Value) -> Result<Fix<F>, Refusal<ModelCode>> {
        match number(value) {
            Ok(x) => Ok(x),
            Err(code) => Err(Refusal::Found(code)),
        }
    }

    fn blank(_alloc: Global) -> Fix<F> {
        Number::from_raw(0)
    }
}

impl<const F: u32, const LEAST: usize, const MOST: usize> Form for Numbers<F, LEAST, MOST> {
    type Out = Array<Fix<F>>;

    ghost form = { spec.numbers F LEAST MOST };

    ghost can_read = { F ≤ 40 };

    fn read(alloc: Global, value: &Value) -> Result<Array<Fix<F>>, Refusal<ModelCode>> {
        match value {
            Value::Array(items) => {
                let values = items.as_slice();
                number_list(alloc, values, has_length(values, LEAST, MOST))
            }
            _ => Err(Refusal::Found(ModelCode::WrongKind)),
        }
    }

    fn blank(alloc: Global) -> Array<Fix<F>> {
        Array::from_vec(Vec::new(alloc))
    }
}

impl<const F: u32> Form for AllNumbers<F> {
    type Out = Array<Fix<F>>;

    ghost form = { spec.all_numbers F };

    ghost can_read = { F ≤ 40 };

    fn read(alloc: Global, value: &Value) -> Result<Array<Fix<F>>, Refusal<ModelCode>> {
        match value {
            Value::Array(items) => number_list(alloc, items.as_slice(), true),
            _ => Err(Refusal::Found(ModelCode::WrongKind)),
        }
    }

    fn blank(alloc: Global) -> Array<Fix<F>> {
        Array::from_vec(Vec::new(alloc))
    }
}
