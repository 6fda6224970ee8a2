// What the keys of a table hold.
ghost use Rattle.std.specs.Prelude.{◌≡◌, ◌≤◌, map, option_map, IfOk};
ghost use Rattle.toml.specs.Data.{get_member};
ghost use Rattle.toml.specs.View.{view, table_view};
ghost use Rattle.mj_form.specs.Forms as forms;
ghost use Rattle.mj_form.specs.Keys as spec;
ghost use Rattle.mj_form.specs.Reading.{Reads};

use crate::form::{Form, NumberAt, Numbers, TextForm, Whole, has_float};
use crate::refusal::{Refusal, at_key, refuse};
use fx_list::{Array, Text};
use fx_num::{Fix, Number};
use mj_types::{ModelCode, ModelFault};
use std::alloc::{AllocError, Global};
use toml::{Table, Value};

/// The value at a key.
pub fn value_at<'a>(table: &'a Table, key: &str) -> Option<&'a Value>
    ensures { option_map (λ v. view v.now) result ≡ get_member key.now (table_view table.now) }
{
    table.get(key)
}

/// Whether the table has the key.
pub fn has_key(table: &Table, key: &str) -> bool
    ensures { result ≡ spec.has_key key.now (table_view table.now) }
{
    value_at(table, key).is_some()
}

/// Whether the key holds just this text.
pub fn holds_text(table: &Table, key: &str, text: &str) -> bool
    ensures { result ≡ spec.holds_text key.now text.now (table_view table.now) }
{
    match value_at(table, key) {
        Some(Value::String(held)) => held.as_str() == text,
        _ => false,
    }
}

/// Whether the key is one of these.
fn is_one_of(key: &str, keys: &[&str]) -> bool
    ensures { result ≡ spec.is_one_of key.now (map (λ k. k.now) keys.now) }
{
    'keys: for known in keys {
        if *known == key {
            return true;
        }
    }
    false
}

/// Reads a value in a form, behind the look for floats.
fn read_exact<F: Form>(alloc: Global, value: &Value) -> Result<F::Out, Refusal<ModelCode>>
    requires { F.can_read }
    ensures { Reads result (forms.exactly F.form (view value.now)) }
{
    if has_float(value) {
        Err(Refusal::Found(ModelCode::FloatValue))
    } else {
        F::read(alloc, value)
    }
}

fn if_present<F: Form>(
    alloc: Global,
    found: Option<&Value>,
) -> Result<Option<F::Out>, Refusal<ModelCode>>
    requires { F.can_read }
    ensures { Reads result (spec.if_present (forms.exactly F.form)
        (option_map (λ v. view v.now) found.entry)) }
{
    match found {
        None => Ok(None),
        Some(value) => Ok(Some(read_exact::<F>(alloc, value)?)),
    }
}

fn if_required<F: Form>(alloc: Global, found: Option<&Value>) -> Result<F::Out, Refusal<ModelCode>>
    requires { F.can_read }
    ensures { Reads result (spec.if_required (forms.exactly F.form)
        (option_map (λ v. view v.now) found.entry)) }
{
    match found {
        None => Err(Refusal::Found(ModelCode::MissingKey)),
        Some(value) => read_exact::<F>(alloc, value),
    }
}

/// What a key holds, if the table has it.
pub(crate) fn optional<F: Form>(
    alloc: Global,
    table: &Table,
    key: &str,
) -> Result<Option<F::Out>, Refusal<ModelFault>>
    requires { F.can_read }
    ensures { Reads result (spec.optional F.form key.now (table_view table.now)) }
{
    at_key(alloc, key, if_present::<F>(alloc, value_at(table, key)))
}

/// What a key that must be there holds.
pub(crate) fn required<F: Form>(
    alloc: Global,
    table: &Table,
    key: &str,
) -> Result<F::Out, Refusal<ModelFault>>
    requires { F.can_read }
    ensures { Reads result (spec.required F.form key.now (table_view table.now)) }
{
    at_key(alloc, key, if_required::<F>(alloc, value_at(table, key)))
}

/// The text that a key holds, or else its default.
#[tactic(auto, unfolding(crate::specs::Keys::otherwise))]
pub(crate) fn text_or(
    alloc: Global,
    table: &Table,
    key: &str,
    default: &str,
) -> Result<Text, Refusal<ModelFault>>
    ensures { Reads result (spec.otherwise default.now forms.text key.now
        (table_view table.now)) }
{
    match optional::<TextForm>(alloc, table, key)? {
        Some(found) => Ok(found),
        None => Ok(Text::from_slice(alloc, default.as_bytes())?),
    }
}

/// The integer that a key holds, or else its default.
#[tactic(auto, unfolding(crate::specs::Keys::otherwise))]
pub(crate) fn whole_or(
    alloc: Global,
    table: &Table,
    key: &str,
    default: i64,
) -> Result<i64, Refusal<ModelFault>>
    ensures { Reads result (spec.otherwise default forms.whole key.now (table_view table.now)) }
{
    match optional::<Whole>(alloc, table, key)? {
        Some(found) => Ok(found),
        None => Ok(default),
    }
}

/// The number that a key holds, or else the one with a raw value.
#[tactic(auto, unfolding(crate::specs::Keys::otherwise))]
pub(crate) fn number_or<const F: u32>(
    alloc: Global,
    table: &Table,
    key: &str,
    default: i64,
) -> Result<Fix<F>, Refusal<ModelFault>>
    requires { F ≤ 40 }
    ensures { Reads result (spec.otherwise (forms.raw F default) (forms.number F) key.now
        (table_view table.now)) }
{
    match optional::<NumberAt<F>>(alloc, table, key)? {
        Some(found) => Ok(found),
        None => Ok(Number::from_raw(default)),
    }
}

/// The numbers with these raw values.
fn from_raws<const F: u32>(alloc: Global, raws: &[i64]) -> Result<Array<Fix<F>>, AllocError>
    ensures { IfOk result (λ a. a ≡ forms.raws F raws.now) }
{
    let mut numbers = Vec::with_capacity(alloc, raws.len())?;
    for raw in raws {
        numbers.push(Number::from_raw(*raw))?;
    }
    Ok(Array::from_vec(numbers))
}

/// The numbers that a key holds, or else those with these raw values.
#[tactic(auto, unfolding(crate::specs::Keys::otherwise))]
pub(crate) fn numbers_or<const F: u32, const LEAST: usize, const MOST: usize>(
    alloc: Global,
    table: &Table,
    key: &str,
    default: &[i64],
) -> Result<Array<Fix<F>>, Refusal<ModelFault>>
    requires { F ≤ 40 }
    ensures { Reads result (spec.otherwise (forms.raws F default.now)
        (forms.numbers F LEAST MOST) key.now (table_view table.now)) }
{
    match optional::<Numbers<F, LEAST, MOST>>(alloc, table, key)? {
        Some(found) => Ok(found),
        None => Ok(from_raws(alloc, default)?),
    }
}

/// The items, and behind them the defaults of those that are missing.
fn fill<const F: u32>(
    alloc: Global,
    found: &[Fix<F>],
    defaults: &[Fix<F>],
) -> Result<Array<Fix<F>>, AllocError>
    ensures { IfOk result (λ a. a ≡ spec.fill defaults.now found.now) }
{
    let mut items = Vec::from_slice(alloc, found)?;
    if found.len() < defaults.len() {
        items.extend_from_slice(&defaults[found.len()..])?;
    }
    Ok(Array::from_vec(items))
}

/// The numbers that a key holds, filled up by those with the raw values of `defaults`.
#[tactic(auto, unfolding(crate::specs::Keys::filled))]
pub(crate) fn filled<const F: u32, const LEAST: usize, const MOST: usize>(
    alloc: Global,
    table: &Table,
    key: &str,
    defaults: &[i64],
) -> Result<Array<Fix<F>>, Refusal<ModelFault>>
    requires { F ≤ 40 }
    ensures { Reads result (spec.filled (forms.raws F defaults.now)
        (forms.numbers F LEAST MOST) key.now (table_view table.now)) }
{
    let found = numbers_or::<F, LEAST, MOST>(alloc, table, key, &[])?;
    let defaults = from_raws::<F>(alloc, defaults)?;
    Ok(fill(alloc, found.as_slice(), defaults.as_slice())?)
}

/// The least key by bytes that isn't one of these: the first in the table's order, as keys ascend.
fn least_unknown<'a>(table: &'a Table, keys: &[&str]) -> Option<&'a str>
    ensures { option_map (λ k. k.now) result ≡ spec.least_unknown (map (λ k. k.now) keys.now)
        (table_view table.now) }
{
    'members: for (key, _value) in table.iter() {
        if !is_one_of(key.as_str(), keys) {
            return Some(key.as_str());
        }
    }
    None
}

/// A byte as a path shows it.
fn shown_byte(byte: u8) -> u8
    ensures { result ≡ spec.shown_byte byte }
{
    if byte < 32 || byte == 127 { b'?' } else { byte }
}

/// A key as a path shows it.
fn shown(alloc: Global, key: &str) -> Result<Vec<u8>, AllocError>
    ensures { IfOk result (λ v. v.items ≡ map spec.shown_byte key.now) }
{
    let mut bytes = Vec::with_capacity(alloc, key.len())?;
    for byte in key.as_bytes() {
        bytes.push(shown_byte(*byte))?;
    }
    Ok(bytes)
}

/// Whether the table has no key but these: the least other by bytes is refused.
#[tactic(auto, unfolding(crate::specs::Keys::only))]
pub(crate) fn only(alloc: Global, table: &Table, keys: &[&str]) -> Result<(), Refusal<ModelFault>>
    ensures { Reads result (spec.only (map (λ k. k.now) keys.now) (table_view table.now)) }
{
    match least_unknown(table, keys) {
        Some(key) => refuse(alloc, ModelCode::UnknownKey, shown(alloc, key)?.as_slice()),
        None => Ok(()),
    }
}

/// Whether a condition holds: else the key's value is missing.
#[tactic(auto, unfolding(crate::specs::Keys::must))]
pub(crate) fn must(alloc: Global, key: &str, holds: bool) -> Result<(), Refusal<ModelFault>>
    ensures { Reads result (spec.must key.now holds) }
{
    if holds {
        Ok(())
    } else {
        refuse(alloc, ModelCode::MissingKey, key.as_bytes())
    }
}
