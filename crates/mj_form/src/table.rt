// The walks of tables inside a table.
ghost use Rattle.std.specs.Prelude.{◌≡◌, not};
ghost use Rattle.toml.specs.View.{view, items_view, table_view};
ghost use Rattle.mj_form.specs.Forms as forms;
ghost use Rattle.mj_form.specs.Keys as spec;
ghost use Rattle.mj_form.specs.Reading as reading;
ghost use Rattle.mj_form.specs.Reading.{Reads};

use crate::form::{has_float, is_float, is_table};
use crate::key::value_at;
use crate::refusal::{Refusal, place, refuse, under_item, under_key};
use crate::walker::{Walk, Walker};
use fx_list::Array;
use mj_types::{ModelCode, ModelFault};
use std::alloc::Global;
use toml::{Table, Value};

/// The walk of a table by a walker of its own.
pub fn walk_table<T: Walk>(
    alloc: Global,
    format: u32,
    table: &Table,
) -> Result<T, Refusal<ModelFault>>
    ensures { Reads result (T.walked format (table_view table.now)) }
{
    let mut w = Walker::new(alloc);
    let value = T::walk(&mut w, format, table);
    w.end(value)
}

/// What stands where nothing was walked.
pub(crate) fn blank<T: Walk>(alloc: Global, format: u32) -> T {
    T::walk(&mut Walker::new(alloc), format, &Table::new(alloc))
}

/// The walk of a key's value, which is a table.
fn walk_value<T: Walk>(
    alloc: Global,
    format: u32,
    key: &str,
    value: &Value,
) -> Result<T, Refusal<ModelFault>>
    ensures { Reads result (spec.walk_value (T.walked format) key.now (view value.now)) }
{
    if has_float(value) {
        return refuse(alloc, ModelCode::FloatValue, key.as_bytes());
    }
    match value {
        Value::Table(inner) => under_key(alloc, key, walk_table::<T>(alloc, format, inner)),
        _ => refuse(alloc, ModelCode::WrongKind, key.as_bytes()),
    }
}

/// The walk of the table that a key holds, if the table has it.
#[tactic(auto, unfolding(crate::specs::Keys::inside))]
pub(crate) fn inside<T: Walk>(
    alloc: Global,
    format: u32,
    table: &Table,
    key: &str,
) -> Result<Option<T>, Refusal<ModelFault>>
    ensures { Reads result (spec.inside (T.walked format) key.now (table_view table.now)) }
{
    match value_at(table, key) {
        None => Ok(None),
        Some(value) => Ok(Some(walk_value::<T>(alloc, format, key, value)?)),
    }
}

/// The walk of the table that a key holds, of an empty one without it.
#[tactic(auto, unfolding(crate::specs::Keys::inside_or_empty))]
pub(crate) fn inside_or_empty<T: Walk>(
    alloc: Global,
    format: u32,
    table: &Table,
    key: &str,
) -> Result<T, Refusal<ModelFault>>
    ensures { Reads result (spec.inside_or_empty (T.walked format) key.now
        (table_view table.now)) }
{
    match value_at(table, key) {
        None => under_key(
            alloc,
            key,
            walk_table::<T>(alloc, format, &Table::new(alloc)),
        ),
        Some(value) => walk_value::<T>(alloc, format, key, value),
    }
}

/// The refusal of an item of an array.
fn refuse_item<A>(
    alloc: Global,
    code: ModelCode,
    key: &str,
    n: usize,
) -> Result<A, Refusal<ModelFault>>
    ensures { Reads result (reading.refused code (reading.place key.now n)) }
{
    refuse(alloc, code, place(alloc, key, n)?.as_slice())
}

/// The number of the first float, from 1.
fn first_float(values: &[Value]) -> Option<usize>
    ensures { result ≡ spec.first_item forms.is_float 1 (items_view values.now) }
{
    for (at, value) in values.iter().enumerate() {
        if is_float(value) {
            return Some(at + 1);
        }
    }
    None
}

/// The number of the first value that is no table, from 1.
fn first_other(values: &[Value]) -> Option<usize>
    ensures { result ≡ spec.first_item (λ value. not (forms.is_table value)) 1
        (items_view values.now) }
{
    for (at, value) in values.iter().enumerate() {
        if !is_table(value) {
            return Some(at + 1);
        }
    }
    None
}

/// The walk of an item of an array, which is a table.
fn walk_item<T: Walk>(
    alloc: Global,
    format: u32,
    key: &str,
    n: usize,
    value: &Value,
) -> Result<T, Refusal<ModelFault>>
    ensures { Reads result (spec.walk_item (T.walked format) key.now n (view value.now)) }
{
    match value {
        Value::Table(inner) => { under_item(alloc, key, n, walk_table::<T>(alloc, format, inner)) }
        _ => refuse_item(alloc, ModelCode::WrongKind, key, n),
    }
}

/// The walk of each item in turn.
fn walk_each<T: Walk>(
    alloc: Global,
    format: u32,
    key: &str,
    values: &[Value],
) -> Result<Array<T>, Refusal<ModelFault>>
    ensures { Reads result (spec.each (spec.walk_item (T.walked format) key.now) 1
        (items_view values.now)) }
{
    let mut found = Vec::new(alloc);
    for (at, value) in values.iter().enumerate() {
        let x = walk_item::<T>(alloc, format, key, at + 1, value)?;
        found.push(x)?;
    }
    Ok(Array::from_vec(found))
}

/// The walk of an array's items: all are looked at before the first is walked.
fn walk_items<T: Walk>(
    alloc: Global,
    format: u32,
    key: &str,
    values: &[Value],
) -> Result<Array<T>, Refusal<ModelFault>>
    ensures { Reads result (spec.walk_items (T.walked format) key.now (items_view values.now)) }
{
    if let Some(n) = first_float(values) {
        return refuse_item(alloc, ModelCode::FloatValue, key, n);
    }
    if let Some(n) = first_other(values) {
        return refuse_item(alloc, ModelCode::WrongKind, key, n);
    }
    walk_each(alloc, format, key, values)
}

/// The walk of a key's value, which is an array of tables.
fn walk_array<T: Walk>(
    alloc: Global,
    format: u32,
    key: &str,
    value: &Value,
) -> Result<Array<T>, Refusal<ModelFault>>
    ensures { Reads result (spec.walk_array (T.walked format) key.now (view value.now)) }
{
    match value {
        Value::Array(items) => walk_items(alloc, format, key, items.as_slice()),
        Value::Float(_) => refuse(alloc, ModelCode::FloatValue, key.as_bytes()),
        _ => refuse(alloc, ModelCode::WrongKind, key.as_bytes()),
    }
}

/// The walk of the array of tables that a key holds, of none without it.
#[tactic(auto, unfolding(crate::specs::Keys::tables))]
pub(crate) fn tables<T: Walk>(
    alloc: Global,
    format: u32,
    table: &Table,
    key: &str,
) -> Result<Array<T>, Refusal<ModelFault>>
    ensures { Reads result (spec.tables (T.walked format) key.now (table_view table.now)) }
{
    match value_at(table, key) {
        None => Ok(Array::from_vec(Vec::new(alloc))),
        Some(value) => walk_array(alloc, format, key, value),
    }
}

/// The walk of the array of tables that a key must hold.
#[tactic(auto, unfolding(crate::specs::Keys::required_tables))]
pub(crate) fn required_tables<T: Walk>(
    alloc: Global,
    format: u32,
    table: &Table,
    key: &str,
) -> Result<Array<T>, Refusal<ModelFault>>
    ensures { Reads result (spec.required_tables (T.walked format) key.now
        (table_view table.now)) }
{
    match value_at(table, key) {
        None => refuse(alloc, ModelCode::MissingKey, key.as_bytes()),
        Some(value) => walk_array(alloc, format, key, value),
    }
}
