// Records of a tape, judged one by one.
ghost use Rattle.std.specs.Prelude.{◌≡◌, ◌⊎◌, ◌++◌, ◌+◌, ◌*◌, ◌<◌, ℕ, List, Some, None, Ok, length, map, nat_lt, unsigned_abs, MatchResult, MatchOption, OnOk, IfErr, ◌∷◌, []};
ghost use Rattle.csv.specs.Records.{fields_of, field_at};
ghost use Rattle.mj_types.specs.Control.{AreSmall, control_limit};
ghost use Rattle.mj_tape.specs.Judging as spec;

use csv::ByteRecord;
use fx_num::Fix;
use fx_text::read_decimal;
use mj_types::TapeFault;

// The greatest raw size of a control.
const CONTROL_LIMIT: u64 = 1 << 52;

/// The control that a field is.
fn control(field: &[u8]) -> Option<Fix<32>>
    ensures { MatchOption result
        (spec.control_of field.now ≡ None)
        (λ x. spec.control_of field.now ≡ Some x.mid) }
{
    match read_decimal::<32>(field) {
        Ok(number) if number.mid.unsigned_abs() <= CONTROL_LIMIT => Some(number),
        _ => None,
    }
}

/// The control in a column, from 0, of the record with this number.
fn control_at(fields: &ByteRecord, number: usize, column: usize) -> Result<Fix<32>, TapeFault>
    requires { column < length (fields_of fields.now) }
    ensures { MatchResult result
        (λ x. (field : List ℕ) × (field_at (fields_of fields.now) column ≡ Some field)
        × (spec.control_of field ≡ Some x.mid))
        (λ fault. (field : List ℕ) × (field_at (fields_of fields.now) column ≡ Some field)
        × (spec.control_of field ≡ None)
        × (fault ≡ TapeFault.BadNumber number (column + 1))) }
{
    match fields.get(column) {
        Some(field) => match control(field) {
            Some(value) => Ok(value),
            None => Err(TapeFault::BadNumber(number, column + 1)),
        },
        None => Err(TapeFault::Width(number)),
    }
}

fn push(values: &mut Vec<Fix<32>>, value: Fix<32>) -> Result<(), TapeFault>
    ensures ok { OnOk result (values.new.items ≡ values.old.items ++ value ∷ []) }
    ensures memory { IfErr result (λ fault. fault ≡ TapeFault.Memory) }
{
    match values.push(value) {
        Ok(_) => Ok(()),
        Err(_) => Err(TapeFault::Memory),
    }
}

/// Appends the controls of the record with this number, up to its first field that is none.
fn push_fields(
    values: &mut Vec<Fix<32>>,
    fields: &ByteRecord,
    number: usize,
) -> Result<(), TapeFault>
    ensures judged { spec.FirstOrMemory (spec.bad_field number 1 (fields_of fields.now)) result }
    ensures grew { OnOk result (spec.raws values.new.items
        ≡ spec.raws values.old.items ++ map spec.control_or_zero (fields_of fields.now)) }
    ensures small { OnOk result (AreSmall values.old.items → AreSmall values.new.items) }
{
    for column in 0..fields.len() {
        let value = control_at(fields, number, column)?;
        push(values, value)?;
    }
    Ok(())
}

// Whether this many records of this width pass the room.
fn passes(number: usize, width: usize, room: usize) -> bool
    ensures { result ≡ nat_lt room (number * width) }
{
    (number as u128) * (width as u128) > room as u128
}

/// Judges the record with this number, and appends its controls.
pub fn push_record(
    values: &mut Vec<Fix<32>>,
    fields: &ByteRecord,
    number: usize,
    width: usize,
    room: usize,
) -> Result<(), TapeFault>
    ensures judged { spec.FirstOrMemory
        (spec.record_fault width room number (fields_of fields.now)) result }
    ensures grew { OnOk result (spec.raws values.new.items
        ≡ spec.raws values.old.items ++ map spec.control_or_zero (fields_of fields.now)) }
    ensures small { OnOk result (AreSmall values.old.items → AreSmall values.new.items) }
{
    if fields.len() != width {
        return Err(TapeFault::Width(number));
    }
    if passes(number, width, room) {
        return Err(TapeFault::TooLarge);
    }
    push_fields(values, fields, number)
}
