// A tape's file, read record by record.
ghost use Rattle.std.specs.Prelude.{◌≡◌, ◌⊎◌, ◌++◌, ◌+◌, ◌*◌, ◌≤◌, ℕ, List, Some, None, Ok, Err, length, map, MatchResult, IfOk, IfErr, ◌<◌};
ghost use Rattle.csv.specs.Reading.{error_kind};
ghost use Rattle.csv.specs.Records.{fields_of};
ghost use Rattle.mj_io.specs.Memory.{OrMemory};
ghost use Rattle.mj_types.specs.Control.{AreSmall};
ghost use Rattle.mj_tape.specs.Judging as spec;

use crate::judge::push_record;
use csv::{ByteRecord, ReaderBuilder};
use fx_list::Array;
use fx_num::Fix;
use mj_types::{Model, Tape, TapeFault};
use std::alloc::Global;

// The greatest length of a tape's file.
const FILE_LIMIT: usize = 67_108_864;

// How many records were read, and their values.
#[derive(Drop)]
struct Records {
    count: usize,
    values: Vec<Fix<32>>,
}

// A reader over bytes that takes records of any length has no error but want of memory. That the bytes
// themselves can't fail is the one thing here that csv's clauses don't say.
fn record_of(row: Result<ByteRecord, csv::Error>) -> Result<ByteRecord, TapeFault>
    requires { IfErr row (λ error. spec.IsExpected (error_kind error)) }
    ensures { MatchResult result (λ fields. row ≡ Ok fields) (λ fault. fault ≡ TapeFault.Memory) }
{
    match row {
        Ok(fields) => Ok(fields),
        Err(_) => Err(TapeFault::Memory),
    }
}

// The records of a file, up to its first fault.
fn read_records(
    alloc: Global,
    bytes: &[u8],
    width: usize,
    room: usize,
) -> Result<Records, TapeFault>
    requires { length bytes.now ≤ spec.file_limit }
    ensures judged { spec.FirstOrMemory
        (spec.first_fault width room 1 (spec.records_of bytes.now)) result }
    ensures held { IfOk result (λ read. (read.count ≡ length (spec.records_of bytes.now))
        × (spec.raws read.values.items ≡ spec.record_controls (spec.records_of bytes.now))) }
    ensures small { IfOk result (λ read. AreSmall read.values.items) }
{
    let rdr = ReaderBuilder::new()
        .has_headers(false)
        .flexible(true)
        .from_reader(alloc, bytes);
    let mut values = Vec::new(alloc);
    let mut count = 0;
    for row in rdr.into_byte_records() {
        let fields = record_of(row)?;
        count += 1;
        push_record(&mut values, &fields, count, width, room)?;
    }
    Ok(Records { count, values })
}

// The tape that holds these records, unless there are fewer than steps.
fn unless_short(read: Records, width: usize, steps: u32) -> Result<Tape, TapeFault>
    requires filled { length read.values.items ≡ read.count * width }
    requires small { AreSmall read.values.items }
    ensures { MatchResult result
        (λ t. (steps ≤ read.count) × (t.rows ≡ read.count) × (t.width ≡ width)
        × (t.values ≡ read.values.items))
        (λ fault. (read.count < steps) × (fault ≡ TapeFault.Short read.count)) }
{
    if read.count < steps as usize {
        return Err(TapeFault::Short(read.count));
    }
    Ok(Tape {
        rows: read.count,
        width,
        values: Array::from_vec(read.values),
    })
}

// The tape for so many motors.
pub(crate) fn tape_of_width(
    alloc: Global,
    width: usize,
    bytes: &[u8],
    steps: u32,
    room: usize,
) -> Result<Tape, TapeFault>
    ensures { OrMemory TapeFault.Memory (spec.seen result)
        (spec.tape_verdict width steps room bytes.now) }
{
    if bytes.len() > FILE_LIMIT {
        return Err(TapeFault::TooLarge);
    }
    let read = read_records(alloc, bytes, width, room)?;
    unless_short(read, width, steps)
}

/// The tape of a run of this many steps for a model, from a file's bytes, with room for this many
/// values. The file is comma-separated values without headers: record k holds the controls of step k,
/// one for each motor, each a decimal numeral of at most 2^20 in size. Records past the steps are
/// judged and kept like the others.
///
/// # Errors
///
/// `TooLarge` where the file has more than 2^26 bytes. Then, record by record: `Width` where it hasn't
/// one field for each motor, `TooLarge` where the values so far pass the room, and `BadNumber` at its
/// first field that is no control. Last `Short` where there are fewer records than steps. `Memory`
/// where memory was wanted and not found.
pub fn tape(
    alloc: Global,
    model: &Model,
    bytes: &[u8],
    steps: u32,
    room: usize,
) -> Result<Tape, TapeFault>
    ensures { OrMemory TapeFault.Memory (spec.seen result)
        (spec.tape_verdict (length model.now.motors) steps room bytes.now) }
{
    tape_of_width(alloc, model.motors.len(), bytes, steps, room)
}

/// Value j of row k of an accepted tape is the control that field j of record k writes. It has a row
/// for each record and a column for each motor.
pub fn tapes_hold_their_fields()
    ensures { spec.TapesHoldFields }
{}
