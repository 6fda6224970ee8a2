// A whole document, and the bytes that it is read from.
ghost use Rattle.std.specs.Prelude.{◌≡◌};
ghost use Rattle.toml.specs.View.{table_view};
ghost use Rattle.mj_form.specs.Keys.{only};
ghost use Rattle.mj_form.specs.Reading.{Reads};
ghost use Rattle.mj_form.specs.Steps.{Step};
ghost use Rattle.mj_io.specs.Memory.{OrMemory};
ghost use Rattle.mj_read.specs.Document as spec;

use crate::bodies::RawBody;
use crate::equalities::RawEquality;
use crate::geoms::RawGeom;
use crate::keyframes::RawKeyframe;
use crate::motors::RawMotor;
use crate::settings::RawOption;
use crate::tendons::RawTendon;
use fx_list::{Array, Text};
use mj_form::{Refusal, Walk, Walker, refuse, value_at, walk_table};
use mj_types::{ModelCode, ModelFault};
use std::alloc::Global;
use toml::{Table, Value};

/// A model's file has at most this many bytes.
const MOST_BYTES: usize = 1_048_576;

/// A model's document with its numbers read and its defaults in place. A key's field is empty where
/// its default isn't a value.
#[derive(Drop)]
pub struct RawModel {
    pub format: i64,
    pub option: RawOption,
    pub body: Array<RawBody>,
    pub geom: Array<RawGeom>,
    pub tendon: Array<RawTendon>,
    pub motor: Array<RawMotor>,
    pub equality: Array<RawEquality>,
    pub keyframe: Option<RawKeyframe>,
}

/// Refuses the least key by bytes that a document doesn't have in this format.
fn only_model_keys(w: &mut Walker, format: u32, t: &Table)
    ensures { Step w.old.refusal w.new.refusal tt
        (only (spec.model_keys format) (table_view t.now)) }
{
    if format == 2 {
        w.only(
            t,
            &[
                "format", "option", "body", "geom", "tendon", "motor", "equality", "keyframe",
            ],
        );
    } else {
        w.only(
            t,
            &[
                "format", "option", "body", "geom", "tendon", "motor", "keyframe",
            ],
        );
    }
}

impl Walk for RawModel {
    ghost use Rattle.mj_read.specs.Document as spec;

    ghost walked = { spec.model };

    fn walk(w: &mut Walker, known: u32, t: &Table) -> RawModel {
        only_model_keys(w, known, t);
        let format = w.whole_or(t, "format", 1);
        let option = w.inside_or_empty::<RawOption>(known, t, "option");
        let body = w.tables::<RawBody>(known, t, "body");
        let geom = w.tables::<RawGeom>(known, t, "geom");
        let tendon = w.tables::<RawTendon>(known, t, "tendon");
        let motor = w.tables::<RawMotor>(known, t, "motor");
        let equality = w.tables::<RawEquality>(known, t, "equality");
        let keyframe = w.inside::<RawKeyframe>(known, t, "keyframe");
        RawModel {
            format,
            option,
            body,
            geom,
            tendon,
            motor,
            equality,
            keyframe,
        }
    }
}

/// The format that a document's keys have: 2 where it says so, else 1.
fn format_of(t: &Table) -> u32
    ensures { result ≡ spec.format_of (table_view t.now) }
{
    match value_at(t, "format") {
        Some(Value::Integer(2)) => 2,
        _ => 1,
    }
}

/// Reads a document.
fn walked(alloc: Global, bytes: &[u8]) -> Result<RawModel, Refusal<ModelFault>>
    ensures { Reads result (spec.walked (spec.document bytes.now)) }
{
    match toml::table_from_slice(alloc, bytes) {
        Ok(document) => walk_table(alloc, format_of(&document), &document),
        Err(error) => {
            if error.is_memory() {
                Err(Refusal::Memory)
            } else {
                refuse(alloc, ModelCode::NotToml, b"")
            }
        }
    }
}

/// Reads bytes, unless there are too many.
fn read_model(alloc: Global, bytes: &[u8]) -> Result<RawModel, Refusal<ModelFault>>
    ensures { Reads result (spec.raw_model bytes.now) }
{
    if bytes.len() > MOST_BYTES {
        return refuse(alloc, ModelCode::TooLarge, b"");
    }
    walked(alloc, bytes)
}

/// Reads a model's file. It is refused as `TooLarge` with more than 1,048,576 bytes, as `NotToml` where
/// it is no TOML document, and else at the document's first fault: tables are walked key by key, and a
/// table's least unknown key is refused before all others. `Memory` may stand for any answer.
pub fn raw_model(alloc: Global, bytes: &[u8]) -> Result<RawModel, ModelFault>
    ensures { OrMemory spec.no_memory result (spec.raw_model bytes.now) }
{
    match read_model(alloc, bytes) {
        Ok(model) => Ok(model),
        Err(refusal) => match refusal {
            Refusal::Found(fault) => Err(fault),
            Refusal::Memory => Err(ModelFault {
                code: ModelCode::Memory,
                path: Text::from_vec(Vec::new(alloc)),
            }),
        },
    }
}
