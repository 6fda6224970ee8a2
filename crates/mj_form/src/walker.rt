// A walk over a table's keys that keeps the first refusal.
ghost use Rattle.std.specs.Prelude.{◌≡◌, ◌≤◌, ℕ, map};
ghost use Rattle.toml.specs.Data.{Members};
ghost use Rattle.toml.specs.View.{table_view};
ghost use Rattle.mj_form.specs.Forms as forms;
ghost use Rattle.mj_form.specs.Keys as spec;
ghost use Rattle.mj_form.specs.Reading.{Read, Reads};
ghost use Rattle.mj_form.specs.Steps.{Step, first_refusal};

use crate::form::Form;
use crate::refusal::Refusal;
use crate::{key, table};
use fx_list::{Array, Text};
use fx_num::{Fix, Number};
use mj_types::ModelFault;
use std::alloc::Global;
use toml::Table;

/// What walks a table: each call reads one key, and the first refusal is kept. What a call answers
/// after a refusal means nothing.
#[derive(Debug, Drop)]
pub struct Walker {
    pub alloc: Global,
    pub refusal: Option<Refusal<ModelFault>>,
}

/// What a table is walked to. `format` is the number of the document's format, for keys that only one
/// format has.
pub trait Walk: Sized + Drop {
    ghost walked: { ℕ → Members → Read Self };

    /// Walks the table's keys in their order.
    fn walk(w: &mut Walker, format: u32, table: &Table) -> Self
        ensures { Step w.old.refusal w.new.refusal result (walked format (table_view table.now)) };
}

impl Walker {
    /// A walker with no refusal.
    pub fn new(alloc: Global) -> Walker
        ensures { result.refusal ≡ None }
    {
        Walker {
            alloc,
            refusal: None,
        }
    }

    /// Keeps a refusal, if it is the first.
    fn stop(&mut self, refusal: Refusal<ModelFault>)
        ensures { self.new.refusal ≡ first_refusal self.old.refusal refusal }
    {
        if self.refusal.is_none() {
            self.refusal = Some(refusal);
        }
    }

    /// What was read; or else the refusal is kept, if it is the first.
    pub fn keep<A: Drop>(&mut self, read: Result<A, Refusal<ModelFault>>, blank: A) -> A
        ensures { (reading : Read A) → Reads read reading
            → Step self.old.refusal self.new.refusal result reading }
    {
        match read {
            Ok(x) => x,
            Err(refusal) => {
                self.stop(refusal);
                blank
            }
        }
    }

    /// The value that was walked to, unless a refusal is kept.
    pub fn end<A: Drop>(self, value: A) -> Result<A, Refusal<ModelFault>>
        ensures { (reading : Read A) → Step None self.refusal value reading
            → Reads result reading }
    {
        match self.refusal {
            None => Ok(value),
            Some(refusal) => Err(refusal),
        }
    }

    /// Refuses the least other key by bytes, if there is one.
    pub fn only(&mut self, table: &Table, keys: &[&str])
        ensures { Step self.old.refusal self.new.refusal tt
            (spec.only (map (λ k. k.now) keys.now) (table_view table.now)) }
    {
        let read = key::only(self.alloc, table, keys);
        self.keep(read, ())
    }

    /// Refuses the key as missing, unless this holds.
    pub fn must(&mut self, key: &str, holds: bool)
        ensures { Step self.old.refusal self.new.refusal tt (spec.must key.now holds) }
    {
        let read = key::must(self.alloc, key, holds);
        self.keep(read, ())
    }

    /// Reads what a key holds, if the table has it.
    pub fn optional<F: Form>(&mut self, table: &Table, key: &str) -> Option<F::Out>
        requires { F.can_read }
        ensures { Step self.old.refusal self.new.refusal result
            (spec.optional F.form key.now (table_view table.now)) }
    {
        let read = key::optional::<F>(self.alloc, table, key);
        self.keep(read, None)
    }

    /// Reads what a key that must be there holds.
    pub fn required<F: Form>(&mut self, table: &Table, key: &str) -> F::Out
        requires { F.can_read }
        ensures { Step self.old.refusal self.new.refusal result
            (spec.required F.form key.now (table_view table.now)) }
    {
        let read = key::required::<F>(self.alloc, table, key);
        let blank = F::blank(self.alloc);
        self.keep(read, blank)
    }

    /// Reads the text that a key holds, or takes its default.
    pub fn text_or(&mut self, table: &Table, key: &str, default: &str) -> Text
        ensures { Step self.old.refusal self.new.refusal result
            (spec.otherwise default.now forms.text key.now (table_view table.now)) }
    {
        let read = key::text_or(self.alloc, table, key, default);
        let blank = Text::from_vec(Vec::new(self.alloc));
        self.keep(read, blank)
    }

    /// Reads the integer that a key holds, or takes its default.
    pub fn whole_or(&mut self, table: &Table, key: &str, default: i64) -> i64
        ensures { Step self.old.refusal self.new.refusal result
            (spec.otherwise default forms.whole key.now (table_view table.now)) }
    {
        let read = key::whole_or(self.alloc, table, key, default);
        self.keep(read, 0)
    }

    /// Reads the number that a key holds, or takes the one with a raw value.
    pub fn number_or<const F: u32>(&mut self, table: &Table, key: &str, default: i64) -> Fix<F>
        requires { F ≤ 40 }
        ensures { Step self.old.refusal self.new.refusal result
            (spec.otherwise (forms.raw F default) (forms.number F) key.now
            (table_view table.now)) }
    {
        let read = key::number_or::<F>(self.alloc, table, key, default);
        self.keep(read, Number::from_raw(0))
    }

    /// Reads the numbers that a key holds, or takes those with these raw values.
    pub fn numbers_or<const F: u32, const LEAST: usize, const MOST: usize>(
        &mut self,
        table: &Table,
        key: &str,
        default: &[i64],
    ) -> Array<Fix<F>>
        requires { F ≤ 40 }
        ensures { Step self.old.refusal self.new.refusal result
            (spec.otherwise (forms.raws F default.now) (forms.numbers F LEAST MOST) key.now
            (table_view table.now)) }
    {
        let read = key::numbers_or::<F, LEAST, MOST>(self.alloc, table, key, default);
        let blank = Array::from_vec(Vec::new(self.alloc));
        self.keep(read, blank)
    }

    /// Reads the numbers that a key holds, filled up by those with the raw values of `defaults`.
    pub fn filled<const F: u32, const LEAST: usize, const MOST: usize>(
        &mut self,
        table: &Table,
        key: &str,
        defaults: &[i64],
    ) -> Array<Fix<F>>
        requires { F ≤ 40 }
        ensures { Step self.old.refusal self.new.refusal result
            (spec.filled (forms.raws F defaults.now) (forms.numbers F LEAST MOST) key.now
            (table_view table.now)) }
    {
        let read = key::filled::<F, LEAST, MOST>(self.alloc, table, key, defaults);
        let blank = Array::from_vec(Vec::new(self.alloc));
        self.keep(read, blank)
    }

    /// Walks the table that a key holds, if the table has it.
    pub fn inside<T: Walk>(&mut self, format: u32, table: &Table, key: &str) -> Option<T>
        ensures { Step self.old.refusal self.new.refusal result
            (spec.inside (T.walked format) key.now (table_view table.now)) }
    {
        let read = table::inside::<T>(self.alloc, format, table, key);
        self.keep(read, None)
    }

    /// Walks the table that a key holds, or an empty one.
    pub fn inside_or_empty<T: Walk>(&mut self, format: u32, table: &Table, key: &str) -> T
        ensures { Step self.old.refusal self.new.refusal result
            (spec.inside_or_empty (T.walked format) key.now (table_view table.now)) }
    {
        let read = table::inside_or_empty::<T>(self.alloc, format, table, key);
        let blank = table::blank::<T>(self.alloc, format);
        self.keep(read, blank)
    }

    /// Walks each table of the array that a key holds, none without it.
    pub fn tables<T: Walk>(&mut self, format: u32, table: &Table, key: &str) -> Array<T>
        ensures { Step self.old.refusal self.new.refusal result
            (spec.tables (T.walked format) key.now (table_view table.now)) }
    {
        let read = table::tables::<T>(self.alloc, format, table, key);
        let blank = Array::from_vec(Vec::new(self.alloc));
        self.keep(read, blank)
    }

    /// Walks each table of the array that a key must hold.
    pub fn required_tables<T: Walk>(&mut self, format: u32, table: &Table, key: &str) -> Array<T>
        ensures { Step self.old.refusal self.new.refusal result
            (spec.required_tables (T.walked format) key.now (table_view table.now)) }
    {
        let read = table::required_tables::<T>(self.alloc, format, table, key);
        let blank = Array::from_vec(Vec::new(self.alloc));
        self.keep(read, blank)
    }
}
