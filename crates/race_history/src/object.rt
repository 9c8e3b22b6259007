//! The values of the fields of one object.
ghost use Rattle.std.specs.Prelude.{◌≡◌, ◌<◌, ◌≤◌, ◌∷◌, ◌++◌, ℤ, List, [], OnOk, length, slice_get, slice_index_or};
ghost use Rattle.std.specs.Option.{unwrap_or};
ghost use Rattle.world_sim.specs.Rows.{differs};
ghost use Rattle.race_history.specs.Deciding.{Decides};
ghost use Rattle.race_history.specs.Growing.{changed_at, grown, is_new, reached, with_row};

use std::alloc::{AllocError, Global};
use std::marker::Model;
use tn_types::MAX_FIELDS;

/// The values of a field by version, the first one being version 0.
#[derive(Drop)]
pub(crate) struct FieldValues {
    values: Vec<i64>,
}

impl Model for FieldValues {
    ghost use Rattle.std.specs.Prelude.{ℤ, List};

    ghost Value = { List ℤ };

    ghost view = { λ f. f.values.items };
}

fn differs(a: &i64, b: &i64) -> bool
    ensures { result ≡ differs a.now b.now }
{
    *a < *b || *b < *a
}

fn is_equal(a: &i64, b: &i64) -> bool
    ensures { Decides result (a.now ≡ b.now) }
{
    *a == *b
}

fn is_new(told: &[i64], now: &i64) -> bool
    ensures { result ≡ is_new told.now now.now }
{
    told.is_empty() || differs(&told[told.len() - 1], now)
}

impl FieldValues {
    // No value yet.
    fn new(alloc: Global) -> FieldValues
        ensures { result ≡ [] }
    {
        FieldValues {
            values: Vec::new(alloc),
        }
    }

    // One more value: a version where it differs from the newest one.
    #[tactic(auto, using(crate::proofs::GrowLaws::news, crate::proofs::GrowLaws::stays))]
    fn add(&mut self, now: &i64) -> Result<(), AllocError>
        ensures { OnOk result (self.new ≡ grown self.old now.now) }
    {
        if is_new(&self.values, now) {
            self.values.push(*now)?;
        }
        Ok(())
    }

    // The values, lent.
    pub(crate) fn as_slice(&self) -> &[i64]
        ensures { result.now ≡ self.now }
    {
        self.values.as_slice()
    }

    // Whether these are the same values.
    fn is_same(&self, other: &FieldValues) -> bool
        ensures { Decides result (self.now ≡ other.now) }
    {
        if self.values.len() != other.values.len() {
            return false;
        }
        for (i, own) in self.values.iter().enumerate() {
            if !is_equal(own, &other.values[i]) {
                return false;
            }
        }
        true
    }
}

/// The fields of an object, each with its values.
#[derive(Drop)]
pub(crate) struct ObjectValues {
    fields: Vec<FieldValues>,
}

impl Model for ObjectValues {
    ghost use Rattle.std.specs.Prelude.{ℤ, List, ◌≤◌, length};
    ghost use Rattle.tn_types.specs.declared.limits.TheConstants.{MAX_FIELDS};

    ghost Value = { List (List ℤ) };

    ghost view = { λ o. o.fields.items };

    ghost invariant = { λ o. length o.fields.items ≤ MAX_FIELDS };
}

// Makes a place for field i, where there is none.
#[tactic(auto, using(crate::proofs::Extending::reached_there, crate::proofs::Extending::reached_end))]
fn reach(alloc: Global, fields: &mut Vec<FieldValues>, i: usize) -> Result<(), AllocError>
    requires next { i ≤ length fields.old.items }
    requires place { i < MAX_FIELDS }
    requires few { length fields.old.items ≤ MAX_FIELDS }
    ensures fields { OnOk result (fields.new.items ≡ reached [] fields.old.items i) }
    ensures there { OnOk result (i < length fields.new.items) }
    ensures few { length fields.new.items ≤ MAX_FIELDS }
{
    if i >= fields.len() {
        fields.push(FieldValues::new(alloc))?;
    }
    Ok(())
}

// Adds one more value of each field.
fn add_row(alloc: Global, fields: &mut Vec<FieldValues>, now: &[i64]) -> Result<(), AllocError>
    requires few { length fields.old.items ≤ MAX_FIELDS }
    requires now { length now.now ≤ MAX_FIELDS }
    ensures value { OnOk result (fields.new.items ≡ with_row fields.old.items now.now) }
    ensures few { length fields.new.items ≤ MAX_FIELDS }
{
    for (i, value) in now.iter().enumerate() {
        reach(alloc, fields, i)?;
        fields[i].add(value)?;
    }
    Ok(())
}

impl ObjectValues {
    // No field yet.
    pub(crate) fn new(alloc: Global) -> ObjectValues
        ensures { result ≡ [] }
    {
        ObjectValues {
            fields: Vec::new(alloc),
        }
    }

    // One more value of each field.
    pub(crate) fn add(&mut self, alloc: Global, now: &[i64]) -> Result<(), AllocError>
        requires { length now.now ≤ MAX_FIELDS }
        ensures { OnOk result (self.new ≡ with_row self.old now.now) }
    {
        add_row(alloc, &mut self.fields, now)
    }

    // One more value of one field, if it is there.
    #[tactic(auto, using(crate::proofs::Writing::changed_there, crate::proofs::Writing::unchanged_past))]
    pub(crate) fn add_to(&mut self, field: u8, now: &i64) -> Result<(), AllocError>
        ensures { OnOk result (self.new ≡ changed_at field (λ told. grown told now.now) self.old) }
    {
        let i = field as usize;
        if i >= self.fields.len() {
            return Ok(());
        }
        self.fields[i].add(now)
    }

    // How many fields these are.
    pub(crate) fn len(&self) -> u32
        ensures value { result ≡ length self.now }
        ensures few { result ≤ MAX_FIELDS }
    {
        self.fields.len() as u32
    }

    // The values of a field; none where there is no such field.
    pub(crate) fn versions(&self, field: u8) -> &[i64]
        ensures { result.now ≡ unwrap_or (slice_get self.now field) [] }
    {
        match self.fields.get(field as usize) {
            Some(values) => values.as_slice(),
            None => &[],
        }
    }

    // Whether these are the same values of the same fields.
    pub(crate) fn is_same(&self, other: &ObjectValues) -> bool
        ensures { Decides result (self.now ≡ other.now) }
    {
        if self.fields.len() != other.fields.len() {
            return false;
        }
        for (i, own) in self.fields.iter().enumerate() {
            if !own.is_same(&other.fields[i]) {
                return false;
            }
        }
        true
    }
}
