//! One cell of the field.
ghost use Rattle.std.specs.Prelude.{◌≡◌, ◌<◌, ◌≤◌, vec_capacity, insert, IfOk, IfErr, [], length, slice_index};
ghost use Rattle.world_cells.specs.Rising.{IsRising, IsGap, put_in, without};

use std::alloc::{AllocError, Global};
use std::marker::Model;
use tn_types::MAX_OBJECTS;

/// The numbers of the objects in one cell, rising. There is room for all.
#[derive(Drop)]
pub(crate) struct Cell {
    numbers: Vec<u32>,
}

impl Model for Cell {
    ghost use Rattle.std.specs.Prelude.{ℕ, List, ◌≤◌, vec_capacity};
    ghost use Rattle.world_cells.specs.Rising.{IsRising};

    ghost Value = { List ℕ };

    ghost view = { λ a. a.numbers.items };

    ghost invariant = { λ a. IsRising 0 1024 a.numbers.items × (1024 ≤ vec_capacity a.numbers) };
}

impl Cell {
    // No number yet.
    pub(crate) fn new(alloc: Global) -> Result<Cell, AllocError>
        ensures { IfOk result (λ c. c ≡ []) }
    {
        Ok(Cell {
            numbers: Vec::with_capacity(alloc, MAX_OBJECTS)?,
        })
    }

    // Puts the number in its place, unless it is there.
    pub(crate) fn insert(&mut self, number: u32)
        requires { number < MAX_OBJECTS }
        ensures { self.new ≡ put_in number self.old }
    {
        if let Err(at) = find(&self.numbers, number) {
            put_at(&mut self.numbers, at, number);
        }
    }

    // Takes the number out, if it is there.
    pub(crate) fn remove(&mut self, number: u32)
        ensures { self.new ≡ without number self.old }
    {
        if let Ok(at) = find(&self.numbers, number) {
            self.numbers.remove(at);
        }
    }

    // The numbers, lent.
    pub(crate) fn as_slice(&self) -> &[u32]
        ensures { result.now ≡ self.now }
    {
        self.numbers.as_slice()
    }
}

// Where the number is, or would be.
fn find(numbers: &[u32], number: u32) -> Result<usize, usize>
    requires { IsRising 0 1024 numbers.now }
    ensures found { IfOk result (λ i. (i < length numbers.now) × (slice_index numbers.now i ≡ number)) }
    ensures absent { IfErr result (λ i. IsGap numbers.now number i) }
{
    numbers.binary_search(&number)
}

// Puts a number at this place.
fn put_at(numbers: &mut Vec<u32>, at: usize, number: u32)
    requires at { at ≤ length numbers.old.items }
    requires room { length numbers.old.items < vec_capacity numbers.old }
    ensures value { numbers.new.items ≡ insert numbers.old.items at number }
    ensures kept { vec_capacity numbers.old ≤ vec_capacity numbers.new }
{
    let _ = numbers.insert(at, number);
}
