//! Which object each period is of.
ghost use Rattle.std.specs.Prelude.{◌≡◌, [], ◌∷◌, ◌++◌, ◌<◌, ◌^◌, OnOk, OnErr, length, slice_get};

use std::alloc::Global;
use std::marker::Model;
use tn_types::NoMemory;

/// The object of each period of a connection. A clause sees them as a list, by the numbers of the periods.
#[derive(Drop)]
pub struct Objects {
    objects: Vec<u32>,
}

impl Model for Objects {
    ghost use Rattle.std.specs.Prelude.{ℕ, List};

    ghost Value = { List ℕ };

    ghost view = { λ o. o.objects.items };
}

impl Objects {
    /// Those of no period.
    pub fn new(alloc: Global) -> Objects
        ensures { result ≡ [] }
    {
        Objects {
            objects: Vec::new(alloc),
        }
    }

    /// These, in order.
    pub(crate) fn of(objects: Vec<u32>) -> Objects
        ensures { result ≡ objects.items }
    {
        Objects { objects }
    }

    /// Adds the object of the next period.
    pub fn push(&mut self, _alloc: Global, object: u32) -> Result<(), NoMemory>
        ensures added { OnOk result (self.new ≡ self.old ++ object ∷ []) }
        ensures unchanged { OnErr result (self.new ≡ self.old) }
    {
        if self.objects.reserve(1).is_err() {
            return Err(NoMemory);
        }
        self.objects.push_reserved(object);
        Ok(())
    }

    /// How many periods these are.
    pub fn len(&self) -> u32
        requires { length self.now < 2 ^ 32 }
        ensures { result ≡ length self.now }
    {
        self.objects.len() as u32
    }

    /// The object of period `n`; `None` exactly where there is no such period.
    pub fn get(&self, n: u32) -> Option<u32>
        ensures { result ≡ slice_get self.now n }
    {
        self.objects.as_slice().get(n as usize).copied()
    }
}
