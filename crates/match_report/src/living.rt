//! What is told of a world's objects.
ghost use Rattle.std.specs.Prelude.{◌≡◌, ◌++◌, ◌∷◌, [], OnOk, OnErr};

use std::alloc::Global;
use std::marker::Model;
use tn_types::{MAX_FIELDS, NoMemory, ShortList};

/// The values of an object's fields, in order: at most 16.
pub type ValueList = ShortList<i64, MAX_FIELDS>;

/// A living object of a world.
#[derive(Drop)]
pub struct LivingObject {
    pub number: u32,
    /// The number of its kind.
    pub kind: u8,
    pub values: ValueList,
}

/// The living objects of a world, by rising number.
#[derive(Drop)]
pub struct Living {
    objects: Vec<LivingObject>,
}

impl Model for Living {
    ghost use Rattle.std.specs.Prelude.{List};
    ghost use Rattle.match_report.specs.declared.living.LivingObject.{LivingObject};

    ghost Value = { List LivingObject };

    ghost view = { λ l. l.objects.items };
}

impl Living {
    /// No object.
    pub fn new(alloc: Global) -> Self
        ensures { result ≡ [] }
    {
        Living {
            objects: Vec::new(alloc),
        }
    }

    /// Appends an object. Nothing changes for want of memory.
    pub fn push(&mut self, _alloc: Global, object: LivingObject) -> Result<(), NoMemory>
        ensures ok { OnOk result (self.new ≡ self.old ++ object ∷ []) }
        ensures err { OnErr result (self.new ≡ self.old) }
    {
        match self.objects.push(object) {
            Ok(()) => Ok(()),
            Err(_) => Err(NoMemory),
        }
    }

    /// The objects, lent.
    pub fn as_slice(&self) -> &[LivingObject]
        ensures { result.now ≡ self.now }
    {
        self.objects.as_slice()
    }
}
