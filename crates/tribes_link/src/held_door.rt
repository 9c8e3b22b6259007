//! A handle of a door, which C holds.
ghost use Rattle.std.specs.Prelude.{◌≡◌, IsSome};
ghost use Rattle.std.specs.declared.option.Option.{Option};
ghost use Rattle.std.specs.declared.option.Option.TheVariants.{None, Some};
ghost use Rattle.greeting.specs.declared.door.Door.{Door};

use crate::held::Loose;
use greeting::Door;
use std::alloc::Global;
use std::marker::Model;
use std::ptr::null_mut;

/// Nothing, or a door and the right to free it.
#[repr(C)]
#[derive(Drop)]
pub struct HeldDoor {
    // a byte's pointer: C may not be handed one that leads to a box or a vector by its type
    at: *mut u8,
    alloc: Global,
    pub ghost value: { Option Door },
}

impl Model for HeldDoor {
    ghost use Rattle.greeting.specs.contracts.door.Door.{the_row};
    ghost use Rattle.tribes_link.specs.Owned.{owned};

    ghost also_owns = { λ h. owned the_row h.alloc h.at h.value };
}

impl HeldDoor {
    pub(crate) fn of(loose: Loose<Door, Global>) -> HeldDoor
        ensures { result.value ≡ Some loose.value }
    {
        let Loose { at, alloc } = loose;
        HeldDoor {
            at: at as *mut u8,
            alloc,
        }
    }

    pub(crate) fn into_loose(self) -> Loose<Door, Global>
        requires { IsSome self.value }
        ensures { self.value ≡ Some result.value }
    {
        let HeldDoor { at, alloc } = self;
        Loose {
            at: at as *mut Door,
            alloc,
        }
    }

    pub(crate) fn none(alloc: Global) -> HeldDoor
        ensures { result.value ≡ None }
    {
        HeldDoor {
            at: null_mut(),
            alloc,
        }
    }
}
