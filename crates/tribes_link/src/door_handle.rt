//! A handle of a door, which C holds.
ghost use Rattle.std.specs.Prelude.{◌≡◌, ◌↔◌, IsSome, IsNone, IfSome, IsTrue};
ghost use Rattle.std.specs.declared.option.Option.TheVariants.{Some};
ghost use Rattle.tribes_link.specs.declared.held_door.HeldDoor.{HeldDoor};

use crate::held::Loose;
use crate::held_door::HeldDoor;
use greeting::Door;
use std::alloc::Global;
use std::mem;

/// What the first number of a handle is where a door is behind it.
pub const OPEN_DOOR: u32 = 1_146_048_338;

/// A handle: filled with zeros it has no door.
#[repr(C)]
#[derive(Drop)]
pub struct DoorHandle {
    pub(crate) state: u32,
    pub(crate) held: HeldDoor,
    ghost open: { state ≡ 1146048338 → IsSome held.value },
}

impl DoorHandle {
    /// Whether a door is behind it.
    pub fn is_open(&self) -> bool
        ensures { IsTrue result ↔ (self.now.state ≡ OPEN_DOOR) }
    {
        self.state == OPEN_DOOR
    }

    /// Takes the door out of the handle.
    pub fn take(&mut self, alloc: Global) -> Option<Box<Door>>
        ensures open { IsSome result ↔ (self.old.state ≡ OPEN_DOOR) }
        ensures taken { IfSome result (λ door. self.old.held.value ≡ Some door.value) }
        ensures empty { self.new.state ≡ OPEN_DOOR → ⊥ }
        ensures unchanged { IsNone result → self.new ≡ self.old }
    {
        if self.state != OPEN_DOOR {
            return None;
        }
        let none = DoorHandle {
            state: 0,
            held: HeldDoor::none(alloc),
        };
        let DoorHandle { state: _, held } = mem::replace(self, none);
        let door = held.into_loose().into_box();
        Some(door)
    }

    /// Puts a door into the handle.
    pub fn put(&mut self, door: Box<Door>)
        ensures open { self.new.state ≡ OPEN_DOOR }
        ensures held { self.new.held.value ≡ Some door.value }
    {
        *self = DoorHandle {
            state: OPEN_DOOR,
            held: HeldDoor::of(Loose::of(door)),
        };
    }
}
