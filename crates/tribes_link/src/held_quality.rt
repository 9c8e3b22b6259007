//! A handle of a link's quality, which C holds.
ghost use Rattle.std.specs.Prelude.{◌≡◌, IsSome};
ghost use Rattle.std.specs.declared.option.Option.{Option};
ghost use Rattle.std.specs.declared.option.Option.TheVariants.{None, Some};
ghost use Rattle.link_quality.specs.declared.packets.LinkQuality.{LinkQuality};

use crate::held::Loose;
use link_quality::LinkQuality;
use std::alloc::Global;
use std::marker::Model;
use std::ptr::null_mut;

/// Nothing, or a link's quality and the right to free it.
#[repr(C)]
#[derive(Drop)]
pub struct HeldQuality {
    // a byte's pointer: C may not be handed one that leads to a box or a vector by its type
    at: *mut u8,
    alloc: Global,
    pub ghost value: { Option LinkQuality },
}

impl Model for HeldQuality {
    ghost use Rattle.link_quality.specs.contracts.packets.LinkQuality.{the_row};
    ghost use Rattle.tribes_link.specs.Owned.{owned};

    ghost also_owns = { λ h. owned the_row h.alloc h.at h.value };
}

impl HeldQuality {
    pub(crate) fn of(loose: Loose<LinkQuality, Global>) -> HeldQuality
        ensures { result.value ≡ Some loose.value }
    {
        let Loose { at, alloc } = loose;
        HeldQuality {
            at: at as *mut u8,
            alloc,
        }
    }

    pub(crate) fn into_loose(self) -> Loose<LinkQuality, Global>
        requires { IsSome self.value }
        ensures { self.value ≡ Some result.value }
    {
        let HeldQuality { at, alloc } = self;
        Loose {
            at: at as *mut LinkQuality,
            alloc,
        }
    }

    pub(crate) fn none(alloc: Global) -> HeldQuality
        ensures { result.value ≡ None }
    {
        HeldQuality {
            at: null_mut(),
            alloc,
        }
    }
}
