//! A handle of a channel, which C holds.
ghost use Rattle.std.specs.Prelude.{◌≡◌, IsSome};
ghost use Rattle.std.specs.declared.option.Option.{Option};
ghost use Rattle.std.specs.declared.option.Option.TheVariants.{None, Some};
ghost use Rattle.tribes_channel.specs.declared.channel.Channel.{Channel};

use crate::held::Loose;
use std::alloc::Global;
use std::marker::Model;
use std::ptr::null_mut;
use tribes_channel::Channel;

/// Nothing, or a channel and the right to free it.
#[repr(C)]
#[derive(Drop)]
pub struct HeldChannel {
    // a byte's pointer: C may not be handed one that leads to a box or a vector by its type
    at: *mut u8,
    alloc: Global,
    pub ghost value: { Option Channel },
}

impl Model for HeldChannel {
    ghost use Rattle.tribes_channel.specs.contracts.channel.Channel.{the_row};
    ghost use Rattle.tribes_link.specs.Owned.{owned};

    ghost also_owns = { λ h. owned the_row h.alloc h.at h.value };
}

impl HeldChannel {
    pub(crate) fn of(loose: Loose<Channel, Global>) -> HeldChannel
        ensures { result.value ≡ Some loose.value }
    {
        let Loose { at, alloc } = loose;
        HeldChannel {
            at: at as *mut u8,
            alloc,
        }
    }

    pub(crate) fn into_loose(self) -> Loose<Channel, Global>
        requires { IsSome self.value }
        ensures { self.value ≡ Some result.value }
    {
        let HeldChannel { at, alloc } = self;
        Loose {
            at: at as *mut Channel,
            alloc,
        }
    }

    pub(crate) fn none(alloc: Global) -> HeldChannel
        ensures { result.value ≡ None }
    {
        HeldChannel {
            at: null_mut(),
            alloc,
        }
    }
}
