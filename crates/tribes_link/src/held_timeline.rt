//! Nothing, or a timeline and the right to free it: what `Held` is to an end.
ghost use Rattle.std.specs.Prelude.{◌≡◌, IsSome};
ghost use Rattle.std.specs.declared.option.Option.{Option};
ghost use Rattle.std.specs.declared.option.Option.TheVariants.{None, Some};
ghost use Rattle.timeline.specs.declared.told.Timeline.{Timeline};

use crate::held::Loose;
use std::alloc::Global;
use std::marker::Model;
use std::ptr::null_mut;
use timeline::Timeline;

/// Nothing, or a timeline and the right to free it.
#[repr(C)]
#[derive(Drop)]
pub struct HeldTimeline {
    // a byte's pointer, as in `Held`
    at: *mut u8,
    alloc: Global,
    pub ghost value: { Option Timeline },
}

impl Model for HeldTimeline {
    ghost use Rattle.timeline.specs.contracts.told.Timeline.{the_row};
    ghost use Rattle.tribes_link.specs.Owned.{owned};

    ghost also_owns = { λ h. owned the_row h.alloc h.at h.value };
}

impl HeldTimeline {
    pub(crate) fn of(loose: Loose<Timeline, Global>) -> HeldTimeline
        ensures { result.value ≡ Some loose.value }
    {
        let Loose { at, alloc } = loose;
        HeldTimeline {
            at: at as *mut u8,
            alloc,
        }
    }

    pub(crate) fn into_loose(self) -> Loose<Timeline, Global>
        requires { IsSome self.value }
        ensures { self.value ≡ Some result.value }
    {
        let HeldTimeline { at, alloc } = self;
        Loose {
            at: at as *mut Timeline,
            alloc,
        }
    }

    pub(crate) fn none(alloc: Global) -> HeldTimeline
        ensures { result.value ≡ None }
    {
        HeldTimeline {
            at: null_mut(),
            alloc,
        }
    }
}
