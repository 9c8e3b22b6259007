//! A handle of a channel, which C holds.
ghost use Rattle.std.specs.Prelude.{◌≡◌, ◌↔◌, IsSome, IsNone, IfSome, IsTrue};
ghost use Rattle.std.specs.declared.option.Option.TheVariants.{Some};
ghost use Rattle.tribes_link.specs.declared.held_channel.HeldChannel.{HeldChannel};

use crate::held::Loose;
use crate::held_channel::HeldChannel;
use std::alloc::Global;
use std::mem;
use tribes_channel::Channel;

/// What the first number of a handle is where a channel is behind it.
pub const OPEN_CHANNEL: u32 = 1_414_676_803;

/// A handle: filled with zeros it has no channel.
#[repr(C)]
#[derive(Drop)]
pub struct ChannelHandle {
    pub(crate) state: u32,
    pub(crate) held: HeldChannel,
    ghost open: { state ≡ 1414676803 → IsSome held.value },
}

impl ChannelHandle {
    /// Whether a channel is behind it.
    pub fn is_open(&self) -> bool
        ensures { IsTrue result ↔ (self.now.state ≡ OPEN_CHANNEL) }
    {
        self.state == OPEN_CHANNEL
    }

    /// Takes the channel out of the handle.
    pub fn take(&mut self, alloc: Global) -> Option<Box<Channel>>
        ensures open { IsSome result ↔ (self.old.state ≡ OPEN_CHANNEL) }
        ensures taken { IfSome result (λ channel. self.old.held.value ≡ Some channel.value) }
        ensures empty { self.new.state ≡ OPEN_CHANNEL → ⊥ }
        ensures unchanged { IsNone result → self.new ≡ self.old }
    {
        if self.state != OPEN_CHANNEL {
            return None;
        }
        let none = ChannelHandle {
            state: 0,
            held: HeldChannel::none(alloc),
        };
        let ChannelHandle { state: _, held } = mem::replace(self, none);
        let channel = held.into_loose().into_box();
        Some(channel)
    }

    /// Puts a channel into the handle.
    pub fn put(&mut self, channel: Box<Channel>)
        ensures open { self.new.state ≡ OPEN_CHANNEL }
        ensures held { self.new.held.value ≡ Some channel.value }
    {
        *self = ChannelHandle {
            state: OPEN_CHANNEL,
            held: HeldChannel::of(Loose::of(channel)),
        };
    }
}
