//! A handle of a link's quality, which C holds.
ghost use Rattle.std.specs.Prelude.{◌≡◌, ◌↔◌, IsSome, IsNone, IfSome, IsTrue};
ghost use Rattle.std.specs.declared.option.Option.TheVariants.{Some};
ghost use Rattle.tribes_link.specs.declared.held_quality.HeldQuality.{HeldQuality};

use crate::held::Loose;
use crate::held_quality::HeldQuality;
use link_quality::LinkQuality;
use std::alloc::Global;
use std::mem;

/// What the first number of a handle is where a link's quality is behind it.
pub const OPEN_QUALITY: u32 = 1_364_541_772;

/// A handle: filled with zeros it has none.
#[repr(C)]
#[derive(Drop)]
pub struct QualityHandle {
    pub(crate) state: u32,
    pub(crate) held: HeldQuality,
    ghost open: { state ≡ 1364541772 → IsSome held.value },
}

impl QualityHandle {
    /// Whether a link's quality is behind it.
    pub fn is_open(&self) -> bool
        ensures { IsTrue result ↔ (self.now.state ≡ OPEN_QUALITY) }
    {
        self.state == OPEN_QUALITY
    }

    /// Takes it out of the handle.
    pub fn take(&mut self, alloc: Global) -> Option<Box<LinkQuality>>
        ensures open { IsSome result ↔ (self.old.state ≡ OPEN_QUALITY) }
        ensures taken { IfSome result (λ quality. self.old.held.value ≡ Some quality.value) }
        ensures empty { self.new.state ≡ OPEN_QUALITY → ⊥ }
        ensures unchanged { IsNone result → self.new ≡ self.old }
    {
        if self.state != OPEN_QUALITY {
            return None;
        }
        let none = QualityHandle {
            state: 0,
            held: HeldQuality::none(alloc),
        };
        let QualityHandle { state: _, held } = mem::replace(self, none);
        let quality = held.into_loose().into_box();
        Some(quality)
    }

    /// Puts one into the handle.
    pub fn put(&mut self, quality: Box<LinkQuality>)
        ensures open { self.new.state ≡ OPEN_QUALITY }
        ensures held { self.new.held.value ≡ Some quality.value }
    {
        *self = QualityHandle {
            state: OPEN_QUALITY,
            held: HeldQuality::of(Loose::of(quality)),
        };
    }
}
