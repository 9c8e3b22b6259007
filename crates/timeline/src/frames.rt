//! The last values of one field, the newest first, in memory that is made once.
ghost use Rattle.std.specs.Prelude.{◌≡◌, ◌≤◌, ◌<◌, ◌-◌, [], ◌∷◌, take, length, IfOk};
ghost use Rattle.std.specs.VecDeque.{deque_len};
ghost use Rattle.timeline.specs.Lines.{moment_of};
ghost use Rattle.timeline.specs.Keeping.{ahead_of, value_in};

use crate::between::{Interpolation, Keyframe, between, moment};
use std::alloc::Global;
use std::collections::VecDeque;
use std::marker::Model;
use tn_types::{MAX_LIFE, NoMemory};

/// The keyframes of a field that are kept: the newest ones, as many as there is room for.
#[derive(Drop)]
pub struct Frames {
    frames: VecDeque<Keyframe>,
}

impl Model for Frames {
    ghost use Rattle.std.specs.Prelude.{◌≤◌, ◌<◌, All};
    ghost use Rattle.std.specs.VecDeque.{deque_capacity};
    ghost use Rattle.tn_types.specs.declared.limits.TheConstants.{MAX_LIFE};
    ghost use Rattle.timeline.specs.Keeping.{Kept};

    ghost Value = { Kept };

    ghost view = { λ f. record { room = deque_capacity f.frames; frames = f.frames.items } };

    ghost invariant = { λ f. (0 < deque_capacity f.frames) × All (λ k. k.packet ≤ MAX_LIFE) f.frames.items };
}

impl Frames {
    /// No keyframe, and memory for so many.
    pub fn new(alloc: Global, room: usize) -> Result<Frames, NoMemory>
        requires { 0 < room }
        ensures { IfOk result (λ f. f ≡ record { room = room; frames = [] }) }
    {
        match VecDeque::with_capacity(alloc, room) {
            Ok(frames) => Ok(Frames { frames }),
            Err(_) => Err(NoMemory),
        }
    }

    /// Lets go of all keyframes.
    pub fn clear(&mut self)
        ensures { self.new ≡ record self.old { frames = [] } }
    {
        self.frames.truncate(0);
    }

    /// Keeps a further keyframe, and lets the oldest go if there is no room for it.
    pub fn add(&mut self, frame: Keyframe)
        requires { frame.packet ≤ MAX_LIFE }
        ensures { self.new ≡ record self.old { frames = frame ∷ take (self.old.room - 1) self.old.frames } }
    {
        if self.frames.len() == self.frames.capacity() {
            let _ = self.frames.pop_back();
        }
        self.frames.push_front_reserved(frame);
    }

    /// The value at a moment: `None` exactly if no keyframe is kept.
    pub fn value(&self, how: Interpolation, at: u64) -> Option<i64>
        ensures { result ≡ value_in how at self.now.frames }
    {
        let count = self.frames.len();
        let n = ahead(&self.frames, at);
        if n == 0 {
            if count == 0 {
                return None;
            }
            let newest = self.frames[0];
            return Some(newest.value as i64);
        }
        let after = self.frames[n - 1];
        if n == count {
            return Some(after.value as i64);
        }
        let before = self.frames[n];
        Some(between(how, before, after, at))
    }
}

// How many are ahead of the moment: they are the newest ones.
fn ahead(frames: &VecDeque<Keyframe>, at: u64) -> usize
    ensures value { result ≡ ahead_of at frames.now.items }
    ensures within { result ≤ deque_len frames.now }
{
    let count = frames.len();
    'newest: for n in 0..count {
        if moment(frames[n].packet) <= at {
            return n;
        }
    }
    count
}
