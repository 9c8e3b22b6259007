//! The last verdicts, and how many of them are losses.
ghost use Rattle.std.specs.Prelude.{◌≡◌, ◌+◌, ◌<◌, [], ◌∷◌, take, slice_get, IfOk};
ghost use Rattle.link_quality.specs.Packets.{lost_in};
ghost use Rattle.link_quality.specs.Window.{loss_of, losses_of_option};

use circular_buffer::HeapCircularBuffer;
use std::alloc::Global;
use std::marker::Model;
use tn_types::{NoMemory, Verdict};

/// Of how many judged packets the losses are counted.
pub const JUDGED_PACKETS: usize = 64;

/// The newest verdicts, and how many of them are losses, in memory that is made once.
#[derive(Drop)]
pub(crate) struct VerdictWindow {
    verdicts: HeapCircularBuffer<Verdict>,
    lost: usize,
}

impl Model for VerdictWindow {
    ghost use Rattle.std.specs.Prelude.{List};
    ghost use Rattle.tn_types.specs.declared.choices.Verdict.{Verdict};
    ghost use Rattle.link_quality.specs.Window.{IsCounted};

    ghost Value = { List Verdict };

    ghost view = { λ w. w.verdicts.items };

    ghost invariant = { λ w. IsCounted w.verdicts.items w.verdicts.capacity w.lost };
}

// How many losses a verdict is.
fn loss_of(verdict: Verdict) -> usize
    ensures count { result ≡ loss_of verdict }
    ensures one { result < 2 }
{
    match verdict {
        Verdict::Received => 0,
        Verdict::Lost => 1,
    }
}

fn losses_of_option(verdict: Option<Verdict>) -> usize
    ensures count { result ≡ losses_of_option verdict }
    ensures one { result < 2 }
{
    match verdict {
        None => 0,
        Some(verdict) => loss_of(verdict),
    }
}

impl VerdictWindow {
    /// No verdict yet.
    pub(crate) fn new(alloc: Global) -> Result<VerdictWindow, NoMemory>
        ensures { IfOk result (λ w. w ≡ []) }
    {
        match HeapCircularBuffer::with_capacity(alloc, JUDGED_PACKETS) {
            Ok(verdicts) => Ok(VerdictWindow { verdicts, lost: 0 }),
            Err(_) => Err(NoMemory),
        }
    }

    /// How many of them are losses.
    pub(crate) fn lost(&self) -> usize
        ensures { result ≡ lost_in self.now }
    {
        self.lost
    }

    /// A further verdict, for which the oldest one goes if they are as many as are counted.
    #[tactic(auto, using(crate::proofs::Windows::slid, crate::proofs::Windows::few_lost, crate::proofs::Windows::was_counted))]
    pub(crate) fn add(&mut self, verdict: Verdict)
        ensures { self.new ≡ take JUDGED_PACKETS (verdict ∷ self.old) }
    {
        let out = self.verdicts.push_front(verdict);
        self.lost = self.lost + loss_of(verdict) - losses_of_option(out);
    }
}
