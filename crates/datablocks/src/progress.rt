//! How far each block is on its way. A block is named by its place in a slice of 64.
ghost use Rattle.std.specs.Prelude.{◌≡◌, ℕ, ◌+◌, ◌<◌, ◌≤◌, ◌⊎◌, false, true, length};
ghost use Rattle.tn_types.specs.Least.{those_below, least};
ghost use Rattle.notify_window.specs.Carriers.{progress_after};
ghost use Rattle.datablocks.specs.ProgressWords.{progress_at, is_open, is_due_at, StaysPut, TellsDone};

use crate::sender::DueBlocks;
use crate::words::with_bit;
use notify_window::Progress;
use tn_types::{MAX_BLOCKS, MAX_BLOCKS_AHEAD, Verdict};

/// Of no block a packet was sent.
pub fn unsent() -> [Progress; MAX_BLOCKS]
    ensures due { (b : ℕ) → progress_at result b ≡ Progress.Due }
    ensures places { length result ≡ MAX_BLOCKS }
{
    [Progress::Due; MAX_BLOCKS]
}

/// The due blocks from `first` on and below `end`, where none before `first` is due.
#[tactic(auto, using(notify_window::proofs::Least::none_below))]
pub fn due_between(progress: &[Progress], first: usize, end: usize) -> DueBlocks
    requires inside { end ≤ length progress.now }
    requires place { length progress.now ≤ MAX_BLOCKS }
    requires rises { first ≤ end }
    requires near { end ≤ first + MAX_BLOCKS_AHEAD }
    requires before { (b : ℕ) → b < first → is_due_at progress.now b ≡ false }
    ensures { result ≡ those_below (is_due_at progress.now) end }
{
    let mut numbers = DueBlocks::new();
    for i in first..end {
        if progress[i].is_due() {
            numbers.push(i as u8);
        }
    }
    numbers
}

/// The first block from `first` on and below `count` that is not done, or `count`.
#[tactic(auto, using(notify_window::proofs::Least::least_is))]
pub fn first_open(progress: &[Progress], first: usize, count: usize) -> usize
    requires inside { count ≤ length progress.now }
    requires rises { first ≤ count }
    requires before { (b : ℕ) → b < first → is_open progress.now b ≡ false }
    ensures { result ≡ least (is_open progress.now) count }
{
    let mut i = first;
    while i < count && progress[i].is_done() {
        i += 1;
    }
    i
}

/// Applies a verdict to the blocks from `first` on and below `end`, and to the word that tells which are done.
pub fn settle_between(
    progress: &mut [Progress],
    received: u64,
    first: usize,
    end: usize,
    seq: u32,
    verdict: Verdict,
) -> u64
    requires inside { end ≤ length progress.old }
    requires place { length progress.old ≤ MAX_BLOCKS }
    requires rises { first ≤ end }
    requires outside { (b : ℕ) → (b < first) ⊎ (end ≤ b) → StaysPut seq verdict progress.old b }
    requires told { TellsDone received progress.old }
    ensures settled { (b : ℕ) → progress_at progress.new b ≡ progress_after seq verdict (progress_at progress.old b) }
    ensures told { TellsDone result progress.new }
{
    let mut received = received;
    for i in first..end {
        let now = progress[i].after_verdict(seq, verdict);
        progress[i] = now;
        if now.is_done() {
            received = with_bit(received, i);
        }
    }
    received
}
