//! The server's side: each block is sent until a packet that carries it is received.
ghost use Rattle.std.specs.Prelude.{◌≡◌, ℕ, List, [], ◌∷◌, ◌<◌, ◌≤◌, true, length, slice_get, Some, IfOk, map, if◌then◌else◌};
ghost use Rattle.std.specs.List.{slice_set};
ghost use Rattle.std.specs.Option.{option_copied};
ghost use Rattle.std.specs.Int.{bit_at};
ghost use Rattle.notify_window.specs.Log.{Fate};

use crate::progress::{due_between, first_open, settle_between, unsent};
use notify_window::Progress;
use std::alloc::{AllocError, Global};
use std::marker::Model;
use tn_types::{BlockBytes, MAX_BLOCKS, MAX_BLOCKS_AHEAD, NoMemory, Verdict};
use wire_format::ItemList;

/// Numbers of blocks, at most 16.
pub type DueBlocks = ItemList<u8, MAX_BLOCKS_AHEAD>;

/// The blocks of a script on their way to one client. Only `new` takes memory.
#[derive(Drop)]
pub struct BlockSender {
    blocks: Vec<BlockBytes>,
    progress: [Progress; MAX_BLOCKS],
    first: usize,
    received: u64,
}

impl Model for BlockSender {
    ghost use Rattle.datablocks.specs.SenderState.{SenderState, IsKept};

    ghost Value = { SenderState };

    ghost view = { λ s. record { blocks = s.blocks.items; progress = s.progress } };

    ghost invariant = { λ s. IsKept s.blocks.items s.progress s.first s.received };
}

impl BlockSender {
    ghost use Rattle.notify_window.specs.declared.progress.Progress.TheVariants.{Due, Carried};
    ghost use Rattle.notify_window.specs.Carriers.{progress_after};
    ghost use Rattle.datablocks.specs.ProgressWords.{progress_at, done_bit};
    ghost use Rattle.datablocks.specs.Sending.{due_of};
    ghost use Rattle.datablocks.specs.SenderState.{SenderState, IsDueBlock, is_due_now, due_now};
    ghost use Rattle.datablocks.specs.SenderStands.{StandsFor, SenderAnswers, Notes, Settles, TellsReceived};

    /// All of these blocks are due to the client, of which there are at most 64. `NoMemory` is the one error.
    pub fn new(alloc: Global, blocks: &[BlockBytes]) -> Result<BlockSender, NoMemory>
        requires { length blocks.now ≤ MAX_BLOCKS }
        ensures blocks { IfOk result (λ s. s.blocks ≡ blocks.now) }
        ensures due { IfOk result (λ s. (b : ℕ) → progress_at s.progress b ≡ Due) }
        ensures log { IfOk result (λ s. (fate : ℕ → Fate) → StandsFor s fate []) }
    {
        match copies(alloc, blocks) {
            Ok(blocks) => Ok(BlockSender::unsent(blocks)),
            Err(_) => Err(NoMemory),
        }
    }

    // None of these was sent.
    fn unsent(blocks: Vec<BlockBytes>) -> BlockSender
        requires { length blocks.items ≤ MAX_BLOCKS }
        ensures blocks { result.blocks ≡ blocks.items }
        ensures due { (b : ℕ) → progress_at result.progress b ≡ Due }
    {
        let progress = unsent();
        BlockSender {
            blocks,
            progress,
            first: 0,
            received: 0,
        }
    }

    /// The numbers of the due blocks, in order: those below the first one not acknowledged plus 16 that no
    /// unjudged or received packet carries (docs/connection.md, "Blocks").
    pub fn due(&self) -> DueBlocks
        ensures value { result ≡ due_now self.now }
        ensures log { SenderAnswers self.now (λ fate log. due_of fate log (length self.now.blocks)) result }
        ensures few { length self.now.blocks ≤ MAX_BLOCKS }
    {
        let end = (self.first + MAX_BLOCKS_AHEAD).min(self.blocks.len());
        due_between(&self.progress, self.first, end)
    }

    /// Packet `seq` was sent with this due block; the number is above that of every packet settled before.
    pub fn note(&mut self, number: u8, seq: u32)
        requires { IsDueBlock self.old number }
        ensures noted { self.new ≡ record self.old { progress = slice_set self.old.progress number (Carried seq) } }
        ensures others { (b : ℕ) → (b ≡ number → ⊥) → is_due_now self.new b ≡ is_due_now self.old b }
        ensures log { Notes self.old number seq self.new }
    {
        self.progress[usize::from(number)] = Progress::Carried(seq);
    }

    /// The verdict of packet `seq`: what it carried is done, or due again.
    pub fn settle(&mut self, seq: u32, verdict: Verdict)
        ensures blocks { self.new.blocks ≡ self.old.blocks }
        ensures settled { (b : ℕ) → progress_at self.new.progress b ≡ progress_after seq verdict (progress_at self.old.progress b) }
        ensures log { Settles self.old seq verdict self.new }
    {
        let count = self.blocks.len();
        let first = self.first;
        let end = (first + MAX_BLOCKS_AHEAD).min(count);
        self.received = settle_between(&mut self.progress, self.received, first, end, seq, verdict);
        self.first = first_open(&self.progress, first, count);
    }

    /// Bit b is set where a packet that carries block b is received.
    pub fn received(&self) -> u64
        ensures value { (b : ℕ) → b < MAX_BLOCKS → bit_at result b ≡ done_bit (progress_at self.now.progress b) }
        ensures log { TellsReceived self.now result }
    {
        self.received
    }

    /// The bytes of a block; `None` exactly where `new` was given none of this number.
    pub fn get(&self, number: u8) -> Option<&BlockBytes>
        ensures { option_copied result ≡ slice_get self.now.blocks number }
    {
        self.blocks.get(usize::from(number))
    }

    /// The bytes of a block that `new` was given.
    pub fn bytes(&self, number: u8) -> &BlockBytes
        requires { number < length self.now.blocks }
        ensures { slice_get self.now.blocks number ≡ Some result.now }
    {
        &self.blocks[usize::from(number)]
    }
}

// The same blocks again.
fn copies(alloc: Global, blocks: &[BlockBytes]) -> Result<Vec<BlockBytes>, AllocError>
    ensures { IfOk result (λ all. all.items ≡ blocks.now) }
{
    let mut all = Vec::with_capacity(alloc, blocks.len())?;
    for block in blocks {
        all.push(block.copy())?;
    }
    Ok(all)
}
