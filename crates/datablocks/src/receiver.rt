//! The client's side: the blocks that it holds, whose bytes never change.
ghost use Rattle.std.specs.Prelude.{◌≡◌, ℕ, List, [], ◌<◌, ◌≤◌, Some, None, false, length, is_some, IsNone, IfOk, OnOk, OnErr};
ghost use Rattle.std.specs.List.{All};
ghost use Rattle.std.specs.Option.{option_copied};
ghost use Rattle.datablocks.specs.Holding.{held_at, differs_then};
ghost use Rattle.tn_types.specs.Histories.{Does, Answers};

use crate::words::with_bit;
use std::alloc::{AllocError, Global};
use std::marker::Model;
use tn_types::{BlockBytes, MAX_BLOCKS, NoMemory};
use wire_format::{BlockItem, BlockList};

/// Why a block of a packet is refused. What is held stays as it was.
#[derive(Clone, Copy, Debug, PartialEq, Eq)]
pub enum BlockFault {
    /// The block of this number, 0 to 63, came with other bytes than those that are held of it.
    BlockDiffers { number: u8 },
}

/// The blocks that a client holds. Only `new` and `try_clone` take memory.
#[derive(Drop)]
pub struct BlockReceiver {
    blocks: Vec<Option<BlockBytes>>,
    held: u64,
}

impl Model for BlockReceiver {
    ghost use Rattle.std.specs.Prelude.{List, ℕ, Option};
    ghost use Rattle.datablocks.specs.Holding.{IsHolding};

    ghost Value = { List (Option (List ℕ)) };

    ghost view = { λ r. r.blocks.items };

    ghost invariant = { λ r. IsHolding r.blocks.items r.held };
}

impl BlockReceiver {
    ghost use Rattle.datablocks.specs.Holding.{held_at, held_of, take_answer, after_take, check_answer, bytes_differ, after_all, TellsHeld, StandsFor};
    ghost use Rattle.wire_format.specs.declared.blocks.BlockItem.{BlockItem};

    /// No block is held. `NoMemory` is the one error.
    pub fn new(alloc: Global) -> Result<BlockReceiver, NoMemory>
        ensures { IfOk result (λ r. StandsFor r []) }
    {
        match places(alloc) {
            Ok(blocks) => Ok(BlockReceiver { blocks, held: 0 }),
            Err(_) => Err(NoMemory),
        }
    }

    /// An equal receiver, in memory of its own. `NoMemory` is the one error.
    pub fn try_clone(&self, alloc: Global) -> Result<BlockReceiver, NoMemory>
        ensures { IfOk result (λ c. c ≡ self.now) }
    {
        match copied_places(alloc, self.blocks.as_slice()) {
            Ok(blocks) => Ok(BlockReceiver {
                blocks,
                held: self.held,
            }),
            Err(_) => Err(NoMemory),
        }
    }

    /// Whether a block is held; false for a number from 64 on, which no block has.
    pub fn has(&self, number: u8) -> bool
        ensures value { result ≡ is_some (held_at self.now number) }
        ensures none { MAX_BLOCKS ≤ number → result ≡ false }
        ensures log { number < MAX_BLOCKS → Answers StandsFor self.now (λ log. is_some (held_of number log)) result }
    {
        usize::from(number) < MAX_BLOCKS && self.blocks[usize::from(number)].is_some()
    }

    /// The bytes of a block; `None` exactly where it isn't held, as no number from 64 on is.
    pub fn get(&self, number: u8) -> Option<&BlockBytes>
        ensures value { option_copied result ≡ held_at self.now number }
        ensures none { MAX_BLOCKS ≤ number → IsNone result }
        ensures log { number < MAX_BLOCKS → Answers StandsFor self.now (held_of number) (option_copied result) }
    {
        self.blocks.get(usize::from(number))?.as_ref()
    }

    /// Bit b is set where block b is held.
    pub fn held(&self) -> u64
        ensures value { TellsHeld result (held_at self.now) }
        ensures log { (log : List BlockItem) → StandsFor self.now log → TellsHeld result (λ b. held_of b log) }
    {
        self.held
    }

    /// Bit b is set where block b is held once these blocks were taken; nothing changes.
    pub fn held_after(&self, list: &BlockList) -> u64
        requires { All (λ item. item.number < MAX_BLOCKS) list.now }
        ensures { TellsHeld result (held_at (after_all self.now list.now)) }
    {
        let mut held = self.held;
        'items: for item in list.as_slice() {
            held = with_bit(held, usize::from(item.number));
        }
        held
    }

    /// Takes a block of a packet. `BlockDiffers` comes exactly where its number is held with other bytes, and
    /// nothing changes then; so no block's bytes ever change (docs/connection.md, "Blocks").
    pub fn take(&mut self, item: &BlockItem) -> Result<(), BlockFault>
        requires { item.now.number < MAX_BLOCKS }
        ensures answer { result ≡ take_answer self.old item.now }
        ensures taken { OnOk result (self.new ≡ after_take self.old item.now) }
        ensures kept { (b : ℕ) (bytes : List ℕ) → held_at self.old b ≡ Some bytes → held_at self.new b ≡ Some bytes }
        ensures refused { OnErr result (self.new ≡ self.old) }
        ensures log { OnOk result (Does StandsFor self.old item.now self.new) }
    {
        let number = usize::from(item.number);
        if self.differs(item) {
            return Err(BlockFault::BlockDiffers {
                number: item.number,
            });
        }
        self.blocks[number] = Some(item.bytes.copy());
        self.held = with_bit(self.held, number);
        Ok(())
    }

    /// The first refusal that taking these blocks in order would meet. A block of the list counts as held for the
    /// later ones.
    #[tactic(auto, using(crate::proofs::Taking::check_goes_on, crate::proofs::Taking::check_stops, crate::proofs::Taking::check_ends, crate::proofs::Taking::all_taken))]
    pub fn check(&self, list: &BlockList) -> Result<(), BlockFault>
        requires { All (λ item. item.number < MAX_BLOCKS) list.now }
        ensures { result ≡ check_answer self.now list.now }
    {
        let items = list.as_slice();
        for (i, item) in items.iter().enumerate() {
            let (before, _) = items.split_at(i);
            if self.differs_after(before, item) {
                return Err(BlockFault::BlockDiffers {
                    number: item.number,
                });
            }
        }
        Ok(())
    }

    // Whether the block is held with other bytes.
    fn differs(&self, item: &BlockItem) -> bool
        requires { item.now.number < MAX_BLOCKS }
        ensures value { result ≡ bytes_differ (held_at self.now item.now.number) item.now.bytes }
        ensures places { length self.now ≡ MAX_BLOCKS }
    {
        match &self.blocks[usize::from(item.number)] {
            Some(bytes) => bytes.as_slice() != item.bytes.as_slice(),
            None => false,
        }
    }

    // The same once the blocks before were taken.
    #[tactic(auto, using(crate::proofs::Taking::differs_more))]
    fn differs_after(&self, before: &[BlockItem], item: &BlockItem) -> bool
        requires before { All (λ item. item.number < MAX_BLOCKS) before.now }
        requires number { item.now.number < MAX_BLOCKS }
        ensures { result ≡ bytes_differ (held_at (after_all self.now before.now) item.now.number) item.now.bytes }
    {
        let mut differs = self.differs(item);
        for earlier in before {
            differs = differs_then(differs, earlier, item);
        }
        differs
    }
}

// Whether other bytes than the item's are held, once an earlier item was taken.
fn differs_then(before: bool, earlier: &BlockItem, item: &BlockItem) -> bool
    ensures { result ≡ differs_then before earlier.now item.now }
{
    if earlier.number == item.number {
        earlier.bytes.as_slice() != item.bytes.as_slice()
    } else {
        before
    }
}

// The same blocks again, place by place.
fn copied_places(
    alloc: Global,
    places: &[Option<BlockBytes>],
) -> Result<Vec<Option<BlockBytes>>, AllocError>
    ensures { IfOk result (λ all. all.items ≡ places.now) }
{
    let mut all = Vec::with_capacity(alloc, places.len())?;
    'places: for place in places {
        all.push(copied_place(place))?;
    }
    Ok(all)
}

// The same bytes again, where there are some.
fn copied_place(place: &Option<BlockBytes>) -> Option<BlockBytes>
    ensures { result ≡ place.now }
{
    match place {
        Some(bytes) => Some(bytes.copy()),
        None => None,
    }
}

// A place for each block.
#[tactic(auto, using(crate::proofs::Taking::none_more))]
fn places(alloc: Global) -> Result<Vec<Option<BlockBytes>>, AllocError>
    ensures places { IfOk result (λ places. length places.items ≡ MAX_BLOCKS) }
    ensures none { IfOk result (λ places. (b : ℕ) → held_at places.items b ≡ None) }
{
    let mut places = Vec::with_capacity(alloc, MAX_BLOCKS)?;
    for _ in 0..MAX_BLOCKS {
        places.push(None)?;
    }
    Ok(places)
}
