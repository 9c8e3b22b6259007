//! The blocks and the control slot of a packet that came, and what refuses them.
ghost use Rattle.std.specs.Prelude.{◌≡◌, ◌<◌, List, Ok, All, OnOk};
ghost use Rattle.wire_format.specs.declared.blocks.BlockItem.{BlockItem as OneBlock};
ghost use Rattle.datablocks.specs.Holding.{StandsFor, check_answer};
ghost use Rattle.ghost_client.specs.State.{copy_in};
ghost use Rattle.stream_manager.specs.Client.{blocks_check, control_fault, ghosts_refused};
ghost use Rattle.stream_manager.specs.Faults.{block_fault};
ghost use Rattle.demo_view.specs.Viewing.{at_client, as_client};

use crate::fault::ViewFault;
use datablocks::{BlockFault, BlockReceiver};
use ghost_client::{Copies, GhostFault};
use tn_types::MAX_BLOCKS;
use wire_format::BlockList;

/// The first block of a packet whose number is held with other bytes; nothing changes.
pub(crate) fn check_blocks(blocks: &BlockReceiver, list: &BlockList) -> Result<(), ViewFault>
    requires { All (λ item. item.number < MAX_BLOCKS) list.now }
    ensures answer { (came : List OneBlock) → StandsFor blocks.now came → as_client result ≡ blocks_check came list.now }
    ensures same { OnOk result (check_answer blocks.now list.now ≡ Ok tt) }
{
    match blocks.check(list) {
        Ok(()) => Ok(()),
        Err(fault) => Err(differing(fault)),
    }
}

/// The refusal as the viewer says it.
fn differing(fault: BlockFault) -> ViewFault
    ensures { at_client result ≡ block_fault fault }
{
    match fault {
        BlockFault::BlockDiffers { number } => ViewFault::BlockDiffers { number },
    }
}

/// Refuses a control slot that has no copy; nothing changes.
pub(crate) fn check_control(copies: &Copies, control: Option<u8>) -> Result<(), ViewFault>
    ensures { as_client result ≡ ghosts_refused (control_fault (copy_in copies.now.slots) control) }
{
    let Some(slot) = control else {
        return Ok(());
    };
    match copies.get(slot) {
        Some(_) => Ok(()),
        None => Err(ViewFault::Ghost(GhostFault::Unknown { slot })),
    }
}
