//! What a client holds of the datablocks.

ghost use Rattle.pair_laws.specs.Laws.{Always};
ghost use Rattle.pair_laws.specs.HeldBlocks.{HoldsBlocksAsGiven, HoldsReceivedBlocks};

/// Each datablock that the client holds is the one of its number that the connection was made with, whatever the network
/// did.
pub fn held_blocks_are_as_given()
    ensures { Always HoldsBlocksAsGiven }
{}

/// Each datablock that the server counts as received is held by the client, whatever the network did.
pub fn received_blocks_are_held()
    ensures { Always HoldsReceivedBlocks }
{}
