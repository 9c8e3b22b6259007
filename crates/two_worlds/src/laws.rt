//! What a server writes that is fed a client's own list alone.

ghost use Rattle.two_worlds.specs.Laws.{WritesThePacks, SameListsSameLines};

/// What a server adds to its sink that is fed the whole own list of a client is the report's lines of the client's packs, byte
/// for byte (docs/proofs/match.md, "A server that serves one client alone").
pub fn writes_the_packs()
    ensures { WritesThePacks }
{}

/// Two matches that tell a client the same, with the same LIFE, SIZE and blocks, have the same lines of its packs
/// (docs/proofs/match.md, "A server that serves one client alone").
pub fn same_lists_same_lines()
    ensures { SameListsSameLines }
{}
