//! A line that is done on its client's connection alone.
ghost use Rattle.std.specs.Prelude.{◌≡◌, true, ℕ, ◌<◌, ◌∷◌, List, IfOk, OnOk, Some, length};
ghost use Rattle.match_script.specs.declared.types.Head.{Head};
ghost use Rattle.stream_manager.specs.Limits.{Terms};
ghost use Rattle.match_script.specs.Named.{client_named};
ghost use Rattle.match_laws.specs.own_lists.Kept.{Kept, after_line};
ghost use Rattle.match_laws.specs.own_lists.Past.{Past, client_terms, kept_by};
ghost use Rattle.match_laws.specs.client_seat.Stands.{Stands, StandsFor};
ghost use Rattle.match_laws.specs.Report.{told};
ghost use Rattle.match_engine.specs.Stands.{IsDirect, IsDown};

use bit_stream::bits_of_move;
use match_laws::client_seat::Seat;
use match_report::Told;
use match_script::BodyLine;
use std::alloc::Global;
use tn_types::{MAX_DATAGRAMS, NoMemory};

/// Does a line on the connection of the client that it names, and gives what the report tells of it. Inlined, so that what it
/// tells is copied less often. A line that brings what the server sent wants that all of it is kept.
#[inline(always)]
pub fn line_on(alloc: Global, seat: &mut Seat, line: &BodyLine) -> Result<Told, NoMemory>
    requires direct { IsDirect line.now }
    requires stands { Stands seat.old }
    requires few { length seat.old.pair.up < MAX_DATAGRAMS }
    requires kept { IsDown line.now → seat.old.pair.keeps_all ≡ true }
    ensures told { IfOk result (λ told_. (h : Head) (p q : Past) (c : ℕ) → client_named line.now ≡ Some c
        → StandsFor seat.old (client_terms h c) (kept_by h p c).course → told_ ≡ told h p q line.now) }
    ensures stands { OnOk result ((t : Terms) (k : Kept) → StandsFor seat.old t k.course
        → StandsFor seat.new t (after_line t line.now k).course) }
    ensures keeping { seat.new.pair.keeps_all ≡ seat.old.pair.keeps_all }
{
    match line {
        BodyLine::Post {
            client,
            class,
            payload,
        } => Ok(seat.post(*client, *class, payload.payload())),
        BodyLine::ClientPost {
            client,
            class,
            payload,
        } => Ok(seat.client_post(*client, *class, payload.payload())),
        BodyLine::ClientPack { client } => seat.client_pack(alloc, *client),
        BodyLine::Down { client, k } => seat.down(alloc, *client, *k),
        BodyLine::Up { client, k } => seat.up(alloc, *client, *k),
        BodyLine::Raw { client, bytes } => {
            let bytes = bytes.raw_bytes(alloc)?;
            seat.raw(alloc, *client, bytes)
        }
        BodyLine::Move { client, m } => Ok(seat.sample(*client, bits_of_move(m))),
        _ => unreachable!(),
    }
}
