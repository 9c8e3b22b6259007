//! A duel: both ends of a connection in one program, and between them a wire that loses every fifth datagram.
//!
//! The client drives its tank by moves, and fires once. The server moves the tank, tells of the shot by an event, and shows where the
//! tank is. What is lost comes with a later datagram, so that at the end both know the same.
#![tactic(auto)]

use std::alloc::Global;
use std::io;
use tribes_ends::{Ask, Class, ConfigRow, FieldRow, KindRow, Link, Packed, Refusal};

/// A tank is of the one kind of this game. Its fields are its place, x and y.
const TANK: KindRow = KindRow {
    fields: 2,
    weight: 8,
};

const PLACE: FieldRow = FieldRow {
    lo: 0,
    hi: 1_023,
    bits: 10,
};

const CONFIG: ConfigRow = ConfigRow {
    client: 0,
    life: 1_000,
    size: 128,
    version: 3,
    move_bits: 7,
};

/// A move has seven bits: how far the tank goes along x (three), how far back along y (three), and whether it fires.
const FIRES: u64 = 64;

#[derive(Drop)]
struct Duel {
    server: Link,
    client: Link,
    tank: [i64; 2],
    datagrams: u32,
}

impl Duel {
    fn new(alloc: Global) -> Result<Duel, Refusal> {
        let mut server = Link::server(alloc, &CONFIG, &[TANK], &[PLACE, PLACE], b"tank", &[4])?;
        server.show(0, 0, 0, true)?;
        Ok(Duel {
            server,
            client: Link::client(alloc, &CONFIG, &[TANK], &[PLACE, PLACE])?,
            tank: [500, 500],
            datagrams: 0,
        })
    }

    /// Whether the wire brings the next datagram.
    fn brings(&mut self) -> bool {
        self.datagrams = self.datagrams.wrapping_add(1);
        self.datagrams % 5 != 0
    }

    /// The server takes what came: it moves the tank by the client's moves, and tells of a shot.
    fn hear(&mut self, datagram: &[u8]) -> Result<(), Refusal> {
        let mut moves = [0; 32];
        self.server.arrive(datagram, 32)?;
        let brought = self.server.moves(&mut moves)? as usize;
        for bits in &moves[..brought.min(32)] {
            let bits = *bits;
            let [x, y] = self.tank;
            self.tank = [
                x.saturating_add((bits % 8) as i64).clamp(0, 1_023),
                y.saturating_sub((bits / 8 % 8) as i64).clamp(0, 1_023),
            ];
            self.server.changed(0, 3)?;
            if bits / FIRES % 2 == 1 {
                self.server.post(b"a shot", Class::Guaranteed)?;
            }
        }
        Ok(())
    }

    /// The server makes its next datagram: its end says which values it wants, and is given them.
    fn tell(&mut self, place: &mut [u8]) -> Result<Packed, Refusal> {
        let mut asks = [Ask::default(); 2_048];
        let mut values = [0; 2_048];
        let asked = self.server.ask(&mut asks)?.unwrap_or(0);
        for (value, ask) in values.iter_mut().zip(&asks) {
            *value = self.tank[(ask.field % 2) as usize];
        }
        self.server.pack(&values[..asked.min(2_048)], place)
    }

    /// A turn, in which the client may fire: a datagram goes up and one goes down. Gives where the client sees its tank then, if it
    /// does, and whether it heard of a shot.
    fn turn(&mut self, fire: bool) -> Result<(Option<[i64; 2]>, bool), Refusal> {
        let mut place = [0; 1_200];
        let (along, back, shot) = (3, 1, if fire { FIRES } else { 0 });
        self.client.sample(along + 8 * back + shot)?;
        let up = self.client.pack(&[], &mut place)?;
        if self.brings() {
            self.hear(up.bytes(&place))?;
        }
        let down = self.tell(&mut place)?;
        if self.brings() {
            self.client.arrive(down.bytes(&place), 0)?;
        }
        let mut event = [0; 24];
        let shot = self.client.pop(&mut event)?.is_some();
        let mut seen = [0; 2];
        match self.client.copy(0, &mut seen) {
            Ok(_) => Ok((Some(seen), shot)),
            Err(_) => Ok((None, shot)),
        }
    }
}

/// Tells of a turn.
fn print(
    rt: &HostRuntime,
    turn: u32,
    duel: &Duel,
    seen: Option<[i64; 2]>,
    shot: bool,
) -> io::Result<()> {
    let [x, y] = duel.tank;
    let heard = if shot { " and hears a shot" } else { "" };
    let Some(at) = seen else {
        return println!(rt; "turn {turn}: the tank is at {x} {y}, the client sees nothing{heard}");
    };
    let [at_x, at_y] = at;
    println!(rt; "turn {turn}: the tank is at {x} {y}, the client sees it at {at_x} {at_y}{heard}")
}

fn main(rt: HostRuntime) -> io::Result<()> {
    let mut duel = match Duel::new(rt.alloc()) {
        Ok(duel) => duel,
        Err(refusal) => return println!(rt; "{refusal:?}"),
    };
    for turn in 1..=9u32 {
        match duel.turn(turn == 5) {
            Ok((seen, shot)) => print(&rt, turn, &duel, seen, shot)?,
            Err(refusal) => return println!(rt; "turn {turn}: {refusal:?}"),
        }
    }
    Ok(())
}
