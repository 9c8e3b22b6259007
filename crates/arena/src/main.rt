//! A small game's network, step by step as docs/library.md goes: a client drives its tank over a mine, and what the wire loses comes
//! again.
#![tactic(auto)]

mod game;
mod guest;
mod host;

use game::TANK;
use guest::{Guest, Seen};
use host::Host;
use std::io;
use tn_types::{Move, Payload};

/// How many turns the game has.
const TURNS: u32 = 8;

/// Whether the wire brings the datagrams of this turn: up, down.
fn brings(turn: u32) -> (bool, bool) {
    (turn != 4, turn != 3 && turn != 5)
}

/// The client's move, and with the first one a word.
fn drive(guest: &mut Guest, turn: u32) -> Result<(), &'static str> {
    if turn == 1 {
        guest.wave();
    }
    guest.drive(Move {
        dx: 4,
        dy: -2,
        fire: false,
        act: false,
    })
}

/// The words of an event.
fn text_of(payload: &Payload) -> &str {
    match str::from_utf8(payload.as_slice()) {
        Ok(words) => words,
        Err(_) => "no words",
    }
}

/// A datagram goes up: the server hears the client's events, and plays its moves.
fn up(rt: &HostRuntime, guest: &mut Guest, host: &mut Host, comes: bool) -> io::Result<()> {
    let mut place = [0; 1_200];
    let Some(count) = guest.tell(&mut place) else {
        return println!(rt; "  up: the connection's life is over");
    };
    if !comes {
        return println!(rt; "  up: {count} bytes, lost");
    }
    match host.hear(&place[..count.min(1_200)]) {
        Some(Ok(moves)) => println!(rt; "  up: {count} bytes, moves: {moves}"),
        Some(Err(fault)) => println!(rt; "  up: refused: {fault}"),
        None => println!(rt; "  up: not taken"),
    }
}

/// What the server was told: events of the client, and a packet that was lost.
fn note(rt: &HostRuntime, host: &mut Host) -> io::Result<()> {
    if let Some(number) = host.lost() {
        println!(rt; "  the server learns that its packet {number} was lost")?;
    }
    if let Some((_class, payload)) = host.pop() {
        println!(rt; "  the server hears: {}", text_of(&payload))?;
    }
    if let Err(why) = host.play() {
        println!(rt; "  {why}")?;
    }
    Ok(())
}

/// A datagram goes down: the client takes the newest values, and the server's events.
fn down(rt: &HostRuntime, host: &mut Host, guest: &mut Guest, comes: bool) -> io::Result<()> {
    let mut place = [0; 1_200];
    let Some(count) = host.tell(&mut place) else {
        return println!(rt; "  down: the connection's life is over");
    };
    if !comes {
        return println!(rt; "  down: {count} bytes, lost");
    }
    match guest.hear(&place[..count.min(1_200)]) {
        Some(Ok(())) => println!(rt; "  down: {count} bytes, new: {}", guest.came_into_sight()),
        Some(Err(fault)) => println!(rt; "  down: refused: {fault}"),
        None => println!(rt; "  down: not taken"),
    }
}

/// Tells of an object that the client draws.
fn draw(rt: &HostRuntime, seen: Seen) -> io::Result<()> {
    let [x, y, armour] = seen.values;
    let whose = if seen.own { "its own" } else { "a" };
    if seen.kind == TANK {
        println!(rt; "  the client draws {whose} tank at {x} {y}, armour {armour}")
    } else {
        println!(rt; "  the client draws {whose} mine at {x} {y}")
    }
}

/// What the client shows after a turn: an event that came, and all copies.
fn show(rt: &HostRuntime, guest: &mut Guest) -> io::Result<()> {
    if let Some((_class, payload)) = guest.pop() {
        println!(rt; "  the client hears: {}", text_of(&payload))?;
    }
    for slot in 0..=255u8 {
        if let Some(seen) = guest.seen(slot) {
            draw(rt, seen)?;
        }
    }
    Ok(())
}

/// A turn of both sides.
fn turn(rt: &HostRuntime, number: u32, host: &mut Host, guest: &mut Guest) -> io::Result<()> {
    let (comes_up, comes_down) = brings(number);
    println!(rt; "turn {number}")?;
    if let Err(why) = drive(guest, number) {
        println!(rt; "  {why}")?;
    }
    up(rt, guest, host, comes_up)?;
    if comes_up {
        note(rt, host)?;
    }
    let [x, y, armour] = host.world.tank;
    println!(rt; "  the tank is at {x} {y}, armour {armour}")?;
    down(rt, host, guest, comes_down)?;
    show(rt, guest)
}

fn main(rt: HostRuntime) -> io::Result<()> {
    let (mut host, mut guest) = match (Host::new(rt.alloc()), Guest::new(rt.alloc())) {
        (Ok(host), Ok(guest)) => (host, guest),
        (Err(why), _) => return println!(rt; "{why}"),
        (_, Err(why)) => return println!(rt; "{why}"),
    };
    for number in 1..=TURNS {
        turn(&rt, number, &mut host, &mut guest)?;
    }
    Ok(())
}
