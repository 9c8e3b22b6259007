//! The server's side: the world, and the end of the connection to one client.
ghost use Rattle.std.specs.Prelude.{◌≡◌, ◌≤◌, ◌<◌, length};
ghost use Rattle.notify_window.specs.State.{send_state};

use crate::game::{EDGE, MINE, TANK, block, config, kinds};
use conn_packing::{MAX_PACKET_VALUES, ping_into, seal_into};
use notify_window::SendState;
use std::alloc::Global;
use std::marker::Brand;
use std::sync::ledger::{Blank, Ledger};
use stream_manager::{ArriveFault, Conn};
use tn_types::{
    Choice, Class, MAX_BLOCKS, MAX_DISTANCE_LEVEL, MAX_FIELDS, MAX_READ_BYTES, MAX_SHOWS,
    MAX_UNACKNOWLEDGED_MOVES, Move, Payload, Steps, Verdict,
};

/// What there is: a tank and a mine, each with the number of its period, that is of its being shown to this client.
#[derive(Drop)]
pub struct World {
    pub tank: [i64; 3],
    pub mine: [i64; 2],
    tank_period: u32,
    mine_period: u32,
}

impl World {
    /// The value that a field of a period's object has now.
    fn value(&self, n: u32, field: u32) -> i64 {
        if n == self.tank_period {
            self.tank[(field % 3) as usize]
        } else {
            self.mine[(field % 2) as usize]
        }
    }

    /// Moves the tank.
    fn drive(&mut self, m: &Move) {
        self.tank[0] = self.tank[0].saturating_add(i64::from(m.dx)).clamp(0, EDGE);
        self.tank[1] = self.tank[1].saturating_add(i64::from(m.dy)).clamp(0, EDGE);
    }

    /// How far the tank is from the mine, by the greater of both axes.
    fn gap(&self) -> u64 {
        let [x, y, _] = self.tank;
        x.abs_diff(self.mine[0]).max(y.abs_diff(self.mine[1]))
    }
}

/// The server's side of one client.
#[derive(Drop)]
pub struct Host {
    conn: Conn,
    pub world: World,
}

/// Shows an object to the client, and gives the number of its period.
fn show(conn: &mut Conn, kind: u8, block: u8, control: bool) -> Result<u32, &'static str> {
    if !conn.has_kind(kind) || block as usize >= MAX_BLOCKS || conn.block(block).is_none() {
        return Err("no such kind or block");
    }
    if conn.is_full() || conn.shows() == MAX_SHOWS {
        return Err("as many objects are shown as may be");
    }
    if control && conn.has_control() {
        return Err("the client controls another object");
    }
    Ok(conn.show(kind, block, 0, control))
}

/// Lists the value of each field that the item carries, rising; gives how many are listed now.
fn list(choice: &Choice, world: &World, values: &mut [i64], before: usize) -> usize
    ensures { length values.new ≡ length values.old }
{
    let mut count = before;
    for field in 0..MAX_FIELDS as u32 {
        if choice.mask >> field & 1 == 1 {
            if let Some(place) = values.get_mut(count) {
                *place = world.value(choice.n, field);
                count = count.saturating_add(1);
            }
        }
    }
    count
}

/// Plans the next data packet, and lists the values that it asks for, as they are now; gives how many these are.
fn plan<L: Ledger>(conn: &mut Conn, blank: Blank, world: &World, values: &mut [i64]) -> usize
    requires name { blank.name ≡ L.name }
    requires parts { blank.parts ≡ L.parts }
    requires some { 0 < blank.parts }
    requires room { send_state conn.old.common.window ≡ SendState.Room }
{
    let mut steps: Steps<L> = Steps::new(blank);
    let mut count = 0;
    for choice in conn.plan(&mut steps) {
        count = list(choice, world, values, count);
    }
    count
}

impl Host {
    /// A new connection, which shows the tank, and lets the client control it, and the mine.
    pub fn new(alloc: Global) -> Result<Host, &'static str> {
        let Ok(config) = config() else {
            return Err("the configuration is out of its ranges");
        };
        let Ok(kinds) = kinds() else {
            return Err("the kinds make no table");
        };
        let blocks = [block(b"tank: a T-34")?, block(b"mine: a TM-46")?];
        let Ok(mut conn) = Conn::new(alloc, config, &kinds, &blocks) else {
            return Err("memory was not to be had");
        };
        let world = World {
            tank: [500, 500, 100],
            mine: [524, 490],
            tank_period: show(&mut conn, TANK, TANK, true)?,
            mine_period: show(&mut conn, MINE, MINE, false)?,
        };
        Ok(Host { conn, world })
    }

    /// Notes that fields of a period's object have new values: bit f stands for field f.
    fn changed(&mut self, n: u32, bits: u32) {
        if self.conn.is_up(n) && self.conn.has_fields(n, bits) {
            self.conn.absorb(n, bits);
        }
    }

    /// Posts an event that has to come, in its order.
    fn post(&mut self, text: &[u8]) -> Result<(), &'static str> {
        let payload = Payload::from_slice(text).ok_or("an event has more than 24 bytes")?;
        match self.conn.post(payload) {
            Ok(_number) => Ok(()),
            Err(_) => Err("256 events are unacknowledged, or the connection's life is over"),
        }
    }

    /// An object left the client's sight, or is no more.
    fn hide(&mut self, n: u32) {
        if self.conn.is_up(n) {
            self.conn.hide(n);
        }
    }

    /// Tells how far an object is: 0 is near, 3 far. Of two objects of one kind the nearer one goes first.
    fn near(&mut self, n: u32, level: u8) {
        if self.conn.is_up(n) && level <= MAX_DISTANCE_LEVEL {
            self.conn.near(n, level);
        }
    }

    /// The mine goes off: the tank loses armour, the mine is no longer shown, and an event tells why.
    fn blow_up(&mut self) -> Result<(), &'static str> {
        let (tank, mine) = (self.world.tank_period, self.world.mine_period);
        self.world.tank[2] = 60;
        self.changed(tank, 4);
        self.hide(mine);
        self.post(b"the mine went off")
    }

    /// Takes a datagram that came; gives how many moves it brought, or why it was refused and changed nothing.
    pub fn hear(&mut self, datagram: &[u8]) -> Option<Result<u32, ArriveFault>> {
        if datagram.len() > MAX_READ_BYTES || self.conn.waiting() > 0 {
            return None;
        }
        let room = MAX_UNACKNOWLEDGED_MOVES as u32;
        Some(match self.conn.arrive(datagram, room) {
            Ok(taken) => Ok(taken.moves),
            Err(fault) => Err(fault),
        })
    }

    /// The next event of the client.
    pub fn pop(&mut self) -> Option<(Class, Payload)> {
        self.conn.pop_event()
    }

    /// Plays the moves that the last datagram brought, and looks at the mine.
    pub fn play(&mut self) -> Result<(), &'static str> {
        let moves = self.conn.taken_moves();
        for m in moves.as_slice() {
            self.world.drive(m);
        }
        let (tank, mine) = (self.world.tank_period, self.world.mine_period);
        self.changed(tank, 3);
        let gap = self.world.gap();
        self.near(mine, if gap < 16 { 0 } else { 1 });
        if gap < 8 && self.conn.is_up(mine) {
            return self.blow_up();
        }
        Ok(())
    }

    /// Makes the data packet that was planned, with these values.
    fn seal(&mut self, values: &[i64], place: &mut [u8]) -> Option<usize> {
        if !self.conn.is_planned() || !self.conn.fits(values) {
            return None;
        }
        seal_into(&mut self.conn, values, place).ok()
    }

    /// Makes the next datagram at the beginning of the place, and gives how many bytes it has.
    pub fn tell(&mut self, place: &mut [u8]) -> Option<usize> {
        match self.conn.pack_state() {
            SendState::Room => {
                let mut values = [0; MAX_PACKET_VALUES];
                let asked = plan::<Brand>(&mut self.conn, Blank::new(1), &self.world, &mut values);
                self.seal(&values[..asked.min(MAX_PACKET_VALUES)], place)
            }
            SendState::Held => ping_into(&mut self.conn, place).ok(),
            SendState::Worn => None,
        }
    }

    /// The first packet that the last datagram told as lost.
    pub fn lost(&self) -> Option<u32> {
        let verdicts = self.conn.verdicts();
        for at in 0..verdicts.count() {
            if let Some((number, Verdict::Lost)) = verdicts.get(at) {
                return Some(number);
            }
        }
        None
    }
}
