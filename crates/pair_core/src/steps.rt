//! Each kind of step by itself.
ghost use Rattle.std.specs.Prelude.{◌≡◌, true, ◌<◌, ◌≤◌, [], length};
ghost use Rattle.pair_core.specs.Answers.{post_answer};

use crate::pair::Pair;
use crate::step::Answer;
use conn_packing::stream_manager::ClientOut;
use event_manager::PostFault;
use tn_types::{Class, MAX_DATAGRAM_BYTES, MAX_DATAGRAMS, MoveBits, PacketKind, Payload};

/// What a guaranteed post answers.
fn posted(number: Result<u32, PostFault>) -> Answer
    ensures { result ≡ post_answer number }
{
    match number {
        Ok(number) => Answer::Posted { number },
        Err(fault) => Answer::PostRefused(fault),
    }
}

impl Pair {
    ghost use Rattle.pair_core.specs.History.{Show, Hide, Near, Post, ClientPost, Sample, ClientPack, Down, Up, Raw};
    ghost use Rattle.pair_core.specs.Answers.{answer};
    ghost use Rattle.pair_core.specs.Calls.{Meets, Does, Answers, HandsDown, HandsUp, Accepts, KeepsAtServer, KeepsAtClient, Unchanged};

    /// A period of an object begins.
    pub(crate) fn show(&mut self, kind: u8, block: u8, level: u8, control: bool) -> Answer
        requires { Meets self.old (Show kind block level control) }
        ensures answer { Answers self.old (λ t steps. answer t steps (Show kind block level control)) result }
        ensures stands { Does self.old (Show kind block level control) self.new }
        ensures keeps { KeepsAtServer self.old self.new }
        ensures unchanged { Unchanged self.old result self.new }
        ensures keeping { self.new.keeps_all ≡ self.old.keeps_all }
    {
        Answer::Period {
            n: self.conn.show(kind, block, level, control),
        }
    }

    /// A period ends.
    pub(crate) fn hide(&mut self, n: u32) -> Answer
        requires { Meets self.old (Hide n) }
        ensures answer { Answers self.old (λ t steps. answer t steps (Hide n)) result }
        ensures stands { Does self.old (Hide n) self.new }
        ensures keeps { KeepsAtServer self.old self.new }
        ensures unchanged { Unchanged self.old result self.new }
        ensures keeping { self.new.keeps_all ≡ self.old.keeps_all }
    {
        self.conn.hide(n);
        Answer::Done
    }

    /// A period's object is at another level of distance.
    pub(crate) fn near(&mut self, n: u32, level: u8) -> Answer
        requires { Meets self.old (Near n level) }
        ensures answer { Answers self.old (λ t steps. answer t steps (Near n level)) result }
        ensures stands { Does self.old (Near n level) self.new }
        ensures keeps { KeepsAtServer self.old self.new }
        ensures unchanged { Unchanged self.old result self.new }
        ensures keeping { self.new.keeps_all ≡ self.old.keeps_all }
    {
        self.conn.near(n, level);
        Answer::Done
    }

    /// The server posts an event.
    pub(crate) fn post(&mut self, class: Class, payload: Payload) -> Answer
        ensures answer { Answers self.old (λ t steps. answer t steps (Post class payload)) result }
        ensures stands { Does self.old (Post class payload) self.new }
        ensures keeps { KeepsAtServer self.old self.new }
        ensures unchanged { Unchanged self.old result self.new }
        ensures keeping { self.new.keeps_all ≡ self.old.keeps_all }
    {
        match class {
            Class::Guaranteed => posted(self.conn.post(payload)),
            Class::Loose => Answer::Loose {
                dropped: self.conn.post_loose(payload),
            },
        }
    }

    /// The client posts one.
    pub(crate) fn client_post(&mut self, class: Class, payload: Payload) -> Answer
        ensures answer { Answers self.old (λ t steps. answer t steps (ClientPost class payload)) result }
        ensures stands { Does self.old (ClientPost class payload) self.new }
        ensures keeps { KeepsAtClient self.old self.new }
        ensures unchanged { Unchanged self.old result self.new }
        ensures keeping { self.new.keeps_all ≡ self.old.keeps_all }
    {
        match class {
            Class::Guaranteed => posted(self.client.post(payload)),
            Class::Loose => Answer::Loose {
                dropped: self.client.post_loose(payload),
            },
        }
    }

    /// The client takes up a move.
    pub(crate) fn sample(&mut self, m: MoveBits) -> Answer
        ensures answer { Answers self.old (λ t steps. answer t steps (Sample m)) result }
        ensures stands { Does self.old (Sample m) self.new }
        ensures keeps { KeepsAtClient self.old self.new }
        ensures unchanged { Unchanged self.old result self.new }
        ensures keeping { self.new.keeps_all ≡ self.old.keeps_all }
    {
        match self.client.sample_bits(m) {
            Ok(number) => Answer::Sampled { number },
            Err(fault) => Answer::MoveRefused(fault),
        }
    }

    /// The client makes its next datagram.
    pub(crate) fn client_pack(&mut self) -> Answer
        requires prepared { self.old.prepared ≡ true }
        requires few { length self.old.up < MAX_DATAGRAMS }
        ensures answer { Answers self.old (λ t steps. answer t steps ClientPack) result }
        ensures stands { Does self.old ClientPack self.new }
        ensures keeps { KeepsAtClient self.old self.new }
        ensures unchanged { Unchanged self.old result self.new }
        ensures keeping { self.new.keeps_all ≡ self.old.keeps_all }
    {
        let place = self.up.len();
        // no datagram is longer than its size, nor that than 1,200
        let _config = self.client.config();
        match self.client.pack() {
            ClientOut::Ping(bytes) => {
                self.up.push(bytes);
                Answer::Packed {
                    kind: PacketKind::Ping,
                    place,
                }
            }
            ClientOut::Worn { life } => Answer::Worn { life },
            ClientOut::Body(bytes) => {
                self.up.push(bytes);
                Answer::Packed {
                    kind: PacketKind::Body,
                    place,
                }
            }
        }
    }

    /// The client gets the server's datagram of place `k`.
    pub(crate) fn bring_down(&mut self, k: u32) -> Answer
        requires kept { self.old.keeps_all ≡ true }
        requires none_waits { self.old.client.common.receiver.ready ≡ [] }
        ensures answer { Answers self.old (λ t steps. answer t steps (Down k)) result }
        ensures stands { Does self.old (Down k) self.new }
        ensures handed { HandsDown self.old (Down k) self.new }
        ensures keeps { self.new.conn ≡ self.old.conn }
        ensures unchanged { Unchanged self.old result self.new }
        ensures keeping { self.new.keeps_all ≡ self.old.keeps_all }
    {
        let Some(datagram) = self.down.get(k) else {
            return Answer::NotSent { k, sent: self.sent };
        };
        match self.client.arrive(datagram) {
            Ok(()) => Answer::Came { moves: 0 },
            Err(fault) => Answer::ClientRefused(fault),
        }
    }

    /// The server gets the client's datagram of place `k`.
    pub(crate) fn bring_up(&mut self, k: u32, room: u32) -> Answer
        requires { self.old.conn.common.receiver.ready ≡ [] }
        ensures answer { Answers self.old (λ t steps. answer t steps (Up k room)) result }
        ensures stands { Does self.old (Up k room) self.new }
        ensures handed { HandsUp self.old (Up k room) self.new }
        ensures moves { Accepts self.old (Up k room) result self.new }
        ensures keeps { self.new.client ≡ self.old.client }
        ensures unchanged { Unchanged self.old result self.new }
        ensures keeping { self.new.keeps_all ≡ self.old.keeps_all }
    {
        let Some(datagram) = self.up.get(k) else {
            return Answer::NotSent {
                k,
                sent: self.up.len(),
            };
        };
        match self.conn.arrive(datagram, room) {
            Ok(taken) => Answer::Came { moves: taken.moves },
            Err(fault) => Answer::ServerRefused(fault),
        }
    }

    /// The server gets these bytes.
    pub(crate) fn bring_raw(&mut self, bytes: &[u8], room: u32) -> Answer
        requires few { length bytes.now ≤ MAX_DATAGRAM_BYTES }
        requires none_waits { self.old.conn.common.receiver.ready ≡ [] }
        ensures answer { Answers self.old (λ t steps. answer t steps (Raw bytes.now room)) result }
        ensures stands { Does self.old (Raw bytes.now room) self.new }
        ensures handed { HandsUp self.old (Raw bytes.now room) self.new }
        ensures moves { Accepts self.old (Raw bytes.now room) result self.new }
        ensures keeps { self.new.client ≡ self.old.client }
        ensures unchanged { Unchanged self.old result self.new }
        ensures keeping { self.new.keeps_all ≡ self.old.keeps_all }
    {
        match self.conn.arrive(bytes, room) {
            Ok(taken) => Answer::Came { moves: taken.moves },
            Err(fault) => Answer::ServerRefused(fault),
        }
    }
}
