//! The activities of a client: its packer and its net.
ghost use Rattle.std.specs.Prelude.{◌≡◌, ℕ, ◌+◌, ◌<◌, ◌≤◌, ◌++◌, ◌∷◌, [], ◌&&◌, false, None, IsSome, IsNone, is_none, OnOk, OnErr, count_by, length, take, if◌then◌else◌};
ghost use Rattle.match_script.specs.Ranges.{HasRanges};
ghost use Rattle.race_run.specs.Asking.{is_pack_of, net_line, net_lines};

use crate::asked::{is_net_of, is_pack_of, net_line};
use connection_lock::{DoneLines, SharedPair};
use dirty_lanes::{LaneName, Lanes};
use kept_pair::KeepFault;
use match_script::{BodyLine, MAX_BODY_LINES, Script};
use race_sim::{Actor, Gate, Place};
use std::alloc::Global;
use std::sync::Wait;
use std::sync::ledger::Ledger;
use tn_types::Steps;

/// One client of a match, as its activities have it.
#[derive(Drop)]
pub struct Served<'a, N: LaneName, G: Gate> {
    /// Where memory comes from.
    pub alloc: Global,
    /// The script, all lines of which are gone through.
    pub script: &'a Script,
    /// The lanes, from which its packs read.
    pub lanes: &'a Lanes<N>,
    /// What it passes before and after each of its lines.
    pub gate: &'a G,
    /// Its connection.
    pub pair: &'a SharedPair<N>,
    /// Its number.
    pub client: u8,
}

impl<'a, N: LaneName, G: Gate> Served<'a, N, G> {
    // The packer comes to a line. After a fault it does no more, but comes by the places that are left.
    fn pack_line<R: Wait, L: Ledger>(
        &self,
        rt: &R,
        place: u32,
        line: &BodyLine,
        stopped: Option<KeepFault>,
        packs: &mut Steps<L>,
    ) -> Option<KeepFault>
        ensures one { packs.new ≡ packs.old + (if is_pack_of self.now.client line.now && is_none stopped then 1 else 0) }
        ensures other { is_pack_of self.now.client line.now ≡ false → result ≡ stopped }
        ensures still { IsSome stopped → result ≡ stopped }
    {
        if !is_pack_of(self.client, line) {
            return stopped;
        }
        self.gate
            .pass(Actor::Packer(self.client), Place::Before(place));
        let stopped = match stopped {
            None => self.pair.pack(rt, self.alloc, self.lanes, packs).err(),
            fault => fault,
        };
        self.gate
            .pass(Actor::Packer(self.client), Place::After(place));
        stopped
    }

    // Gives the connection what a line asks of the client's net, which adds it to what was done.
    fn give<R: Wait>(&self, rt: &R, line: &BodyLine, done: &mut DoneLines) -> Result<(), KeepFault>
        requires room { length done.old < MAX_BODY_LINES }
        ensures given { OnOk result (done.new ≡ done.old ++ net_lines self.now.client (line.now ∷ [])) }
        ensures refused { OnErr result (done.new ≡ done.old) }
    {
        let Ok(asked) = net_line(self.alloc, self.client, line) else {
            return Err(KeepFault::NoMemory);
        };
        match asked {
            Some(asked) => match self.pair.net_turn(rt, self.alloc, asked, done) {
                Ok(_) => Ok(()),
                Err(fault) => Err(fault),
            },
            None => Ok(()),
        }
    }

    // The net comes to a line. After a fault it does no more, but comes by the places that are left.
    fn net_turn<R: Wait>(
        &self,
        rt: &R,
        place: u32,
        line: &BodyLine,
        stopped: Option<KeepFault>,
        done: &mut DoneLines,
    ) -> Option<KeepFault>
        requires room { length done.old < MAX_BODY_LINES }
        ensures given { result ≡ None → done.new ≡ done.old ++ net_lines self.now.client (line.now ∷ []) }
        ensures refused { IsSome result → done.new ≡ done.old }
        ensures other { IsNone (net_line self.now.client line.now) → result ≡ stopped }
        ensures still { IsSome stopped → result ≡ stopped }
    {
        if !is_net_of(self.client, line) {
            return stopped;
        }
        self.gate
            .pass(Actor::Net(self.client), Place::Before(place));
        let stopped = match stopped {
            None => self.give(rt, line, done).err(),
            fault => fault,
        };
        self.gate.pass(Actor::Net(self.client), Place::After(place));
        stopped
    }

    /// Does the `pack` lines of the client, in the order of the script: each is one pack under the lock, which `packs` counts. Gives
    /// the fault with which it stopped, if it did.
    pub fn pack<R: Wait, L: Ledger>(&self, rt: &R, packs: &mut Steps<L>) -> Option<KeepFault>
        requires { HasRanges self.now.script.now }
        ensures each { result ≡ None → packs.new ≡ packs.old + count_by (is_pack_of self.now.client) self.now.script.now.body }
        ensures most { packs.new ≤ packs.old + count_by (is_pack_of self.now.client) self.now.script.now.body }
    {
        let mut stopped = None;
        'lines: for (i, line) in self.script.body.as_slice().iter().enumerate() {
            stopped = self.pack_line(rt, i as u32, line, stopped, packs);
        }
        stopped
    }

    /// Does the client's own lines, and those of the net between it and the server, in the order of the script, and adds each to what
    /// was done. Gives the fault with which it stopped, if it did; from the first fault on no line is done.
    pub fn bring<R: Wait>(&self, rt: &R, done: &mut DoneLines) -> Option<KeepFault>
        requires ranges { HasRanges self.now.script.now }
        requires none { done.old ≡ [] }
        ensures all { result ≡ None → done.new ≡ net_lines self.now.client self.now.script.now.body }
        ensures first { (n : ℕ) × (done.new ≡ net_lines self.now.client (take n self.now.script.now.body)) }
    {
        let mut stopped = None;
        'lines: for (i, line) in self.script.body.as_slice().iter().enumerate() {
            stopped = self.net_turn(rt, i as u32, line, stopped, done);
        }
        stopped
    }
}
