//! Datagrams that come to either end.
ghost use Rattle.std.specs.Prelude.{◌≡◌, true, ◌≤◌, ◌<◌, ◌++◌, ◌∷◌, [], List, ℕ, IfOk, OnOk, length, map};
ghost use Rattle.stream_manager.specs.Limits.{Terms};
ghost use Rattle.own_lists.specs.pair_core.History.{Down, Up, Raw};
ghost use Rattle.own_lists.specs.pair_core.Answers.{answer, server_delivered};
ghost use Rattle.own_lists.specs.pair_core.Calls.{step_of, Stays, Unchanged};
ghost use Rattle.client_seat.specs.Answering.{TellsUp, ComesUp, room_for};
ghost use Rattle.own_lists.specs.Course.{Course, room_in, with_step};
ghost use Rattle.client_seat.specs.Stands.{Holds, StandsFor, Answers, Becomes};
ghost use Rattle.client_seat.specs.Told.{event_told, arrived_told, brought_down_told, brought_up_told, raw_told};

use crate::seat::Seat;
use match_report::{EventTold, Events, Told, Way};
use own_lists::pair_core::{Answer, Pair, PairStep};
use std::alloc::Global;
use tn_types::{MAX_WAITING_MOVES, NoMemory, RawBytes};

/// The events that wait at the client, which are handed out.
fn client_events(alloc: Global, pair: &mut Pair) -> Result<Events, NoMemory>
    ensures events { IfOk result (λ events. events ≡ map event_told pair.old.client.common.receiver.ready) }
    ensures none { OnOk result (pair.new.client.common.receiver.ready ≡ []) }
    ensures stands { Stays pair.old pair.new }
    ensures server { pair.new.conn ≡ pair.old.conn }
    ensures keeping { pair.new.keeps_all ≡ pair.old.keeps_all }
{
    let mut events = Events::new(alloc);
    // for its clauses
    let _waiting = pair.client_waiting();
    'out: while let Some((class, payload)) = pair.pop_client_event() {
        events.push(EventTold { class, payload })?;
    }
    Ok(events)
}

/// The events that wait at the server, which are handed out.
fn server_events(alloc: Global, pair: &mut Pair) -> Result<Events, NoMemory>
    ensures events { IfOk result (λ events. events ≡ map event_told pair.old.conn.common.receiver.ready) }
    ensures none { OnOk result (pair.new.conn.common.receiver.ready ≡ []) }
    ensures stands { Stays pair.old pair.new }
    ensures client { pair.new.client ≡ pair.old.client }
    ensures keeping { pair.new.keeps_all ≡ pair.old.keeps_all }
{
    let mut events = Events::new(alloc);
    // for its clauses
    let _waiting = pair.server_waiting();
    'out: while let Some((class, payload)) = pair.pop_server_event() {
        events.push(EventTold { class, payload })?;
    }
    Ok(events)
}

impl Seat {
    ghost use Rattle.client_seat.specs.Stands.{Stands};

    // How many more moves have a place.
    fn room(&self) -> u32
        ensures { Answers self.now room_in result }
    {
        MAX_WAITING_MOVES.saturating_sub(self.waiting.len()) as u32
    }

    // The server gets what the step brings, and the moves that it newly accepts wait. Its events wait to be handed out.
    fn bring(&mut self, step: &PairStep) -> Answer
        requires stands { Stands self.old }
        requires comes { ComesUp step.now }
        requires room { Answers self.old room_in (room_for step.now) }
        ensures answer { Answers self.old (λ t k. answer t k.steps (step_of step.now)) result }
        ensures one_of { TellsUp result }
        ensures holds { (t : Terms) (k : Course) → StandsFor self.old t k → Holds self.new t (with_step (step_of step.now) k) }
        ensures handed { (t : Terms) (k : Course) → StandsFor self.old t k
            → server_delivered t (step_of step.now ∷ k.steps)
            ≡ server_delivered t k.steps ++ self.new.pair.conn.common.receiver.ready }
        ensures client { self.new.pair.client ≡ self.old.pair.client }
        ensures unchanged { Unchanged self.old.pair result self.new.pair }
        ensures keeping { self.new.pair.keeps_all ≡ self.old.pair.keeps_all }
    {
        let answer = self.pair.step(step);
        if let Answer::Came { moves: _ } = answer {
            self.waiting.fill_from_slice(self.pair.conn().taken_bits());
        }
        answer
    }

    // The same, with what is told of it. Inlined, so that this is copied less often.
    #[inline(always)]
    fn arrive(
        &mut self,
        alloc: Global,
        way: Way,
        client: u8,
        k: u32,
        step: &PairStep,
    ) -> Result<Told, NoMemory>
        requires stands { Stands self.old }
        requires comes { ComesUp step.now }
        requires room { Answers self.old room_in (room_for step.now) }
        ensures told { IfOk result (Answers self.old (arrived_told way client k (step_of step.now))) }
        ensures stands { OnOk result (Becomes self.old (λ t course. with_step (step_of step.now) course) self.new) }
        ensures keeping { self.new.pair.keeps_all ≡ self.old.pair.keeps_all }
    {
        match self.bring(step) {
            Answer::Came { moves } => Ok(Told::Came {
                way,
                client,
                k,
                moves,
                events: server_events(alloc, &mut self.pair)?,
            }),
            Answer::NotSent { k: _, sent } => Ok(Told::NotSent {
                way,
                client,
                k,
                sent,
            }),
            Answer::ServerRefused(fault) => Ok(Told::ServerRefused {
                way,
                client,
                k,
                fault,
            }),
            _ => unreachable!(),
        }
    }

    /// The client gets the server's datagram of place `k`, and hands out the events that it delivers. All datagrams have to be kept.
    pub fn down(&mut self, alloc: Global, client: u8, k: u32) -> Result<Told, NoMemory>
        requires stands { Stands self.old }
        requires keeps_all { self.old.pair.keeps_all ≡ true }
        ensures told { IfOk result (Answers self.old (λ t course. brought_down_told client k t course.steps)) }
        ensures stands { OnOk result (Becomes self.old (λ t course. with_step (Down k) course) self.new) }
        ensures keeping { self.new.pair.keeps_all ≡ self.old.pair.keeps_all }
    {
        match self.pair.step(&PairStep::Down { k }) {
            Answer::Came { moves } => Ok(Told::Came {
                way: Way::Down,
                client,
                k,
                moves,
                events: client_events(alloc, &mut self.pair)?,
            }),
            Answer::NotSent { k: _, sent } => Ok(Told::NotSent {
                way: Way::Down,
                client,
                k,
                sent,
            }),
            Answer::ClientRefused(fault) => Ok(Told::ClientRefused { client, k, fault }),
            _ => unreachable!(),
        }
    }

    /// The server gets the client's datagram of place `k`, takes its moves as far as there is room, and hands out the events
    /// that it delivers.
    pub fn up(&mut self, alloc: Global, client: u8, k: u32) -> Result<Told, NoMemory>
        requires { Stands self.old }
        ensures told { IfOk result (Answers self.old (brought_up_told client k)) }
        ensures stands { OnOk result (Becomes self.old (λ t course. with_step (Up k (room_in t course)) course) self.new) }
        ensures keeping { self.new.pair.keeps_all ≡ self.old.pair.keeps_all }
    {
        let step = PairStep::Up {
            k,
            room: self.room(),
        };
        self.arrive(alloc, Way::Up, client, k, &step)
    }

    /// The server gets these bytes, which nobody need have sent, in the same way.
    pub fn raw(&mut self, alloc: Global, client: u8, bytes: RawBytes) -> Result<Told, NoMemory>
        requires { Stands self.old }
        ensures told { IfOk result (Answers self.old (raw_told client bytes)) }
        ensures stands { OnOk result (Becomes self.old (λ t course. with_step (Raw bytes (room_in t course)) course) self.new) }
        ensures keeping { self.new.pair.keeps_all ≡ self.old.pair.keeps_all }
    {
        let step = PairStep::Raw {
            bytes,
            room: self.room(),
        };
        self.arrive(alloc, Way::Raw, client, 0, &step)
    }
}
