//! The making of a course, line by line.
ghost use Rattle.std.specs.Prelude.{◌≡◌, ◌+◌, [], IfOk, OnOk, length, slice_index_or};
ghost use Rattle.match_script.specs.declared.types.BodyLine.TheVariants as script;
ghost use Rattle.match_script.specs.Ranges.{HeadFits};
ghost use Rattle.world_sim.specs.Worlds.{first_world};
ghost use Rattle.race_course.specs.Messages.{Ticks};
ghost use Rattle.race_course.specs.Course.{AreNew, Follows, IsMadeOf, MayFollow};

use crate::client::ClientCourse;
use match_script::{BodyLine, Head};
use race_history::{History, TickMoves};
use std::alloc::{AllocError, Global};
use std::marker::Model;
use tn_types::{Class, NoMemory, Payload};
use world_sim::World;

/// The world, the values so far, and the clients.
#[derive(Drop)]
pub(crate) struct Making {
    world: World,
    pub(crate) history: History,
    pub(crate) clients: Vec<ClientCourse>,
}

impl Model for Making {
    ghost use Rattle.race_course.specs.Course.{MakingState};

    ghost Value = { MakingState };

    ghost view = { λ m. record {
      world = m.world;
      values = m.history;
      clients = m.clients.items;
    } };
}

fn add_client(alloc: Global, clients: &mut Vec<ClientCourse>) -> Result<(), NoMemory>
    requires { AreNew clients.old.items }
    ensures count { OnOk result (length clients.new.items ≡ length clients.old.items + 1) }
    ensures clients { OnOk result (AreNew clients.new.items) }
{
    let client = ClientCourse::new(alloc)?;
    if clients.reserve(1).is_err() {
        return Err(NoMemory);
    }
    clients.push_reserved(client);
    Ok(())
}

// So many clients, before the first line.
fn first_clients(alloc: Global, count: u8) -> Result<Vec<ClientCourse>, NoMemory>
    ensures count { IfOk result (λ all. length all.items ≡ count) }
    ensures clients { IfOk result (λ all. AreNew all.items) }
{
    let mut clients = Vec::new(alloc);
    for _i in 0..count {
        add_client(alloc, &mut clients)?;
    }
    Ok(clients)
}

impl Making {
    // Before the first line of a script with this header.
    pub(crate) fn new(alloc: Global, head: &Head) -> Result<Making, NoMemory>
        requires { HeadFits head.now }
        ensures { IfOk result (λ m. (ticks : Ticks) → IsMadeOf m (first_world head.now.seed head.now.setup) ticks head.now.clients []) }
    {
        let world = World::new(alloc, head.seed, &head.setup)?;
        let mut history = History::new(alloc);
        history.add(alloc, &world)?;
        let clients = first_clients(alloc, head.clients)?;
        Ok(Making {
            world,
            history,
            clients,
        })
    }

    fn tick(&mut self, alloc: Global, moves: &TickMoves) -> Result<(), NoMemory>
        requires { MayFollow self.old moves.now script.Tick }
        ensures { OnOk result (Follows self.old self.new moves.now script.Tick) }
    {
        let Some(row) = moves.get(self.world.ticks()) else {
            unreachable!()
        };
        self.world.tick(alloc, row)?;
        self.history.add(alloc, &self.world)?;
        Ok(())
    }

    fn scan(&mut self, alloc: Global, client: u8) -> Result<(), NoMemory>
        requires { (ticks : Ticks) × MayFollow self.old ticks (script.Scan client) }
        ensures { OnOk result ((ticks : Ticks) → Follows self.old self.new ticks (script.Scan client)) }
    {
        self.clients[client as usize].scan(alloc, &self.world, client)
    }

    fn post(&mut self, client: u8, class: Class, payload: Payload) -> Result<(), AllocError>
        requires { (ticks : Ticks) × MayFollow self.old ticks (script.Post client class payload) }
        ensures { OnOk result ((ticks : Ticks) → Follows self.old self.new ticks (script.Post client class payload)) }
    {
        self.clients[client as usize].post(class, payload)
    }

    // Follows the next line of a script.
    pub(crate) fn follow(
        &mut self,
        alloc: Global,
        line: &BodyLine,
        moves: &TickMoves,
    ) -> Result<(), NoMemory>
        requires { MayFollow self.old moves.now line.now }
        ensures { OnOk result (Follows self.old self.new moves.now line.now) }
    {
        match line {
            BodyLine::Tick => self.tick(alloc, moves),
            BodyLine::Scan { client } => self.scan(alloc, *client),
            BodyLine::Post {
                client,
                class,
                payload,
            } => match self.post(*client, *class, payload.payload()) {
                Ok(()) => Ok(()),
                Err(_) => Err(NoMemory),
            },
            _ => Ok(()),
        }
    }
}
