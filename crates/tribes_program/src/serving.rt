//! Which call a command leads to.
ghost use Rattle.std.specs.Prelude.{◌≡◌, [], Ok, true, false, map, string_bytes};
ghost use Rattle.script_input.specs.Reading.{seen};
ghost use Rattle.commands.specs.Grammar.{command_of};
ghost use Rattle.commands.specs.Rule.{CommandFits, Says};
ghost use Rattle.net_top.specs.Outcome.{told, met};
ghost use Rattle.tribes_program.specs.Answers.{DoneBy, Answers, IsRefused, ProgramLaws, port};

use crate::laws::laws_of_the_program;
use commands::{Command, command_of};
use demo_top::{top_demo, top_replay};
use match_top::{top_alone, top_big, top_run};
use net_top::{Offer, top_join, top_serve};
use predict_top::top_predict;
use relay_top::top_relay;
use script_input::Status;
use std::alloc::Global;
use std::sync::Wait;
use std::thread::Threads;
use threads_top::{Judgement, top_threads};
use tn_outside::{Clock, Link, SERVER_PORT, Sink, Source};

/// The port at which the command that these words are wants a link, 0 for a free one; `None` where it needs none, or they are no command.
pub fn port_of(words: &Vec<String>) -> Option<u16>
    ensures { result ≡ port (command_of (map string_bytes words.now.items)) }
{
    match command_of(words) {
        Ok(
            Command::Serve {
                seed: _,
                clients: _,
                turns: _,
            },
        ) => Some(SERVER_PORT),
        Ok(Command::Join { turns: _ }) => Some(0),
        _ => None,
    }
}

// Does what a command asks for.
fn serve<R: Threads + Wait + Sync, S: Source, L: Link, C: Clock, K: Sink>(
    rt: &R,
    alloc: Global,
    command: Command,
    source: &mut S,
    link: &mut L,
    clock: &mut C,
    judgement: &mut Judgement,
    sink: &mut K,
) -> Status
    requires fits { CommandFits command }
    requires open { judgement.old ≡ false }
    ensures done { DoneBy judgement.new command
        (seen (S.held source.old) (S.held source.new) (S.faults source.old) (S.faults source.new))
        (met (told (L.ahead link.old) (L.ahead link.new) (L.faults link.old) (L.faults link.new))
        (told (C.ahead clock.old) (C.ahead clock.new) (C.faults clock.old) (C.faults clock.new))
        (told (K.written sink.old) (K.written sink.new) (K.faults sink.old) (K.faults sink.new))
        (L.sent link.old) (L.sent link.new)) result }
    ensures handed { result ≡ Status.Done → K.gathered sink.new ≡ [] }
    ensures refused { judgement.new ≡ true → IsRefused (Ok command) result }
{
    match command {
        Command::Run => top_run(alloc, source, sink),
        Command::Alone { client } => top_alone(alloc, client, source, sink),
        Command::Big {
            seed,
            clients,
            steps,
        } => top_big(alloc, seed, clients, steps, sink),
        Command::Threads => top_threads(rt, alloc, source, judgement, sink),
        Command::Predict { client } => top_predict(alloc, client, source, sink),
        Command::Demo { client } => top_demo(alloc, client, source, sink),
        Command::Replay => top_replay(alloc, None, source, sink),
        Command::ReplayAt { count } => top_replay(alloc, Some(count), source, sink),
        Command::Relay => top_relay(alloc, source, sink),
        Command::Serve {
            seed,
            clients,
            turns,
        } => top_serve(
            alloc,
            Offer {
                seed,
                clients,
                turns,
            },
            link,
            clock,
            sink,
        ),
        Command::Join { turns } => top_join(alloc, turns, link, clock, sink),
    }
}

/// Does what the words ask for (docs/script.md, "The command line"): `serve` and `join` over the link and the clock, and each other command
/// over the source. What the sink gathers is handed on after the last byte. Where `threads` told a plain race, the judgement says so.
pub fn carry_out<R: Threads + Wait + Sync, S: Source, L: Link, C: Clock, K: Sink>(
    rt: &R,
    alloc: Global,
    words: &Vec<String>,
    source: &mut S,
    link: &mut L,
    clock: &mut C,
    judgement: &mut Judgement,
    sink: &mut K,
) -> Status
    requires open { judgement.old ≡ false }
    // Which command the words are, or where they stop being one.
    ensures words { Says (map string_bytes words.now.items) (command_of (map string_bytes words.now.items)) }
    // What the command is to do: what each answer says of the source, of the link, of the clock and of the sink, and which answer it is.
    ensures done { Answers judgement.new (command_of (map string_bytes words.now.items))
        (seen (S.held source.old) (S.held source.new) (S.faults source.old) (S.faults source.new))
        (met (told (L.ahead link.old) (L.ahead link.new) (L.faults link.old) (L.faults link.new))
        (told (C.ahead clock.old) (C.ahead clock.new) (C.faults clock.old) (C.faults clock.new))
        (told (K.written sink.old) (K.written sink.new) (K.faults sink.old) (K.faults sink.new))
        (L.sent link.old) (L.sent link.new)) result }
    // Where all was done, the sink keeps nothing of the text back.
    ensures handed { result ≡ Status.Done → K.gathered sink.new ≡ [] }
    // A race is refused only where the text of a plain one was written, or a front of it.
    ensures refused { judgement.new ≡ true → IsRefused (command_of (map string_bytes words.now.items)) result }
    ensures laws { ProgramLaws }
{
    laws_of_the_program();
    match command_of(words) {
        Ok(command) => serve(rt, alloc, command, source, link, clock, judgement, sink),
        Err(place) => Status::Usage(place),
    }
}
