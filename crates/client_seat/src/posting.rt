//! Events that both ends post, and moves that a client samples.
ghost use Rattle.std.specs.Prelude.{◌≡◌, ℕ, List, Option, Result};
ghost use Rattle.event_manager.specs.declared.sender.PostFault.{PostFault};
ghost use Rattle.move_manager.specs.declared.faults.MoveFault.{MoveFault};
ghost use Rattle.own_lists.specs.pair_core.declared.step.Answer.TheVariants as says;
ghost use Rattle.own_lists.specs.pair_core.History.{Post, ClientPost, Sample};
ghost use Rattle.own_lists.specs.pair_core.Answers.{post_answer, sample_answer};
ghost use Rattle.match_report.specs.declared.told.Told.TheVariants as told_as;
ghost use Rattle.client_seat.specs.Answering.{TellsPost, TellsMove};
ghost use Rattle.own_lists.specs.Course.{with_step};
ghost use Rattle.client_seat.specs.Told.{post_told, client_post_told, move_told};

use crate::seat::Seat;
use match_report::Told;
use own_lists::pair_core::{Answer, PairStep};
use tn_types::{Class, End, MoveBits, Payload};

/// What is told of a post, by its answer.
fn posted(by: End, client: u8, answer: Answer) -> Told
    requires { TellsPost answer }
    ensures guaranteed { (r : Result ℕ PostFault) → answer ≡ post_answer r → result ≡ told_as.Post by client r }
    ensures loose { (dropped : Option (List ℕ)) → answer ≡ says.Loose dropped → result ≡ told_as.PostLoose by client dropped }
{
    match answer {
        Answer::Posted { number } => Told::Post {
            by,
            client,
            number: Ok(number),
        },
        Answer::PostRefused(fault) => Told::Post {
            by,
            client,
            number: Err(fault),
        },
        Answer::Loose { dropped } => Told::PostLoose {
            by,
            client,
            dropped,
        },
        _ => unreachable!(),
    }
}

/// What is told of a move, by its answer.
fn moved(client: u8, answer: Answer) -> Told
    requires { TellsMove answer }
    ensures { (r : Result ℕ MoveFault) → answer ≡ sample_answer r → result ≡ told_as.Moved client r }
{
    match answer {
        Answer::Sampled { number } => Told::Moved {
            client,
            number: Ok(number),
        },
        Answer::MoveRefused(fault) => Told::Moved {
            client,
            number: Err(fault),
        },
        _ => unreachable!(),
    }
}

impl Seat {
    ghost use Rattle.client_seat.specs.Stands.{Stands, Answers, Becomes};

    /// The server posts an event.
    pub fn post(&mut self, client: u8, class: Class, payload: Payload) -> Told
        requires { Stands self.old }
        ensures told { Answers self.old (λ t k. post_told t k.steps client class) result }
        ensures stands { Becomes self.old (λ t k. with_step (Post class payload) k) self.new }
        ensures keeping { self.new.pair.keeps_all ≡ self.old.pair.keeps_all }
    {
        let answer = self.pair.step(&PairStep::Post { class, payload });
        posted(End::Server, client, answer)
    }

    /// The client posts an event.
    pub fn client_post(&mut self, client: u8, class: Class, payload: Payload) -> Told
        requires { Stands self.old }
        ensures told { Answers self.old (λ t k. client_post_told t k.steps client class) result }
        ensures stands { Becomes self.old (λ t k. with_step (ClientPost class payload) k) self.new }
        ensures keeping { self.new.pair.keeps_all ≡ self.old.pair.keeps_all }
    {
        let answer = self.pair.step(&PairStep::ClientPost { class, payload });
        posted(End::Client, client, answer)
    }

    /// The client samples a move of its player.
    pub fn sample(&mut self, client: u8, m: MoveBits) -> Told
        requires { Stands self.old }
        ensures told { Answers self.old (λ t k. move_told t k.steps client m) result }
        ensures stands { Becomes self.old (λ t k. with_step (Sample m) k) self.new }
        ensures keeping { self.new.pair.keeps_all ≡ self.old.pair.keeps_all }
    {
        let answer = self.pair.step(&PairStep::Sample { m });
        moved(client, answer)
    }
}
