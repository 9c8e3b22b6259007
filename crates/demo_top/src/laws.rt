//! What the demo of a client tells.
ghost use Rattle.demo_top.specs.Laws.{TellsTheClient, DemoLaws};

use demo_replay::cut_demo_tells_a_front;

/// The demo of a client of a match, replayed, tells the events of the client's `down` lines in order, and at its end the client's copies.
pub fn replay_tells_the_client()
    ensures { TellsTheClient }
{}

/// What a demo tells that is cut.
pub fn laws_of_demos()
    ensures { DemoLaws }
{
    cut_demo_tells_a_front();
}
