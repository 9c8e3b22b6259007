//! The run of a relay script, and its report.
ghost use Rattle.std.specs.Prelude.{◌≡◌, ◌≤◌, ◌<◌, List, OnOk, OnErr, Err, length};
ghost use Rattle.tn_outside.specs.Causes.{HandsOn};
ghost use Rattle.tn_outside.specs.Totals.{Adds, AddsFront};
ghost use Rattle.relay_script.specs.Ranges.{HasRelayRanges};
ghost use Rattle.relay_script.specs.declared.types.PlacedLine.{PlacedLine as OneLine};
ghost use Rattle.relay_report.specs.Report.{relay_report};
ghost use Rattle.relay_report.specs.Laws.{PacksAreOfWhatWasMet, SameMetSamePacks, SameListsSamePacks};
ghost use Rattle.relay_node.specs.Node.{Keeps};
ghost use Rattle.relay_node.specs.Order.{StandAsInTheText};
ghost use Rattle.relay_node.specs.Running.{MayCatchUp, CatchesUp, MayStep, Steps, Writes};

use crate::laws::lines_stand_as_in_the_text;
use crate::node::Node;
use relay_report::{
    packs_are_of_what_was_met, put_relayed, same_lists_same_packs, same_met_same_packs,
};
use relay_script::{PlacedLine, RelayScript};
use std::alloc::Global;
use tn_outside::{RunFault, Sink, write_all};

// Does the lines of the match from one place up to another.
fn catch_up(
    alloc: Global,
    node: &mut Node,
    script: &RelayScript,
    from: usize,
    to: usize,
) -> Result<(), RunFault>
    requires { MayCatchUp node.old script.now from to }
    ensures goes { OnOk result (CatchesUp node.old script.now from to node.new) }
    ensures keeps { Keeps node.old node.new }
    ensures memory { OnErr result (result ≡ Err RunFault.NoMemory) }
{
    let lines = script.script.body.as_slice();
    for i in from..to {
        let Ok(()) = node.play(alloc, &lines[i]) else {
            return Err(RunFault::NoMemory);
        };
    }
    Ok(())
}

// Does a line of the relay and writes its line of the report. `text` is only a place for it.
fn step<K: Sink>(
    alloc: Global,
    node: &mut Node,
    placed: &PlacedLine,
    text: &mut Vec<u8>,
    sink: &mut K,
) -> Result<(), RunFault>
    requires { MayStep node.old placed.now }
    ensures steps { OnOk result (Steps node.old placed.now node.new) }
    ensures keeps { Keeps node.old node.new }
    ensures written { OnOk result (Writes Adds node.old placed.now (K.written sink.old) (K.written sink.new)) }
    ensures front { OnErr result (Writes AddsFront node.old placed.now (K.written sink.old) (K.written sink.new)) }
    ensures cause { HandsOn (K.faults sink.old) (K.faults sink.new) (result ≡ Err RunFault.WriteFault) }
{
    let Ok(told) = node.relay(alloc, &placed.line) else {
        return Err(RunFault::NoMemory);
    };
    text.clear();
    let Ok(()) = put_relayed(alloc, &told, text) else {
        return Err(RunFault::NoMemory);
    };
    node.let_go(told);
    match write_all(sink, text.as_slice()) {
        Ok(()) => Ok(()),
        Err(_) => Err(RunFault::WriteFault),
    }
}

// Runs a relay script. `text` is only a place for a line.
fn write_report<K: Sink>(alloc: Global, script: &RelayScript, sink: &mut K) -> Result<(), RunFault>
    requires { HasRelayRanges script.now }
    ensures report { OnOk result (Adds (K.written sink.old) (K.written sink.new) (relay_report script.now)) }
    ensures front { OnErr result (AddsFront (K.written sink.old) (K.written sink.new) (relay_report script.now)) }
    ensures cause { HandsOn (K.faults sink.old) (K.faults sink.new) (result ≡ Err RunFault.WriteFault) }
{
    let Ok(mut node) = Node::new(alloc, script) else {
        return Err(RunFault::NoMemory);
    };
    let mut text = Vec::new(alloc);
    let mut place = 0;
    let lines = script.lines.as_slice();
    'lines: for placed in lines {
        let behind = placed.behind as usize;
        catch_up(alloc, &mut node, script, place, behind)?;
        place = behind;
        step(alloc, &mut node, placed, &mut text, sink)?;
    }
    Ok(())
}

/// Runs a relay script, and writes the line of the report of each line of the relay (docs/relay.md), one line a write. After an error a
/// front of the report was written. Lines of the match after the relay's last line are not done, since nothing is told of them.
pub fn run_relay<K: Sink>(alloc: Global, script: &RelayScript, sink: &mut K) -> Result<(), RunFault>
    requires { HasRelayRanges script.now }
    ensures report { OnOk result (Adds (K.written sink.old) (K.written sink.new) (relay_report script.now)) }
    ensures front { OnErr result (AddsFront (K.written sink.old) (K.written sink.new) (relay_report script.now)) }
    ensures cause { HandsOn (K.faults sink.old) (K.faults sink.new) (result ≡ Err RunFault.WriteFault) }
    // The lines `r pack S` are a function of the header's numbers and blocks, the packets that the relay's client took, the lines of
    // spectator S, and the order of these.
    ensures packs_are_of_what_was_met { PacksAreOfWhatWasMet }
    // So two relay scripts that agree in these have the same such lines, and so have two whose matches tell the relay's client the same.
    ensures same_met_same_packs { SameMetSamePacks }
    ensures same_lists_same_packs { SameListsSamePacks }
    // What the report goes over are the lines of the text, in its order.
    ensures as_in_the_text { StandAsInTheText }
{
    lines_stand_as_in_the_text();
    packs_are_of_what_was_met();
    same_met_same_packs();
    same_lists_same_packs();
    write_report(alloc, script, sink)
}
