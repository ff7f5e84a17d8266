// The loop over the ops of an accepted block.
#![tactic(auto)]

ghost use Rattle.std.specs.Prelude.{◌≡◌, ◌+◌, ◌<◌, length};
ghost use Rattle.theory.specs.Machine.{cost};
ghost use Rattle.ops.specs.Limits.{max_ops};
ghost use Rattle.runs.specs.Runs.{answer_of};
ghost use Rattle.runs.specs.Steps.{end_of, state_of, ReadyToRun, Executed};

use dispatch::step;
use kinds::Kinds;
use limits::LABELS;
use runs::{Ending, Outcome, Stop};

// How a run ends that the op-th op ends, after so many: it counts where it exits or faults.
fn ended(stop: Stop, op: usize, count: u64) -> Ending
    requires { count < max_ops }
    ensures { Ok result ≡ answer_of (end_of stop) op (count + cost (end_of stop)) }
{
    match stop {
        Stop::Leaves(value) => Ending::Exit {
            value,
            count: count + 1,
        },
        Stop::Faults {
            store,
            address,
            flags,
            reason,
        } => Ending::Fault {
            store,
            address,
            flags,
            reason,
            count: count + 1,
        },
        Stop::Unstated => Ending::NoResult {
            position: op as u64,
            count,
        },
    }
}

// Runs the ops from the first on. A jump goes to its label's op, whose number the scan kept. The last op ends the run, so the loop's own
// end is never reached.
// A `while`: the next op is the next place, or where a jump goes.
pub fn execute(
    kinds: &Kinds,
    block: &[u8],
    start: usize,
    places: &[u16],
    labels: &[u16; LABELS],
    globals: &mut [u64],
    temps: &mut [u64; 256],
    memory: &mut [u8],
) -> Ending
    requires { ReadyToRun block.now places.now labels.now start (length places.now) }
    ensures { Executed block.now (state_of globals.old temps.old memory.old) (state_of globals.new temps.new memory.new) result }
{
    let mut op: usize = 0;
    let mut at = start;
    let mut count: u64 = 0;
    while op < places.len() {
        let kind = block[at];
        let outcome = step(kinds, block, at, kind, globals, temps, memory);
        match outcome {
            Outcome::Falls(next) => {
                op += 1;
                at = next;
            }
            Outcome::JumpsTo(l) => {
                op = usize::from(labels[usize::from(l)]) - 1;
                at = usize::from(places[op]);
            }
            Outcome::Stops(stop) => return ended(stop, op, count),
        }
        count += 1;
    }
    unreachable!()
}
