// One op that computes a value.
#![tactic(auto)]

ghost use Rattle.ops.specs.Ops.{view_of};
ghost use Rattle.ops.specs.Kinds.{document01};
ghost use Rattle.ops.specs.Table.{row_of};
ghost use Rattle.block.specs.Scan.{record_at};
ghost use Rattle.runs.specs.Evaluates.{Computed, env_of};
ghost use Rattle.runs.specs.Steps.{PerformsAlone, next_at};

use kinds::Kinds;
use runs::{Outcome, Stop};
use values::{evaluate, put};

// A pure op that reads something: d, its inputs, and the bytes after them. A kind that is written out in the call lets the compiler make straight code for it.
pub fn compute_step(
    kinds: &Kinds,
    block: &[u8],
    at: usize,
    kind: u8,
    globals: &mut [u64],
    temps: &mut [u64; 256],
) -> Outcome
    requires { Computed block.now at kind }
    ensures { PerformsAlone (view_of document01 (record_at row_of block.now at)) (next_at block.now at) (env_of globals.old temps.old) (env_of globals.new temps.new) result }
{
    let entry = kinds.entry(kind);
    let stated = evaluate(
        entry.operand_count(),
        entry.rest(),
        block,
        at,
        kind,
        globals,
        temps,
    );
    let Some(v) = stated else {
        return Outcome::Stops(Stop::Unstated);
    };
    put(globals, temps, block[at + 1], v);
    Outcome::Falls(at + 1 + entry.body_length())
}
