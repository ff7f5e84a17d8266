// The run of a block.
#![tactic(auto)]

ghost use Rattle.std.specs.Prelude.{◌≡◌, length};
ghost use Rattle.ops.specs.Kinds.{document01};
ghost use Rattle.ops.specs.Table.{row_of};
ghost use Rattle.block.specs.Records.{records_of, ops_from};
ghost use Rattle.block.specs.Scan.{RoomFor};
ghost use Rattle.runs.specs.Runs.{ran_as, run_ops, Run};
ghost use Rattle.runs.specs.Steps.{ReadyToRun};

use block::Refusal;
use execute::execute;
use kinds::Kinds;
use lending::lent_ok;
use limits::{LABELS, MAX_OPS, SHORT_OPS};
use runs::Ending;
use scan::scan;

// Runs the ops of a block that the scan has accepted, on the lent globals and on temporaries that start at zero.
fn run_ops(
    kinds: &Kinds,
    block: &[u8],
    start: usize,
    places: &[u16],
    labels: &[u16; LABELS],
    globals: &mut [u64],
    memory: &mut [u8],
) -> Ending
    requires { ReadyToRun block.now places.now labels.now start (length places.now) }
    ensures { ran_as (Ok result) globals.new memory.new ≡ run_ops document01 (ops_from (records_of row_of block.now)) globals.old memory.old }
{
    let mut temps = [0u64; 256];
    execute(
        kinds, block, start, places, labels, globals, &mut temps, memory,
    )
}

// The run, with room for the places of the ops.
#[tactic(auto, using(runs::proofs::Ran::refused_ran, runs::proofs::Ran::ready_by))]
fn run_with(
    block: &[u8],
    globals: &mut [u64],
    memory: &mut [u8],
    places: &mut [u16],
) -> Result<Ending, Refusal>
    requires { RoomFor block.now places.old }
    ensures { Run block.now globals.old memory.old result globals.new memory.new }
{
    let mut base = [15u8; 256];
    let mut labels = [0u16; LABELS];
    let s = scan(block, &mut base, places, &mut labels)?;
    if !lent_ok(&base, s.globals, globals, memory) {
        return Err(Refusal {
            number: 11,
            place: 0,
        });
    }
    let kinds = Kinds::new();
    let ending = run_ops(
        &kinds,
        block,
        s.start,
        &places[..s.ops],
        &labels,
        globals,
        memory,
    );
    Ok(ending)
}

// Checks a block and runs it: how it ends, and the globals and memory that it leaves; or the refusal.
pub fn run(block: &[u8], globals: &mut [u64], memory: &mut [u8]) -> Result<Ending, Refusal>
    ensures { Run block.now globals.old memory.old result globals.new memory.new }
{
    if block.len() <= 2 * SHORT_OPS {
        return run_with(block, globals, memory, &mut [0; SHORT_OPS]);
    }
    run_with(block, globals, memory, &mut [0; MAX_OPS])
}
