// One op run, each kind by its own code.
#![tactic(auto)]

ghost use Rattle.std.specs.Prelude.{◌≡◌, false};
ghost use Rattle.ops.specs.Ops.{view_of};
ghost use Rattle.ops.specs.Kinds.{between, document01};
ghost use Rattle.ops.specs.Table.{row_of};
ghost use Rattle.block.specs.Scan.{record_at, Stands};
ghost use Rattle.runs.specs.Steps.{state_of, Performs, next_at};

use compute::compute_step;
use kinds::Kinds;
use runs::Outcome;
use step::other_step;

// The kinds 2d to 36 and ad to b6, or those of `other_step`, which do not compute.
fn bit_op(
    kinds: &Kinds,
    block: &[u8],
    at: usize,
    k: u8,
    globals: &mut [u64],
    temps: &mut [u64; 256],
    memory: &mut [u8],
) -> Outcome
    requires { Stands row_of block.now at k × (between 0x05 0x07 k ≡ false) × (between 0x11 0x29 k ≡ false) × (between 0x91 0xA9 k ≡ false) }
    ensures { Performs (view_of document01 (record_at row_of block.now at)) (next_at block.now at) (state_of globals.old temps.old memory.old) (state_of globals.new temps.new memory.new) result }
{
    match k {
        0x2d => compute_step(kinds, block, at, 0x2d, globals, temps),
        0x2e => compute_step(kinds, block, at, 0x2e, globals, temps),
        0x2f => compute_step(kinds, block, at, 0x2f, globals, temps),
        0x30 => compute_step(kinds, block, at, 0x30, globals, temps),
        0x31 => compute_step(kinds, block, at, 0x31, globals, temps),
        0x32 => compute_step(kinds, block, at, 0x32, globals, temps),
        0x34 => compute_step(kinds, block, at, 0x34, globals, temps),
        0x35 => compute_step(kinds, block, at, 0x35, globals, temps),
        0x36 => compute_step(kinds, block, at, 0x36, globals, temps),
        0xad => compute_step(kinds, block, at, 0xad, globals, temps),
        0xae => compute_step(kinds, block, at, 0xae, globals, temps),
        0xaf => compute_step(kinds, block, at, 0xaf, globals, temps),
        0xb0 => compute_step(kinds, block, at, 0xb0, globals, temps),
        0xb1 => compute_step(kinds, block, at, 0xb1, globals, temps),
        0xb2 => compute_step(kinds, block, at, 0xb2, globals, temps),
        0xb3 => compute_step(kinds, block, at, 0xb3, globals, temps),
        0xb4 => compute_step(kinds, block, at, 0xb4, globals, temps),
        0xb5 => compute_step(kinds, block, at, 0xb5, globals, temps),
        0xb6 => compute_step(kinds, block, at, 0xb6, globals, temps),
        _ => other_step(block, at, k, globals, temps, memory),
    }
}

// The kinds 91 to a9, or those of `bit_op`.
fn wide_op(
    kinds: &Kinds,
    block: &[u8],
    at: usize,
    k: u8,
    globals: &mut [u64],
    temps: &mut [u64; 256],
    memory: &mut [u8],
) -> Outcome
    requires { Stands row_of block.now at k × (between 0x05 0x07 k ≡ false) × (between 0x11 0x29 k ≡ false) }
    ensures { Performs (view_of document01 (record_at row_of block.now at)) (next_at block.now at) (state_of globals.old temps.old memory.old) (state_of globals.new temps.new memory.new) result }
{
    match k {
        0x91 => compute_step(kinds, block, at, 0x91, globals, temps),
        0x92 => compute_step(kinds, block, at, 0x92, globals, temps),
        0x93 => compute_step(kinds, block, at, 0x93, globals, temps),
        0x94 => compute_step(kinds, block, at, 0x94, globals, temps),
        0x95 => compute_step(kinds, block, at, 0x95, globals, temps),
        0x96 => compute_step(kinds, block, at, 0x96, globals, temps),
        0x97 => compute_step(kinds, block, at, 0x97, globals, temps),
        0x98 => compute_step(kinds, block, at, 0x98, globals, temps),
        0x99 => compute_step(kinds, block, at, 0x99, globals, temps),
        0x9a => compute_step(kinds, block, at, 0x9a, globals, temps),
        0x9b => compute_step(kinds, block, at, 0x9b, globals, temps),
        0x9c => compute_step(kinds, block, at, 0x9c, globals, temps),
        0x9d => compute_step(kinds, block, at, 0x9d, globals, temps),
        0x9e => compute_step(kinds, block, at, 0x9e, globals, temps),
        0x9f => compute_step(kinds, block, at, 0x9f, globals, temps),
        0xa0 => compute_step(kinds, block, at, 0xa0, globals, temps),
        0xa1 => compute_step(kinds, block, at, 0xa1, globals, temps),
        0xa2 => compute_step(kinds, block, at, 0xa2, globals, temps),
        0xa3 => compute_step(kinds, block, at, 0xa3, globals, temps),
        0xa4 => compute_step(kinds, block, at, 0xa4, globals, temps),
        0xa5 => compute_step(kinds, block, at, 0xa5, globals, temps),
        0xa6 => compute_step(kinds, block, at, 0xa6, globals, temps),
        0xa7 => compute_step(kinds, block, at, 0xa7, globals, temps),
        0xa8 => compute_step(kinds, block, at, 0xa8, globals, temps),
        0xa9 => compute_step(kinds, block, at, 0xa9, globals, temps),
        _ => bit_op(kinds, block, at, k, globals, temps, memory),
    }
}

// Runs the op of this kind that starts at a place: the kinds 05 to 07 and 11 to 29, or those of `wide_op`. The kinds that compute come first, so that the compiler makes one jump of all.
pub fn step(
    kinds: &Kinds,
    block: &[u8],
    at: usize,
    k: u8,
    globals: &mut [u64],
    temps: &mut [u64; 256],
    memory: &mut [u8],
) -> Outcome
    requires { Stands row_of block.now at k }
    ensures { Performs (view_of document01 (record_at row_of block.now at)) (next_at block.now at) (state_of globals.old temps.old memory.old) (state_of globals.new temps.new memory.new) result }
{
    match k {
        0x05 => compute_step(kinds, block, at, 0x05, globals, temps),
        0x06 => compute_step(kinds, block, at, 0x06, globals, temps),
        0x07 => compute_step(kinds, block, at, 0x07, globals, temps),
        0x11 => compute_step(kinds, block, at, 0x11, globals, temps),
        0x12 => compute_step(kinds, block, at, 0x12, globals, temps),
        0x13 => compute_step(kinds, block, at, 0x13, globals, temps),
        0x14 => compute_step(kinds, block, at, 0x14, globals, temps),
        0x15 => compute_step(kinds, block, at, 0x15, globals, temps),
        0x16 => compute_step(kinds, block, at, 0x16, globals, temps),
        0x17 => compute_step(kinds, block, at, 0x17, globals, temps),
        0x18 => compute_step(kinds, block, at, 0x18, globals, temps),
        0x19 => compute_step(kinds, block, at, 0x19, globals, temps),
        0x1a => compute_step(kinds, block, at, 0x1a, globals, temps),
        0x1b => compute_step(kinds, block, at, 0x1b, globals, temps),
        0x1c => compute_step(kinds, block, at, 0x1c, globals, temps),
        0x1d => compute_step(kinds, block, at, 0x1d, globals, temps),
        0x1e => compute_step(kinds, block, at, 0x1e, globals, temps),
        0x1f => compute_step(kinds, block, at, 0x1f, globals, temps),
        0x20 => compute_step(kinds, block, at, 0x20, globals, temps),
        0x21 => compute_step(kinds, block, at, 0x21, globals, temps),
        0x22 => compute_step(kinds, block, at, 0x22, globals, temps),
        0x23 => compute_step(kinds, block, at, 0x23, globals, temps),
        0x24 => compute_step(kinds, block, at, 0x24, globals, temps),
        0x25 => compute_step(kinds, block, at, 0x25, globals, temps),
        0x26 => compute_step(kinds, block, at, 0x26, globals, temps),
        0x27 => compute_step(kinds, block, at, 0x27, globals, temps),
        0x28 => compute_step(kinds, block, at, 0x28, globals, temps),
        0x29 => compute_step(kinds, block, at, 0x29, globals, temps),
        _ => wide_op(kinds, block, at, k, globals, temps, memory),
    }
}
