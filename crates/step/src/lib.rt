// One op that does not compute: what it does to the globals, the temporaries and the memory, and how the run goes on.
#![tactic(auto)]

ghost use Rattle.std.specs.Prelude.{◌≡◌, ◌+◌, ◌≤◌, ◌<◌, ◌%◌, ◌^◌, length, false};
ghost use Rattle.word.specs.Condition.{cond_w};
ghost use Rattle.memory.specs.Answer.{access_width};
ghost use Rattle.ops.specs.Ops.{view_of};
ghost use Rattle.ops.specs.Kinds.{document01};
ghost use Rattle.ops.specs.Rows.{is_computing, role_of};
ghost use Rattle.ops.specs.Table.{row_of};
ghost use Rattle.block.specs.Scan.{record_at, Stands};
ghost use Rattle.runs.specs.Evaluates.{env_of};
ghost use Rattle.runs.specs.Steps.{state_of, Performs, PerformsAlone, next_at, branch_op, load_op, store_op, constant_op};

use kinds::is_wide;
use memory::{from_little_endian, load, store};
use runs::{Outcome, Stop};
use values::{get, put};
use widths::condition;
use widths::convert::trunc_i64_i32;

// A condition at 64 bits, or at 32.
fn holds(c: u8, a: u64, b: u64, wide: bool) -> bool
    ensures { result ≡ cond_w (access_width wide) c (a % 2 ^ access_width wide) (b % 2 ^ access_width wide) }
{
    if wide {
        return condition::holds(c, a, b);
    }
    condition::holds(c, trunc_i64_i32(a), trunc_i64_i32(b))
}

// brcond: c1, c2, condition, label.
fn branch_step(block: &[u8], at: usize, wide: bool, globals: &[u64], temps: &[u64; 256]) -> Outcome
    requires { at + 4 < length block.now }
    ensures { PerformsAlone (branch_op block.now at wide) (at + 5) (env_of globals.now temps.now) (env_of globals.now temps.now) result }
{
    let a = get(globals, temps, block[at + 1]);
    let b = get(globals, temps, block[at + 2]);
    let label = block[at + 4];
    let next = at + 5;
    if holds(block[at + 3], a, b, wide) {
        return Outcome::JumpsTo(label);
    }
    Outcome::Falls(next)
}

// qemu_ld: d, address, flags.
fn load_step(
    block: &[u8],
    at: usize,
    wide: bool,
    globals: &mut [u64],
    temps: &mut [u64; 256],
    memory: &[u8],
) -> Outcome
    requires { at + 3 < length block.now }
    ensures { Performs (load_op block.now at wide) (at + 4) (state_of globals.old temps.old memory.now) (state_of globals.new temps.new memory.now) result }
{
    let address = get(globals, temps, block[at + 2]);
    let flags = block[at + 3];
    let next = at + 4;
    match load(memory, address, flags, wide) {
        Ok(x) => {
            put(globals, temps, block[at + 1], x);
            Outcome::Falls(next)
        }
        Err(reason) => Outcome::Stops(Stop::Faults {
            store: false,
            address,
            flags,
            reason,
        }),
    }
}

// qemu_st: value, address, flags.
fn store_step(
    block: &[u8],
    at: usize,
    globals: &[u64],
    temps: &[u64; 256],
    memory: &mut [u8],
) -> Outcome
    requires { at + 3 < length block.now }
    ensures { Performs (store_op block.now at) (at + 4) (state_of globals.now temps.now memory.old) (state_of globals.now temps.now memory.new) result }
{
    let value = get(globals, temps, block[at + 1]);
    let address = get(globals, temps, block[at + 2]);
    let flags = block[at + 3];
    let next = at + 4;
    match store(memory, address, flags, value) {
        Ok(()) => Outcome::Falls(next),
        Err(reason) => Outcome::Stops(Stop::Faults {
            store: true,
            address,
            flags,
            reason,
        }),
    }
}

// movi: d, eight bytes.
fn constant_step(block: &[u8], at: usize, globals: &mut [u64], temps: &mut [u64; 256]) -> Outcome
    requires { at + 10 ≤ length block.now }
    ensures { PerformsAlone (constant_op block.now at) (at + 10) (env_of globals.old temps.old) (env_of globals.new temps.new) result }
{
    let p = at + 2;
    let next = at + 10;
    put(
        globals,
        temps,
        block[at + 1],
        from_little_endian(&block[p..next]),
    );
    Outcome::Falls(next)
}

// Runs an op that does not compute. A record that is no op exits with 0. A `match`: the kinds are closed, and each has other operands.
pub fn other_step(
    block: &[u8],
    at: usize,
    kind: u8,
    globals: &mut [u64],
    temps: &mut [u64; 256],
    memory: &mut [u8],
) -> Outcome
    requires { Stands row_of block.now at kind × (is_computing (role_of row_of kind) ≡ false) }
    ensures { Performs (view_of document01 (record_at row_of block.now at)) (next_at block.now at) (state_of globals.old temps.old memory.old) (state_of globals.new temps.new memory.new) result }
{
    match kind {
        0x10 | 0x90 => constant_step(block, at, globals, temps),
        0x2b | 0xab => load_step(block, at, is_wide(kind), globals, temps, memory),
        0x2c | 0xac => store_step(block, at, globals, temps, memory),
        0x2a | 0xaa => branch_step(block, at, is_wide(kind), globals, temps),
        0x02 => Outcome::Falls(at + 2),
        0x03 => Outcome::JumpsTo(block[at + 1]),
        0x04 => Outcome::Stops(Stop::Leaves(get(globals, temps, block[at + 1]))),
        _ => Outcome::Stops(Stop::Leaves(0)),
    }
}
