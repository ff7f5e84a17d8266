// The values of the variables, in the lent globals and in an array of temporaries, and what a pure op states of them.
// Globals, temporaries and memory go through the run as three parameters: behind one reference a run took 3 to 14 per cent more instructions.
#![tactic(auto)]

ghost use Rattle.std.specs.Prelude.{◌≡◌, ◌+◌, ◌%◌, ◌<◌, eqb, get_or};
ghost use Rattle.runs.specs.Evaluates.{env_of, PutAt, Computed, inputs_at, states_at};
ghost use Rattle.ops.specs.Rows.{outs_in, ins_in, rest_in};
ghost use Rattle.ops.specs.Kinds.{one};
ghost use Rattle.ops.specs.Table.{kind_table};
ghost use Rattle.theory.specs.Machine.{reads};

use evaluate::eval;
use memory::byte_at;

// The value of a variable: a global by its number among those lent, any other by its number among the temporaries.
pub fn get(globals: &[u64], temps: &[u64; 256], v: u8) -> u64
    ensures { result ≡ env_of globals.now temps.now v }
{
    let i = usize::from(v);
    if i < globals.len() {
        return globals[i];
    }
    temps[i]
}

// A variable holds x.
pub fn put(globals: &mut [u64], temps: &mut [u64; 256], v: u8, x: u64)
    ensures { PutAt globals.old temps.old v x globals.new temps.new }
{
    let i = usize::from(v);
    if i < globals.len() {
        globals[i] = x;
    } else {
        marks::put(temps, v, x);
    }
}

// The value of the variable that a byte of the block names.
fn input(block: &[u8], i: usize, globals: &[u64], temps: &[u64; 256]) -> u64
    ensures { result ≡ env_of globals.now temps.now (get_or block.now i 0) }
{
    get(globals, temps, byte_at(block, i))
}

// movcond has four inputs, every other kind that computes two at most.
fn reads_four(kind: u8) -> bool
    ensures { result ≡ eqb (kind % 0x80) 0x29 }
{
    kind % 0x80 == 0x29
}

// What the op of this kind, with so many operands and so many bytes after them, states of its inputs and these bytes.
pub fn evaluate(
    operands: usize,
    rest: usize,
    block: &[u8],
    at: usize,
    kind: u8,
    globals: &[u64],
    temps: &[u64; 256],
) -> Option<u64>
    requires { Computed block.now at kind × (operands ≡ outs_in (get_or kind_table kind 0) + ins_in (get_or kind_table kind 0)) × (rest ≡ rest_in (get_or kind_table kind 0)) }
    ensures { states_at block.now at kind (reads (env_of globals.now temps.now) (inputs_at block.now at kind)) ≡ one result }
{
    let a = input(block, at + 2, globals, temps);
    let b = input(block, at + 3, globals, temps);
    let p = at + 1 + operands;
    let end = p + rest;
    if reads_four(kind) {
        let x = input(block, at + 4, globals, temps);
        let y = input(block, at + 5, globals, temps);
        return eval(kind, &block[p..end], a, b, x, y);
    }
    eval(kind, &block[p..end], a, b, 0, 0)
}
