// The pass of a block: the check, the classes of its variables, and room for what the passes leave.
#![tactic(auto)]

ghost use Rattle.std.specs.Prelude.{◌≡◌, cond, ℕ, ◌≤◌, ltb, length, get_or};
ghost use Rattle.ops.specs.Limits.{max_ops};
ghost use Rattle.block.specs.Scan.{RoomFor};
ghost use Rattle.passes.specs.Passes.{Optimised};
ghost use Rattle.passes.specs.Ready.{class_by, class_in};

use block::Refusal;
use laid::Ops;
use limits::{FEW_OPS, LABELS, MAX_OPS, SHORT_OPS};
use rewrite::{Source, write_result};
use scan::scan;
use shapes::Shapes;

// The class of the i-th variable, which has this byte, where so many are globals.
fn class_of(code: u8, i: usize, globals: usize) -> u8
    ensures { result ≡ class_by code i globals }
{
    if i < globals {
        return 0;
    }
    if code < 15 { 1 } else { 2 }
}

// The classes of n variables with these bytes: 0 globals, 1 local temporaries; 2 temporaries, and all that are not declared.
fn classes_of(base: &[u8; 256], globals: usize, n: usize) -> [u8; 256]
    requires { n ≤ 256 }
    ensures { (v : ℕ) → get_or result v 2 ≡ cond (ltb v n) (class_in base.now globals v) 2 }
{
    let codes: &[u8] = base;
    let mut of = [2u8; 256];
    for i in 0..n {
        of[i] = class_of(codes[i], i, globals);
    }
    of
}

// The pass of an accepted block, with room for the marks and the constants of ROOM ops.
fn write_in<const ROOM: usize>(source: &Source, out: &mut [u8]) -> Result<usize, Refusal>
    requires { (length source.now.ops.places.now ≤ ROOM) × (ROOM ≤ max_ops) }
    ensures { Optimised source.now.ops.block.now out.old result out.new }
{
    // Two arrays: one that holds a mark and its constant has 16 bytes an op, and the pass takes 7 to 14 per cent more instructions.
    let mut marks = [0u8; ROOM];
    let mut constants = [0u64; ROOM];
    write_result(source, &mut marks, &mut constants, out)
}

// The pass, with room for the places of the ops.
fn pass_with(block: &[u8], out: &mut [u8], places: &mut [u16]) -> Result<usize, Refusal>
    requires { RoomFor block.now places.old }
    ensures { Optimised block.now out.old result out.new }
{
    let mut base = [15u8; 256];
    let mut labels = [0u16; LABELS];
    let s = scan(block, &mut base, places, &mut labels)?;
    let shapes = Shapes::new();
    let classes = classes_of(&base, s.globals, s.variables);
    let ops = Ops {
        shapes: &shapes,
        block,
        places: &places[..s.ops],
    };
    let source = Source::new(ops, s.start, &classes);
    if s.ops <= FEW_OPS {
        return write_in::<FEW_OPS>(&source, out);
    }
    if s.ops <= SHORT_OPS {
        return write_in::<SHORT_OPS>(&source, out);
    }
    write_in::<MAX_OPS>(&source, out)
}

// The pass of a block: its result's length, the result in out; or the refusal.
pub fn pass(block: &[u8], out: &mut [u8]) -> Result<usize, Refusal>
    ensures { Optimised block.now out.old result out.new }
{
    if block.len() <= 2 * SHORT_OPS {
        return pass_with(block, out, &mut [0; SHORT_OPS]);
    }
    pass_with(block, out, &mut [0; MAX_OPS])
}
