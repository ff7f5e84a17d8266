// Prune: the ops that liveness keeps, read backward.
#![tactic(auto)]

ghost use Rattle.std.specs.Prelude.{◌≡◌, cond, ◌-◌, ◌≤◌, eqb, length};
ghost use Rattle.theory.specs.Prune.{dead};
ghost use Rattle.ops.specs.Limits.{max_ops};
ghost use Rattle.ops.specs.Ops.{view_of};
ghost use Rattle.ops.specs.Kinds.{document01};
ghost use Rattle.ops.specs.Table.{row_of};
ghost use Rattle.block.specs.Rules.{globals_in, kept_in};
ghost use Rattle.block.specs.Scan.{record_at};
ghost use Rattle.passes.specs.Knows.{folded_ops, Noted};
ghost use Rattle.passes.specs.Laid.{ops_at};
ghost use Rattle.passes.specs.Live.{live_of, Classed, Keeps};

use laid::{Op, Ops};
use live::{is_live, live_before};

// Whether an op is pure and its output is not live after it.
fn dead_op(op: &Op, events: &[u16; 256], floors: &[u16; 4], classes: &[u8; 256]) -> bool
    ensures { result ≡ dead (view_of document01 (record_at row_of op.now.block.now op.now.at)) (live_of events.now floors.now classes.now) }
{
    if !op.shape.is_pure() {
        return false;
    }
    !is_live(events, floors, classes, op.block[op.at + 1])
}

// The length of what fold leaves of the op from a place to the next.
fn length_left(mark: u8, at: usize, next: usize) -> usize
    requires { at ≤ next }
    ensures { result ≡ cond (eqb mark 1) 10 (next - at) }
{
    if mark == 1 {
        return 10;
    }
    next - at
}

// Prune of what fold leaves, read backward: those that are dropped are marked 2; how many bytes the others have.
pub fn prune(ops: &Ops, classes: &[u8; 256], marks: &mut [u8]) -> usize
    requires { Noted ops.now.block.now ops.now.places.now marks.old (length ops.now.places.now) × Classed classes.now × (length ops.now.places.now ≤ max_ops) × (length ops.now.places.now ≤ length marks.old) }
    ensures { Keeps (folded_ops (ops_at ops.now.block.now ops.now.places.now 0 (length ops.now.places.now))) (globals_in classes.now) (kept_in classes.now) marks.old marks.new result }
{
    let mut events = [0u16; 256];
    let mut floors = [1u16, 0, 0, 0];
    let mut time: u16 = 2;
    let mut size: usize = 0;
    let mut next = ops.block.len();
    for i in (0..ops.len()).rev() {
        let op = ops.op(i);
        if dead_op(&op, &events, &floors, classes) {
            marks[i] = 2;
        } else {
            let mark = marks[i];
            live_before(&op, mark, time, &mut events, &mut floors);
            size += length_left(mark, op.at, next);
        }
        next = op.at;
        time += 2;
    }
    size
}
