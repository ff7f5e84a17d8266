// Liveness across an op, read backward. What is live is held as times (`live_of`), so that an op changes the times of
// its operands alone, and those of whole classes where an extended basic block ends, at a branch, or where memory is accessed.
#![tactic(auto)]

ghost use Rattle.std.specs.Prelude.{◌≡◌, cond, false, ◌||◌, ◌+◌, ◌%◌, ◌≤◌, ◌<◌, length, get_or};
ghost use Rattle.ops.specs.Rows.{outs_in, role_of, computing};
ghost use Rattle.ops.specs.Table.{row_of};
ghost use Rattle.ops.specs.Fields.{bytes_at};
ghost use Rattle.ops.specs.Plans.{entry_at};
ghost use Rattle.ops.specs.Shapes.{pure_as, sets_as, jumps_as};
ghost use Rattle.passes.specs.Live.{before_at, live_as, live_of, Turns, Timed};

use laid::Op;
use marks::put;

// Whether a variable is live: the later of its own event and its class's is odd.
pub fn is_live(events: &[u16; 256], floors: &[u16; 4], classes: &[u8; 256], v: u8) -> bool
    ensures { result ≡ live_of events.now floors.now classes.now v }
{
    let own = events[v as usize];
    let of: &[u8] = classes;
    let class = of[v as usize];
    let all = floors[(class % 4) as usize];
    if own < all {
        return all % 2 == 1;
    }
    own % 2 == 1
}

// The outputs of an op are not live.
fn end_outputs(op: &Op, time: u16, events: &mut [u16; 256])
    ensures { Timed events.old (bytes_at op.now.block.now (op.now.at + 1) (outs_in (entry_at op.now.block.now op.now.at))) time events.new }
{
    if op.shape.outs() == 1 {
        put(events, op.block[op.at + 1], time);
    }
}

// The variables that up to four bytes from a place on name are live: the first and the last, then two more.
fn wake(block: &[u8], from: usize, count: usize, time: u16, events: &mut [u16; 256])
    requires { (from + count ≤ length block.now) × (count ≤ 4) }
    ensures { Timed events.old (bytes_at block.now from count) time events.new }
{
    if count == 0 {
        return;
    }
    put(events, block[from], time);
    put(events, block[from + count - 1], time);
    if count <= 2 {
        return;
    }
    put(events, block[from + 1], time);
    put(events, block[from + 2], time);
}

// When local temporaries change: now at an op that has a label, where they are live; else as floor has it.
fn local_time(op: &Op, time: u16, floor: u16) -> u16
    requires { time < 65535 }
    ensures { result ≡ cond (sets_as op.now.shape || jumps_as op.now.shape) (time + 1) floor }
{
    if op.shape.is_setting() | op.shape.is_jumping() {
        return time + 1;
    }
    floor
}

// What is live before an op that is not pure, but for its inputs, from what is live after it. All globals are, and at an op
// that has a label the local temporaries; where an extended basic block ends nothing else is.
fn live_but_inputs(op: &Op, time: u16, events: &mut [u16; 256], floors: &mut [u16; 4])
    requires { (time % 2 ≡ 0) × (time < 65535) × (pure_as op.now.shape ≡ false) }
    ensures { Turns events.old floors.old time (before_at (entry_at op.now.block.now op.now.at) op.now.block.now op.now.at) events.new floors.new }
{
    if op.shape.role().is_closing() {
        *floors = [time + 1, local_time(op, time, time), time, 0];
        return;
    }
    end_outputs(op, time, events);
    *floors = [time + 1, local_time(op, time, floors[1]), floors[2], 0];
}

// The same with its inputs; of an op that a constant replaces, less its output. Pure ops come first: they are most, and have one output.
pub fn live_before(op: &Op, mark: u8, time: u16, events: &mut [u16; 256], floors: &mut [u16; 4])
    requires { (time % 2 ≡ 0) × (time < 65535) × (mark ≡ 1 → role_of row_of (get_or op.now.block.now op.now.at 0) ≡ computing) }
    ensures { Turns events.old floors.old time (live_as mark op.now.block.now op.now.at) events.new floors.new }
{
    if op.shape.is_pure() {
        put(events, op.block[op.at + 1], time);
        if mark == 1 {
            return;
        }
        wake(op.block, op.at + 2, op.shape.ins(), time + 1, events);
        return;
    }
    live_but_inputs(op, time, events, floors);
    let from = op.at + 1 + op.shape.outs();
    wake(op.block, from, op.shape.ins(), time + 1, events);
}
