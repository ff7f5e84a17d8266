// The kept ops written one after the other, in runs: those that stay between two others are copied in one go.
#![tactic(auto)]

ghost use Rattle.std.specs.Prelude.{◌≡◌, cond, ◌∷◌, ◌++◌, ◌+◌, ◌-◌, ◌≤◌, eqb, length, get_or, take, drop};
ghost use Rattle.std.proofs.lemmas.List.Edits.{sets};
ghost use Rattle.memory.specs.Bytes.{bytes_of};
ghost use Rattle.ops.specs.Rows.{computing, role_of};
ghost use Rattle.ops.specs.Folds.{folding, movi_kind};
ghost use Rattle.ops.specs.Kinds.{document01};
ghost use Rattle.ops.specs.Table.{row_of};
ghost use Rattle.ops.specs.Shapes.{type_as};
ghost use Rattle.block.specs.Scan.{record_at};
ghost use Rattle.passes.specs.Laid.{place_of, edit_of};
ghost use Rattle.passes.specs.Live.{Marked, emitted};

use laid::{Op, Ops};
use memory::to_little_endian;
use shapes::Shape;

// The bytes of block from a place on, copied. A loop: of the library's method the compiler makes memmove, and the archive imports memcpy and memset alone.
fn copy(block: &[u8], from: usize, n: usize, out: &mut [u8], to: usize)
    requires { (from + n ≤ length block.now) × (to + n ≤ length out.old) }
    ensures { out.new ≡ sets out.old to (take n (drop from block.now)) }
{
    for j in 0..n {
        out[to + j] = block[from + j];
    }
}

// Bytes stored from a place on.
fn put_bytes(out: &mut [u8], to: usize, bytes: &[u8])
    requires { to + length bytes.now ≤ length out.old }
    ensures { out.new ≡ sets out.old to bytes.now }
{
    copy(bytes, 0, bytes.len(), out, to);
}

// A movi: its kind, its output, and eight bytes.
fn put_movi(out: &mut [u8], to: usize, kind: u8, d: u8, value: u64)
    requires { to + 10 ≤ length out.old }
    ensures { out.new ≡ sets out.old to (kind ∷ d ∷ bytes_of 8 value) }
{
    out[to] = kind;
    out[to + 1] = d;
    put_bytes(out, to + 2, &to_little_endian(value));
}

// The kind of the movi that takes an op's place: its output's type comes first.
fn movi_kind(shape: Shape) -> u8
    ensures { result ≡ movi_kind (type_as shape) }
{
    if shape.is_narrow() { 0x10 } else { 0x90 }
}

// The records from a place up to an op, and the constant in the op's place; where the next goes.
fn put_constant(op: &Op, from: usize, value: u64, out: &mut [u8], to: usize) -> usize
    requires { (role_of row_of (get_or op.now.block.now op.now.at 0) ≡ computing) × (from ≤ op.now.at) × (to + (op.now.at - from) + 10 ≤ length out.old) }
    ensures { (result ≡ to + (op.now.at - from) + 10) × (out.new ≡ sets out.old to (take (op.now.at - from) (drop from op.now.block.now) ++ (folding document01).const (record_at row_of op.now.block.now op.now.at) value)) }
{
    let n = op.at - from;
    put_bytes(out, to, &op.block[from..op.at]);
    put_movi(out, to + n, movi_kind(op.shape), op.block[op.at + 1], value);
    to + n + 10
}

// The records from a place up to an op that does not stay, and the constant if one takes its place; where the next goes.
fn put_edit(op: &Op, mark: u8, from: usize, value: u64, out: &mut [u8], to: usize) -> usize
    requires { (mark ≡ 1 → role_of row_of (get_or op.now.block.now op.now.at 0) ≡ computing) × (from ≤ op.now.at) × (to + (op.now.at - from) + cond (eqb mark 1) 10 0 ≤ length out.old) }
    ensures { (result ≡ to + (op.now.at - from) + cond (eqb mark 1) 10 0) × (out.new ≡ sets out.old to (take (op.now.at - from) (drop from op.now.block.now) ++ edit_of op.now.block.now op.now.at mark value)) }
{
    if mark == 1 {
        return put_constant(op, from, value, out, to);
    }
    let run = &op.block[from..op.at];
    put_bytes(out, to, run);
    to + (op.at - from)
}

// The bytes of the block before its first op, and the kept ops.
pub fn emit(ops: &Ops, marks: &[u8], constants: &[u64], out: &mut [u8])
    requires { Marked ops.now.block.now ops.now.places.now marks.now constants.now (length ops.now.places.now) × (place_of ops.now.block.now ops.now.places.now (length ops.now.places.now) 0 ≤ length ops.now.block.now) × (length ops.now.places.now ≤ length marks.now) × (length ops.now.places.now ≤ length constants.now) × (length (emitted ops.now.block.now ops.now.places.now marks.now (length ops.now.places.now)) ≤ length out.old) }
    ensures { out.new ≡ sets out.old 0 (emitted ops.now.block.now ops.now.places.now marks.now (length ops.now.places.now)) }
{
    let mut from: usize = 0;
    let mut to: usize = 0;
    for i in 0..ops.len() {
        let mark = marks[i];
        if mark != 0 {
            let op = ops.op(i);
            to = put_edit(&op, mark, from, constants[i], out, to);
            from = ops.place(i + 1);
        }
    }
    put_bytes(out, to, &ops.block[from..ops.block.len()]);
}
