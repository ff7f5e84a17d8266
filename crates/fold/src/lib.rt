// Fold: the values known in an extended basic block, and the ops that constants replace.
// What is known is a byte for each variable, beside the values: where a block ends 256 bytes are cleared, and of optional values it would be 4,096.
#![tactic(auto)]

ghost use Rattle.std.specs.Prelude.{◌≡◌, true, ◌+◌, ◌≤◌, ◌<◌, length};
ghost use Rattle.std.specs.List.{list_all};
ghost use Rattle.theory.specs.Sets.{upd};
ghost use Rattle.ops.specs.Rows.{role_in, role_no, is_computing};
ghost use Rattle.ops.specs.Fields.{bytes_at};
ghost use Rattle.ops.specs.Plans.{entry_at};
ghost use Rattle.block.specs.Scan.{marked};
ghost use Rattle.passes.specs.Knows.{known_of, every_in, StatesKnown, Stays, Folds, Folded};

use laid::{Op, Ops};
use marks::put;
use memory::from_little_endian;
use values::evaluate;

// Whether a variable's value is known: its byte is 1.
fn is_known(known: &[u8; 256], v: u8) -> bool
    ensures { result ≡ marked known.now v }
{
    known[v as usize] == 1
}

// A variable's value is known.
fn learn(known: &mut [u8; 256], values: &mut [u64; 256], v: u8, x: u64)
    ensures { known_of (marked known.new) values.new ≡ upd (known_of (marked known.old) values.old) v (Some x) }
{
    put(known, v, 1);
    put(values, v, x);
}

// Whether the variables that the bytes name are known.
fn each_known(bytes: &[u8], known: &[u8; 256]) -> bool
    ensures { result ≡ list_all (marked known.now) bytes.now }
{
    bytes.iter().all(|v| is_known(known, *v))
}

// The same of one or more from a place on: the first and the last without a loop, then, of more than two, all.
fn all_known(block: &[u8], from: usize, count: usize, known: &[u8; 256]) -> bool
    requires { (from + count ≤ length block.now) × (0 < count) }
    ensures { result ≡ every_in (bytes_at block.now from count) (marked known.now) }
{
    if !(is_known(known, block[from]) & is_known(known, block[from + count - 1])) {
        return false;
    }
    if count <= 2 {
        return true;
    }
    each_known(&block[from..from + count], known)
}

// What a computing op states, where all its inputs are known.
fn stated_by(op: &Op, known: &[u8; 256], values: &[u64; 256]) -> Option<u64>
    requires { is_computing (role_no (role_in (entry_at op.now.block.now op.now.at))) ≡ true }
    ensures { StatesKnown op.now.block.now op.now.at (marked known.now) values.now result }
{
    let outputs = op.shape.outs();
    let inputs = op.shape.ins();
    if all_known(op.block, op.at + 1 + outputs, inputs, known) {
        return evaluate(
            outputs + inputs,
            op.shape.rest(),
            op.block,
            op.at,
            op.block[op.at],
            &[],
            values,
        );
    }
    None
}

// What is known after an op that stays as it is.
fn pass_over(op: &Op, known: &mut [u8; 256], values: &mut [u64; 256])
    requires { StatesKnown op.now.block.now op.now.at (marked known.old) values.old None }
    ensures { Stays op.now.block.now op.now.at (marked known.old) values.old (marked known.new) values.new }
{
    let role = op.shape.role();
    if role.is_constant() {
        let p = op.at + 2;
        let end = op.at + 10;
        learn(
            known,
            values,
            op.block[op.at + 1],
            from_little_endian(&op.block[p..end]),
        );
        return;
    }
    if role.is_closing() {
        *known = [0u8; 256];
        return;
    }
    if op.shape.outs() == 1 {
        put(known, op.block[op.at + 1], 0);
    }
}

// Fold at a computing op: the constant's value if one takes its place.
fn fold_computing(op: &Op, known: &mut [u8; 256], values: &mut [u64; 256]) -> Option<u64>
    requires { is_computing (role_no (role_in (entry_at op.now.block.now op.now.at))) ≡ true }
    ensures { Folds op.now.block.now op.now.at (marked known.old) values.old (marked known.new) values.new result }
{
    let stated = stated_by(op, known, values);
    let d = op.block[op.at + 1];
    let Some(x) = stated else {
        put(known, d, 0);
        return None;
    };
    learn(known, values, d, x);
    Some(x)
}

// Fold at one op.
fn fold_op(op: &Op, known: &mut [u8; 256], values: &mut [u64; 256]) -> Option<u64>
    ensures { Folds op.now.block.now op.now.at (marked known.old) values.old (marked known.new) values.new result }
{
    if op.shape.is_computing() {
        return fold_computing(op, known, values);
    }
    pass_over(op, known, values);
    None
}

// Fold of the ops: the mark of each, 1 where a constant takes its place, and the constants' values.
pub fn fold(ops: &Ops, marks: &mut [u8], constants: &mut [u64])
    requires { (length ops.now.places.now ≤ length marks.old) × (length ops.now.places.now ≤ length constants.old) }
    ensures { Folded ops.now.block.now ops.now.places.now marks.new constants.new (length ops.now.places.now) }
{
    let mut known = [0u8; 256];
    let mut values = [0u64; 256];
    for i in 0..ops.len() {
        let op = ops.op(i);
        let stated = fold_op(&op, &mut known, &mut values);
        match stated {
            Some(x) => {
                marks[i] = 1;
                constants[i] = x;
            }
            None => {
                marks[i] = 0;
            }
        }
    }
}
