// The rules of one op, each by itself, and the first that it breaks.
#![tactic(auto)]

ghost use Rattle.std.specs.Prelude.{◌≡◌, true, false, not, ◌&&◌, ◌||◌, ◌+◌, ◌%◌, ◌≤◌, ◌<◌, eqb, length, get_or};
ghost use Rattle.std.specs.Int.Bits.{bit_and};
ghost use Rattle.ops.specs.Limits.{label_count};
ghost use Rattle.ops.specs.Rows.{outs_in, ins_in, rest_in, row_in, cond_ok, label_ok, test_ok};
ghost use Rattle.ops.specs.Fields.{bytes_at};
ghost use Rattle.ops.specs.Plans.{ask};
ghost use Rattle.block.specs.Checks.{first_broken};
ghost use Rattle.block.specs.Rules.{label_free, all_set};
ghost use Rattle.block.specs.Scan.{codes_in, declared_all, meets, operands_fit, marked, numbered, op_tests, entry_rule};

use immediates::{field_ok, no_flags_ok, position_ok, swap_flags_ok};
use kinds::Entry;
use limits::{LABELS, is_label, op_fits};
use memory::{byte_at, flags_ok, from_little_endian};

pub mod refusals;

// A variable's byte.
pub fn code(vars: &[u8; 256], v: u8) -> u8
    ensures { result ≡ codes_in vars.now v }
{
    let bytes: &[u8] = vars;
    bytes[v as usize]
}

// Rule 4: each of count variables named from p on is declared.
fn all_declared(block: &[u8], p: usize, count: usize, vars: &[u8; 256]) -> bool
    requires { p + count ≤ length block.now }
    ensures { result ≡ declared_all vars.now (bytes_at block.now p count) }
{
    block[p..p + count]
        .iter()
        .all(|v| code(vars, *v) % 16 != 15)
}

// Whether none of the bits that are asked for is in a variable's byte.
pub fn meets(asked: u32, code: u8) -> bool
    ensures { result ≡ meets asked code }
{
    ((code % 32) as u32 & asked) == 0
}

// What an output asks of a variable, of the lowest type of codes.
fn type_ask(codes: u32) -> u32
    ensures { result ≡ ask true (codes % 4) }
{
    1u32 << (codes % 4)
}

// Rule 5: each of count variables named from p on has its type, two bits of codes.
fn all_typed(block: &[u8], p: usize, count: usize, codes: u32, vars: &[u8; 256]) -> bool
    requires { p + count ≤ length block.now }
    ensures { result ≡ operands_fit vars.now count codes (bytes_at block.now p count) }
{
    let mut rest = codes;
    for v in &block[p..p + count] {
        if !meets(type_ask(rest), code(vars, *v)) {
            return false;
        }
        rest /= 4;
    }
    true
}

fn branch_ok(c: u8, l: u8) -> bool
    ensures { result ≡ (cond_ok c && label_ok l) }
{
    c <= 9 && is_label(l)
}

// Rule 6: the bytes that follow the operands, by the number of their test. A `match`: each test takes other bytes.
#[tactic(auto, unfolding(ops::specs::Rows::test_ok))]
pub fn rest_ok(t: u32, bytes: &[u8]) -> bool
    ensures { result ≡ test_ok t bytes.now }
{
    match t {
        1 => is_label(byte_at(bytes, 0)),
        2 => byte_at(bytes, 0) <= 9,
        3 => branch_ok(byte_at(bytes, 0), byte_at(bytes, 1)),
        4 => flags_ok(byte_at(bytes, 0), false, false),
        5 => flags_ok(byte_at(bytes, 0), true, false),
        6 => flags_ok(byte_at(bytes, 0), false, true),
        7 => flags_ok(byte_at(bytes, 0), true, true),
        8 => from_little_endian(bytes) < 0x1_0000_0000,
        9 => field_ok(32, byte_at(bytes, 0), byte_at(bytes, 1)),
        10 => field_ok(64, byte_at(bytes, 0), byte_at(bytes, 1)),
        11 => position_ok(32, byte_at(bytes, 0)),
        12 => position_ok(64, byte_at(bytes, 0)),
        13 => swap_flags_ok(byte_at(bytes, 0)),
        14 => no_flags_ok(byte_at(bytes, 0)),
        _ => true,
    }
}

// Whether none of the tests that are asked for, a bit each, refuses the byte.
pub fn byte_ok(refusals: &[u8; 256], asked: u32, x: u8) -> bool
    ensures { result ≡ eqb (bit_and (get_or refusals.now x 0) asked) 0 }
{
    (refusals[x as usize] as u32 & asked) == 0
}

// Whether a label is set.
pub fn is_set(labels: &[u16; LABELS], l: u8) -> bool
    ensures { result ≡ numbered labels.now l }
{
    let of: &[u16] = labels;
    if (l as usize) < of.len() {
        return of[l as usize] != 0;
    }
    false
}

// Rule 7: the label of the op that starts at a place, its last byte, is not set yet.
fn label_free(entry: Entry, block: &[u8], at: usize, labels: &[u16; LABELS]) -> bool
    requires { at + (outs_in entry + ins_in entry + rest_in entry) < length block.now }
    ensures { result ≡ label_free (row_in entry) (numbered labels.now) (get_or block.now (at + (outs_in entry + ins_in entry + rest_in entry)) 0) }
{
    if entry.is_setting() | entry.is_jumping() {
        return !is_set(labels, block[at + entry.body_length()]);
    }
    true
}

// A label that is jumped to is set.
fn settled(target: u8, number: u16) -> bool
    ensures { result ≡ (not (eqb target 1) || not (eqb number 0)) }
{
    (target != 1) | (number != 0)
}

// Rule 7 at the end: each label that is jumped to is set. No way out early, so that the compiler makes vectors of it.
pub fn all_set(targets: &[u8; LABELS], labels: &[u16; LABELS]) -> bool
    ensures { result ≡ all_set (marked targets.now) (numbered labels.now) label_count }
{
    let mut all = true;
    for (target, number) in targets.iter().zip(labels.iter()) {
        all &= settled(*target, *number);
    }
    all
}

// The rule from 9 on that it breaks, where the fast test fails: 8 if no other.
#[tactic(auto, unfolding(block::specs::Checks::first_broken))]
fn broken_rule(
    entry: Entry,
    block: &[u8],
    at: usize,
    ops: usize,
    vars: &[u8; 256],
    labels: &[u16; LABELS],
) -> u8
    requires { at + (outs_in entry + ins_in entry + rest_in entry) < length block.now }
    ensures { result ≡ first_broken (op_tests entry block.now at ops vars.now labels.now false) }
{
    if !op_fits(ops) {
        return 9;
    }
    let count = entry.operand_count();
    if !all_declared(block, at + 1, count, vars) {
        return 4;
    }
    if !all_typed(block, at + 1, count, entry.types(), vars) {
        return 5;
    }
    let p = at + 1 + count;
    let end = p + entry.rest();
    if !rest_ok(entry.test(), &block[p..end]) {
        return 6;
    }
    if !label_free(entry, block, at, labels) {
        return 7;
    }
    8
}

// The rule that the record at a place breaks, after ops ops, where a test fails. A rule is its number, as document 01 and C name it.
#[tactic(auto, unfolding(block::specs::Scan::entry_rule))]
pub fn record_rule(
    entry: Entry,
    block: &[u8],
    at: usize,
    ops: usize,
    vars: &[u8; 256],
    labels: &[u16; LABELS],
) -> u8
    ensures { result ≡ entry_rule entry block.now at ops vars.now labels.now false }
{
    if !entry.is_known() {
        return 2;
    }
    if block.len() <= at {
        return 1;
    }
    if block.len() - at <= entry.body_length() {
        return 1;
    }
    if block[at] == 1 {
        return 3;
    }
    broken_rule(entry, block, at, ops, vars, labels)
}
