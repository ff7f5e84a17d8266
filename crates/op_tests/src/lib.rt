// The fast test of one op.
#![tactic(auto)]

ghost use Rattle.std.specs.Prelude.{◌≡◌, ◌&&◌, ◌+◌, ◌-◌, ◌^◌, ◌≤◌, ◌<◌, ltb, length, get_or};
ghost use Rattle.memory.specs.Bytes.{low_first};
ghost use Rattle.ops.specs.Plans.{length_by, length_in, first_ask_in, rank_of, entry_at};
ghost use Rattle.block.specs.Scan.{Placed, code_at, meets, three_fit, label_fits, bytes_pass, more_ok, op_passes};

use limits::{LABELS, is_label, op_fits};
use memory::from_little_endian;
use plans::{Plan, Rank};
use rules::refusals::Refusals;
use rules::{code, is_set, meets, rest_ok};

// The output and the first two inputs of an op with this plan may be used so.
fn three_fit(plan: Plan, block: &[u8], at: usize, vars: &[u8; 256]) -> bool
    requires { Placed plan block.now at }
    ensures { result ≡ three_fit plan block.now at vars.now }
{
    let o = code(vars, block[at + 1]);
    let a = code(vars, block[at + plan.first_at()]);
    let b = code(vars, block[at + plan.second_at()]);
    meets(plan.out_ask(), o) & meets(plan.first_ask(), a) & meets(plan.second_ask(), b)
}

// And two inputs more.
fn inputs_fit(plan: Plan, block: &[u8], at: usize, vars: &[u8; 256]) -> bool
    requires { at + 5 < length block.now }
    ensures { result ≡ (meets (first_ask_in plan) (code_at block.now vars.now (at + 4)) && meets (first_ask_in plan) (code_at block.now vars.now (at + 5))) }
{
    let a = code(vars, block[at + 4]);
    let b = code(vars, block[at + 5]);
    meets(plan.first_ask(), a) & meets(plan.first_ask(), b)
}

// Its label, the last byte, is below the limit and not set yet.
fn label_ok(plan: Plan, block: &[u8], at: usize, labels: &[u16; LABELS]) -> bool
    requires { (at + length_in plan ≤ length block.now) × (1 < length_in plan) }
    ensures { result ≡ label_fits labels.now (get_or block.now (at + length_in plan - 1) 0) }
{
    let l = block[at + plan.length() - 1];
    is_label(l) & !is_set(labels, l)
}

// A constant, the eight bytes from a place on, is below 2^32.
fn constant_ok(block: &[u8], p: usize) -> bool
    requires { p + 8 ≤ length block.now }
    ensures { result ≡ ltb (low_first block.now p 8) (2 ^ 32) }
{
    let end = p + 8;
    from_little_endian(&block[p..end]) < 0x1_0000_0000
}

// The bytes after the operands pass the test that its plan names.
fn bytes_ok(plan: Plan, block: &[u8], at: usize) -> bool
    requires { Placed plan block.now at }
    ensures { result ≡ bytes_pass plan block.now at }
{
    let p = at + plan.byte_at();
    let end = at + plan.length();
    rest_ok(plan.test(), &block[p..end])
}

// What else its plan asks.
fn more_ok(plan: Plan, block: &[u8], at: usize, vars: &[u8; 256], labels: &[u16; LABELS]) -> bool
    requires { Placed plan block.now at }
    ensures { result ≡ more_ok plan block.now at vars.now labels.now }
{
    let m = plan.more();
    if m % 2 == 1 {
        if m == 1 {
            return constant_ok(block, at + 2);
        }
        return inputs_fit(plan, block, at, vars);
    }
    if m == 0 {
        return true;
    }
    if m == 2 {
        return label_ok(plan, block, at, labels);
    }
    bytes_ok(plan, block, at)
}

// Whether an op, the op-th, stands at a place, whole, and meets every rule: the fast test. rank is that of its kind, n the length of its record.
pub fn op_ok(
    rank: Rank,
    n: usize,
    refusals: &Refusals,
    block: &[u8],
    at: usize,
    op: usize,
    vars: &[u8; 256],
    labels: &[u16; LABELS],
) -> bool
    requires { (at < length block.now) × (rank ≡ rank_of (entry_at block.now at)) × (n ≡ length_by (entry_at block.now at)) }
    ensures { result ≡ op_passes (entry_at block.now at) block.now at op vars.now labels.now }
{
    let plan = rank.plan();
    if block.len() - at < n {
        return false;
    }
    let x = block[at + plan.byte_at()];
    if !(three_fit(plan, block, at, vars) & refusals.pass(plan.byte_ask(), x) & op_fits(op)) {
        return false;
    }
    if rank.is_straight() {
        return true;
    }
    more_ok(plan, block, at, vars, labels)
}
