// What an op leaves: the variables that may be read in the extended basic block, the labels set and jumped to. rank is that of its kind; its label is its last byte.
#![tactic(auto)]

ghost use Rattle.std.specs.Prelude.{◌≡◌, cond, false, [], ◌∷◌, ◌+◌, ◌-◌, ◌≤◌, ◌<◌, leb, length, get_or};
ghost use Rattle.ops.specs.Limits.{max_ops};
ghost use Rattle.ops.specs.Table.{row_of};
ghost use Rattle.ops.specs.Plans.{no_op, length_in, rank_of, plan_at, exit_rank, entry_at};
ghost use Rattle.block.specs.Scan.{record_at, Stands, codes_in, open_all, FirstReady, LabelLow, LabelMarks, sets_label, jumps_to, Marks};

use limits::LABELS;
use marks::{put, put_label};
use plans::Rank;
use rules::code;

// The first operand of the op at a place may be read from now on: it is the output, or an input that could be read before.
fn open_first(block: &[u8], at: usize, vars: &mut [u8; 256])
    requires { at + 1 < length block.now }
    ensures { codes_in vars.new ≡ open_all (codes_in vars.old) (get_or block.now (at + 1) 0 ∷ []) }
{
    let v = block[at + 1];
    put(vars, v, code(vars, v) % 16);
}

// Its label is set, or jumped to: a label's number is one more than its op's.
fn mark_label(
    rank: Rank,
    block: &[u8],
    at: usize,
    op: usize,
    labels: &mut [u16; LABELS],
    targets: &mut [u8; LABELS],
)
    requires { (at + length_in (plan_at rank) ≤ length block.now) × (1 < length_in (plan_at rank)) × LabelLow rank block.now at × (op < max_ops) }
    ensures { LabelMarks (sets_label rank) (jumps_to rank) (get_or block.now (at + length_in (plan_at rank) - 1) 0) op labels.old labels.new targets.old targets.new }
{
    if !rank.has_label() {
        return;
    }
    let l = block[at + rank.plan().length() - 1];
    if rank.sets_label() {
        put_label(labels, l, (op + 1) as u16);
        return;
    }
    put_label(targets, l, 1);
}

// Where an op of this rank ends an extended basic block, the variables' bytes are those at its start.
fn end_block(rank: Rank, base: &[u8; 256], vars: &mut [u8; 256])
    ensures { codes_in vars.new ≡ cond (leb exit_rank rank) (codes_in base.now) (codes_in vars.old) }
{
    if rank.closes() {
        *vars = *base;
    }
}

// What the op at a place leaves in the arrays; base: the variables' bytes at the start of an extended basic block.
#[tactic(auto, using(block::proofs::Marking::operand_here, block::proofs::Marking::whole_here))]
pub fn mark_op(
    rank: Rank,
    block: &[u8],
    at: usize,
    op: usize,
    base: &[u8; 256],
    vars: &mut [u8; 256],
    labels: &mut [u16; LABELS],
    targets: &mut [u8; LABELS],
)
    requires { Stands row_of block.now at (get_or block.now at 0) × (op < max_ops) × (rank ≡ rank_of (entry_at block.now at)) × (no_op (entry_at block.now at) ≡ false) × FirstReady (entry_at block.now at) block.now at vars.old × LabelLow rank block.now at }
    ensures { Marks row_of (record_at row_of block.now at) op base.now vars.old vars.new labels.old labels.new targets.old targets.new }
{
    if !rank.directs() {
        open_first(block, at, vars);
        return;
    }
    end_block(rank, base, vars);
    mark_label(rank, block, at, op, labels, targets);
}
