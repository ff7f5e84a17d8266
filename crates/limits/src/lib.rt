// The limits of a block (ops/specs/Limits): the one place of code that has their numbers, and the tests by them.
#![tactic(auto)]

ghost use Rattle.std.specs.Prelude.{◌≡◌, min, ltb, leb};
ghost use Rattle.ops.specs.Limits.{max_variables, max_ops, max_memory};
ghost use Rattle.ops.specs.Rows.{label_ok};

pub const MAX_VARIABLES: usize = 200;

pub const MAX_OPS: usize = 1024;

// Labels are below it.
pub const LABELS: usize = 128;

pub const MAX_MEMORY: usize = 65536;

// Room for what is kept for each op: of FEW_OPS or SHORT_OPS where there are no more, else of MAX_OPS. Before the ops are counted their bytes tell:
// an op has at least two.
pub const FEW_OPS: usize = 64;

pub const SHORT_OPS: usize = 256;

// How many variables a block may declare, where its bytes have room for n declarations.
pub fn most_variables(n: usize) -> usize
    ensures { result ≡ min n max_variables }
{
    if n < MAX_VARIABLES { n } else { MAX_VARIABLES }
}

// Whether an op may come after so many.
pub fn op_fits(ops: usize) -> bool
    ensures { result ≡ ltb ops max_ops }
{
    ops < MAX_OPS
}

// Whether a byte is a label.
pub fn is_label(l: u8) -> bool
    ensures { result ≡ label_ok l }
{
    (l as usize) < LABELS
}

// Whether so many bytes of memory may be lent.
pub fn memory_fits(n: usize) -> bool
    ensures { result ≡ leb n max_memory }
{
    n <= MAX_MEMORY
}
