// Reads a block: the rules in order, and where each op and label is.
#![tactic(auto)]

ghost use Rattle.std.specs.Prelude.{◌≡◌, false, ◌*◌, ◌<◌, eqb, length, replicate, MatchResult};
ghost use Rattle.ops.specs.Limits.{label_count};
ghost use Rattle.ops.specs.Table.{row_of};
ghost use Rattle.ops.specs.Plans.{exit_rank, entry_at};
ghost use Rattle.block.specs.Checks.{Accepted, refused_or};
ghost use Rattle.block.specs.Scan.{entry_rule, end_rule, RoomFor, Begins, ScannedAll, ScannedTo, Approved, Rejected};

use block::Refusal;
use declarations::{Misdeclared, scan_declarations};
use kinds::Kinds;
use limits::LABELS;
use op_marks::mark_op;
use op_tests::op_ok;
use plans::{Lengths, Rank, Ranks};
use rules::refusals::Refusals;
use rules::{all_set, record_rule};

// A refusal, after so many ops.
#[derive(Clone, Copy)]
struct Stop {
    refusal: Refusal,
    ops: usize,
}

// The refusal of a record that fails a test.
fn stopped(block: &[u8], at: usize, ops: usize, vars: &[u8; 256], labels: &[u16; LABELS]) -> Stop
    requires { at < length block.now }
    ensures { (result.refusal.number ≡ entry_rule (entry_at block.now at) block.now at ops vars.now labels.now false) × (result.refusal.place ≡ at) × (result.ops ≡ ops) }
{
    let kinds = Kinds::new();
    let entry = kinds.entry(block[at]);
    let number = record_rule(entry, block, at, ops, vars, labels);
    Stop {
        refusal: Refusal { number, place: at },
        ops,
    }
}

// Refuses an end at a place, after an op with the rank last, that breaks a rule.
fn end_rule(
    last: Rank,
    targets: &[u8; LABELS],
    labels: &[u16; LABELS],
    place: usize,
) -> Result<(), Refusal>
    ensures { result ≡ refused_or (end_rule (eqb last exit_rank) targets.now labels.now) place Accepted }
{
    let exits = last.exits();
    if !exits {
        return Err(Refusal { number: 10, place });
    }
    if !all_set(targets, labels) {
        return Err(Refusal { number: 7, place });
    }
    Ok(())
}

// Reads the ops from a place on; how many there are. places and labels then hold where each op and label is. base: the variables' bytes at the start of an extended basic block.
// A `while`: a record's own length says where the next begins.
fn scan_ops(
    block: &[u8],
    start: usize,
    base: &[u8; 256],
    places: &mut [u16],
    labels: &mut [u16; LABELS],
) -> Result<usize, Stop>
    requires { Begins row_of block.now base.now start × (labels.old ≡ replicate label_count 0) × RoomFor block.now places.old }
    ensures { MatchResult result (λ ops. ScannedAll row_of block.now start places.old places.new labels.new ops) (λ s. ScannedTo row_of block.now start places.old places.new labels.new s.refusal s.ops) }
{
    let ranks = Ranks::new();
    let lengths = Lengths::new();
    let refusals = Refusals::new();
    let mut vars = *base;
    let mut targets = [0u8; LABELS];
    let mut at = start;
    let mut ops: usize = 0;
    let mut last = Rank::NONE;
    while at < block.len() {
        let kind = block[at];
        let rank = ranks.rank(kind);
        let n = lengths.record_length(kind);
        if !op_ok(rank, n, &refusals, block, at, ops, &vars, labels) {
            return Err(stopped(block, at, ops, &vars, labels));
        }
        mark_op(rank, block, at, ops, base, &mut vars, labels, &mut targets);
        places[ops] = (at % 65536) as u16;
        ops += 1;
        last = rank;
        at += n;
    }
    match end_rule(last, &targets, labels, at) {
        Ok(()) => Ok(ops),
        Err(refusal) => Err(Stop { refusal, ops }),
    }
}

// What the scan finds, of a refused block before the refusal's place: where the ops start; how many variables, globals and ops there are.
#[derive(Clone, Copy, Debug, PartialEq, Eq)]
pub struct Found {
    pub start: usize,
    pub variables: usize,
    pub globals: usize,
    pub ops: usize,
}

// A refused block: the refusal, and what the scan finds before its place.
#[derive(Clone, Copy, Debug, PartialEq, Eq)]
pub struct Broken {
    pub refusal: Refusal,
    pub found: Found,
}

impl From<Broken> for Refusal {
    ghost from_gives = { λ b refusal. refusal ≡ b.refusal };

    fn from(broken: Broken) -> Refusal {
        broken.refusal
    }
}

// A refused declaration: no op has been read.
impl From<Misdeclared> for Broken {
    ghost from_gives = { λ m b. (b.refusal ≡ m.refusal) × (b.found.start ≡ m.refusal.place) × (b.found.variables ≡ m.before.variables) × (b.found.globals ≡ m.before.globals) × (b.found.ops ≡ 0) };

    fn from(m: Misdeclared) -> Broken {
        Broken {
            refusal: m.refusal,
            found: Found {
                start: m.refusal.place,
                variables: m.before.variables,
                globals: m.before.globals,
                ops: 0,
            },
        }
    }
}

// Reads a block; of an accepted one base then holds the variables' bytes at the start of an extended basic block, and the other arrays where each op and label is.
pub fn scan(
    block: &[u8],
    base: &mut [u8; 256],
    places: &mut [u16],
    labels: &mut [u16; LABELS],
) -> Result<Found, Broken>
    requires { (base.old ≡ replicate 256 15) × (labels.old ≡ replicate label_count 0) × RoomFor block.now places.old }
    ensures { MatchResult result (λ f. Approved row_of block.now places.old base.new places.new labels.new f.start f.variables f.globals f.ops) (λ b. Rejected row_of block.now places.old base.new places.new labels.new b.refusal b.found.start b.found.variables b.found.globals b.found.ops) }
{
    let d = scan_declarations(block, base)?;
    let start = 3 * d.variables;
    let found = Found {
        start,
        variables: d.variables,
        globals: d.globals,
        ops: 0,
    };
    match scan_ops(block, start, base, places, labels) {
        Ok(ops) => Ok(Found { ops, ..found }),
        Err(stop) => Err(Broken {
            refusal: stop.refusal,
            found: Found {
                ops: stop.ops,
                ..found
            },
        }),
    }
}
