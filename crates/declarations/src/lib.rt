// The declarations of a block.
#![tactic(auto)]

ghost use Rattle.std.specs.Prelude.{◌≡◌, List, ℕ, ◌*◌, ◌/◌, ◌≤◌, ◌<◌, min, length, MatchResult};
ghost use Rattle.ops.specs.Limits.{max_variables};
ghost use Rattle.ops.specs.Rows.{Table};
ghost use Rattle.ops.specs.Lawful.{LawfulTable};
ghost use Rattle.block.specs.Checks.{Accepted, refused_or};
ghost use Rattle.block.specs.Scan.{code_for, declares_global, declares_other, declared_rule, Declaring, NoGlobal, Stopped, DeclaredBy, RefusedBy};

use block::Refusal;
use limits::most_variables;

// The byte of a variable: it has no other type, and may not be read unless it outlives an extended basic block.
fn code(class: u8, ty: u8) -> u8
    requires { ty < 2 }
    ensures { result ≡ code_for class ty }
{
    if class < 2 { 14 - ty } else { 30 - ty }
}

// Whether these three bytes declare a global; or another variable.
fn declares_global(kind: u8, class: u8, ty: u8) -> bool
    ensures { result ≡ declares_global kind class ty }
{
    (kind == 1) & (class == 0) & (ty <= 1)
}

fn declares_other(kind: u8, class: u8, ty: u8) -> bool
    ensures { result ≡ declares_other kind class ty }
{
    (kind == 1) & (class != 0) & (class <= 2) & (ty <= 1)
}

// Reads declarations of globals, up to the first record that is none; how many there are.
fn count_globals(block: &[u8], limit: usize, vars: &mut [u8; 256]) -> usize
    requires { limit ≡ min (length block.now / 3) max_variables }
    ensures { ((T : Table) → LawfulTable T → Declaring T block.now vars.old vars.new (3 * result) result result) × (result ≤ limit) × NoGlobal block.now limit result }
{
    for n in 0..limit {
        let at = 3 * n;
        let ty = block[at + 2];
        if !declares_global(block[at], block[at + 1], ty) {
            return n;
        }
        vars[n] = code(0, ty);
    }
    limit
}

// Reads declarations after the globals, up to the first record that is no good one; how many variables there are.
// Kept beside count_globals: one function of both, with the test as a closure, could promise only what the closure answered
// of each record, and each of the two promises would have to be built from that by an induction.
fn count_others(block: &[u8], limit: usize, globals: usize, vars: &mut [u8; 256]) -> usize
    requires { (globals ≤ limit) × NoGlobal block.now limit globals × (limit ≡ min (length block.now / 3) max_variables) }
    ensures { ((T : Table) → LawfulTable T → (vars₀ : List ℕ) → Declaring T block.now vars₀ vars.old (3 * globals) globals globals → Declaring T block.now vars₀ vars.new (3 * result) result globals) × Stopped block.now (3 * result) result globals × (result ≤ max_variables) }
{
    for n in globals..limit {
        let at = 3 * n;
        let class = block[at + 1];
        let ty = block[at + 2];
        if !declares_other(block[at], class, ty) {
            return n;
        }
        vars[n] = code(class, ty);
    }
    limit
}

// How many variables and globals are declared.
#[derive(Clone, Copy, Debug, PartialEq, Eq)]
pub struct Declared {
    pub variables: usize,
    pub globals: usize,
}

// A refused declaration: the refusal, and how many are declared before its place.
#[derive(Clone, Copy, Debug, PartialEq, Eq)]
pub struct Misdeclared {
    pub refusal: Refusal,
    pub before: Declared,
}

// Refuses a declaration at a place where no good one stands.
fn rule_at(block: &[u8], at: usize) -> Result<(), Refusal>
    ensures { result ≡ refused_or (declared_rule block.now at) at Accepted }
{
    if block.len() <= at {
        return Ok(());
    }
    if block[at] != 1 {
        return Ok(());
    }
    let number = if block.len() - at < 3 { 1 } else { 3 };
    Err(Refusal { number, place: at })
}

// Reads the declarations, up to the first record that is none or the first that is refused.
pub fn scan_declarations(block: &[u8], vars: &mut [u8; 256]) -> Result<Declared, Misdeclared>
    ensures { (T : Table) → LawfulTable T → MatchResult result (λ d. DeclaredBy T block.now vars.old vars.new d.variables d.globals) (λ m. RefusedBy T block.now vars.old vars.new m.refusal m.before.variables m.before.globals) }
{
    let limit = most_variables(block.len() / 3);
    let globals = count_globals(block, limit, vars);
    let n = count_others(block, limit, globals, vars);
    let at = 3 * n;
    let before = Declared {
        variables: n,
        globals,
    };
    match rule_at(block, at) {
        Ok(()) => Ok(before),
        Err(refusal) => Err(Misdeclared { refusal, before }),
    }
}
