// The calls for C, on numbers and slices only.
#![tactic(auto)]

ghost use Rattle.std.specs.Prelude.{◌≡◌, [], ◌∷◌, ◌≤◌};
ghost use Rattle.ops.specs.Limits.{max_bytes};
ghost use Rattle.block.specs.Checks.{check_of};
ghost use Rattle.runs.specs.Runs.{run_of};
ghost use Rattle.passes.specs.Passes.{pass_of};
ghost use Rattle.ngulo.specs.Numbers.{refusal, check_number, pass_number, access_number, RunAnswer, version};

use block::Refusal;
use checker::check;
use memory::Reason;
use pass::pass;
use run::run;
use runs::Ending;

// A refusal as a number.
fn refused(broken: Refusal) -> u64
    requires { broken.place ≤ max_bytes }
    ensures { result ≡ refusal broken.number broken.place }
{
    u64::from(broken.number) + 256 * broken.place as u64
}

// The version of the library, as a number.
#[unsafe(no_mangle)]
pub extern "C" fn ngulo_version() -> u64
    ensures { result ≡ version }
{
    65536 * 0 + 256 * 7 + 0
}

// 0 if the block is accepted, else number + 256 * place.
#[unsafe(no_mangle)]
pub extern "C" fn ngulo_check(block: &[u8]) -> u64
    ensures { result ≡ check_number (check_of block.now) }
{
    let verdict = check(block);
    match verdict {
        Ok(()) => 0,
        Err(broken) => refused(broken),
    }
}

// 256 * length of the result, which is in out; else number + 256 * place.
#[unsafe(no_mangle)]
pub extern "C" fn ngulo_pass(block: &[u8], out: &mut [u8]) -> u64
    ensures { (result ≡ pass_number (pass_of block.now out.old).answer) × (out.new ≡ (pass_of block.now out.old).out) }
{
    let written = pass(block, out);
    match written {
        Ok(n) => 256 * n as u64,
        Err(broken) => refused(broken),
    }
}

// A report of four numbers.
fn report_as(report: &mut [u64; 4], ending: u64, x: u64, y: u64, count: u64)
    ensures { report.new ≡ ending ∷ x ∷ y ∷ count ∷ [] }
{
    *report = [ending, x, y, count];
}

// The access of a fault as a number: its flags, 256 for a store, and 65536 times the number of the reason.
fn fault_access(store: bool, flags: u8, reason: Reason) -> u64
    ensures { result ≡ access_number store flags reason }
{
    let told = u64::from(flags) + 65536 * u64::from(reason);
    if store {
        return told + 256;
    }
    told
}

// 0 with a report of how the run ended, else number + 256 * place.
#[unsafe(no_mangle)]
pub extern "C" fn ngulo_run(
    block: &[u8],
    globals: &mut [u64],
    memory: &mut [u8],
    report: &mut [u64; 4],
) -> u64
    ensures { RunAnswer (run_of block.now globals.old memory.old) result report.old report.new globals.new memory.new }
{
    let ending = match run(block, globals, memory) {
        Ok(ending) => ending,
        Err(broken) => return refused(broken),
    };
    match ending {
        Ending::Exit { value, count } => report_as(report, 1, value, 0, count),
        Ending::Fault {
            store,
            address,
            flags,
            reason,
            count,
        } => report_as(
            report,
            2,
            address,
            fault_access(store, flags, reason),
            count,
        ),
        Ending::NoResult { position, count } => report_as(report, 3, position, 0, count),
    }
    0
}
