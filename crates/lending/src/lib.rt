// Rule 11: the lent globals and memory.
#![tactic(auto)]

ghost use Rattle.std.specs.Prelude.{◌≡◌};
ghost use Rattle.runs.specs.Steps.{code_fits, codes_fit, lent_ok};

use limits::memory_fits;

// A global of a variable with this byte, of which bit 0 is clear for 32 bits, is within its width.
fn fits_type(code: u8, x: u64) -> bool
    ensures { result ≡ code_fits code x }
{
    (code % 2 == 1) | (x < 0x1_0000_0000)
}

// Each 32-bit global is below 2^32; base: the variables' bytes. It is called once a run: a call of its own leaves the loop over the ops its registers.
#[inline(never)]
fn globals_fit(base: &[u8], globals: &[u64]) -> bool
    ensures { result ≡ codes_fit base.now globals.now }
{
    base.iter()
        .zip(globals.iter())
        .all(|(code, x)| fits_type(*code, *x))
}

// Rule 11: as many globals as are declared, each within its width, and no more memory than the limit.
pub fn lent_ok(base: &[u8; 256], declared: usize, globals: &[u64], memory: &[u8]) -> bool
    ensures { result ≡ lent_ok base.now declared globals.now memory.now }
{
    if globals.len() != declared {
        return false;
    }
    if !globals_fit(base, globals) {
        return false;
    }
    memory_fits(memory.len())
}
