// The check of a block.
#![tactic(auto)]

ghost use Rattle.block.specs.Checks.{Checked};
ghost use Rattle.block.specs.Scan.{RoomFor};

use block::Refusal;
use limits::{LABELS, MAX_OPS, SHORT_OPS};

// The check, with room for the places of the ops.
fn check_with(block: &[u8], places: &mut [u16]) -> Result<(), Refusal>
    requires { RoomFor block.now places.old }
    ensures { Checked block.now result }
{
    let mut base = [15u8; 256];
    let mut labels = [0u16; LABELS];
    scan::scan(block, &mut base, places, &mut labels)?;
    Ok(())
}

// Whether a block meets every rule; if not, the first rule that is broken and its place.
pub fn check(block: &[u8]) -> Result<(), Refusal>
    ensures { Checked block.now result }
{
    if block.len() <= 2 * SHORT_OPS {
        return check_with(block, &mut [0; SHORT_OPS]);
    }
    check_with(block, &mut [0; MAX_OPS])
}
