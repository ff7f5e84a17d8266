// How a run goes on and ends; definitions in specs/, laws in proofs/.
#![tactic(auto)]

ghost use Rattle.std.specs.Prelude.{Some};
ghost use Rattle.runs.specs.Words.{ending_words};

use memory::Reason;
use std::fmt;

// How a run ended. Each ending gives the number of ops run.
#[derive(Clone, Copy, Debug, PartialEq, Eq)]
pub enum Ending {
    Exit {
        value: u64,
        count: u64,
    },
    Fault {
        store: bool,
        address: u64,
        flags: u8,
        reason: Reason,
        count: u64,
    },
    NoResult {
        position: u64,
        count: u64,
    },
}

impl fmt::Display for Ending {
    ghost output = { λ ending. Some (ending_words ending) };

    fn fmt<W: fmt::Write>(&self, f: &mut fmt::Formatter<W>) -> fmt::Result {
        let count = match *self {
            Ending::Exit { value, count } => {
                write!(f, "exit 0x{value:x}")?;
                count
            }
            Ending::Fault {
                store,
                address,
                flags,
                reason,
                count,
            } => {
                let access = if store { "store" } else { "load" };
                write!(
                    f,
                    "fault {access} at 0x{address:x} flags 0x{flags:02x} ({reason})"
                )?;
                count
            }
            Ending::NoResult { position, count } => {
                write!(f, "no stated result at op {position}")?;
                count
            }
        };
        let ops = if count == 1 { "op" } else { "ops" };
        write!(f, " after {count} {ops}")
    }
}

// How a run ends: with the value that it exits with, a fault, or no stated result.
#[derive(Clone, Copy, Debug, PartialEq, Eq)]
pub enum Stop {
    Leaves(u64),
    Faults {
        store: bool,
        address: u64,
        flags: u8,
        reason: Reason,
    },
    Unstated,
}

// How the run goes on after an op: at the next op, which starts at this place, at a label, or not at all.
#[derive(Clone, Copy, Debug, PartialEq, Eq)]
pub enum Outcome {
    Falls(usize),
    JumpsTo(u8),
    Stops(Stop),
}
