// What goes by both widths.
#![tactic(auto)]

pub mod condition;
pub mod convert;
