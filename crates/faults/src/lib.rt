// Why a call is turned away: the faults, their numbers, and which fault tells which refusal.
#![tactic(auto)]

mod fault;

pub use fault::{ReadFault, SheetFault};
