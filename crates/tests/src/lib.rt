#![tactic(auto)]

// Tests of the calls of `sheet`: every refusal with what it leaves, damaged sheets and tables, and the limits.
#[cfg(test)]
mod bytes;
#[cfg(test)]
mod damage;
#[cfg(test)]
mod limits;
#[cfg(test)]
mod steps;
