// An `if` taken apart: its record is free, and its test and the row of its branches are in hand.
#[derive(Clone, Copy)]
pub struct IfParts {
    pub at: u32,
    pub test: u32,
    pub branches: u32,
}
