// What the rules have worked on.

// An expression, NOWHERE if all of it has gone into the results, and the results before it, the newest first.
// Both are links as a record has them, and go into one as they are.
#[derive(Clone, Copy)]
pub struct Worked {
    pub target: u32,
    pub results: u32,
}
