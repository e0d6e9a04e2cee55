// Writing: the bytes of a body, from the tables.
#![tactic(auto)]

mod bytes;

pub use bytes::write_body;
