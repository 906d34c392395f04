// DER elements as X.690 has them and document 01 narrows them: one byte of tag, three forms of length, at most sixteen deep.
#![tactic(auto)]

pub mod content;
pub mod element;
pub mod head;
pub mod integer;

// A byte's place in the message.
#[derive(Clone, Copy)]
pub struct Offset(pub usize);
