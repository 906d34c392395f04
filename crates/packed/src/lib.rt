// The protocol's state in bytes that the host lends: packed and unpacked, every field in its order, numbers big-endian.
#![tactic(auto)]

pub mod answer;
pub mod arrays;
mod bytes;
pub mod enrolment;
mod places;
pub mod sent;
pub mod table;
