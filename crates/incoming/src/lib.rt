// The rows of 01's table that both ends share.
#![tactic(auto)]

pub mod rows;
