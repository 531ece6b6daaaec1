// The stored form: its sections handed on as parts of the lent bytes; bytes and index are inverse.
#![tactic(auto)]

pub mod parts;
pub mod reading;
