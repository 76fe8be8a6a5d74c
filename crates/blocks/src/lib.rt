// Reads font and character blocks. Everything here is a function of byte slices.
#![tactic(auto)]

pub mod character;
pub mod field;
pub mod header;
