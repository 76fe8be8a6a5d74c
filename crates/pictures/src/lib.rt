// Picture data of characters: judges it, and draws its rows. Everything here is a function of byte slices.
#![tactic(auto)]

pub mod bitmap;
pub mod compressed;
pub mod dots;
pub mod picture;
pub mod runs;
pub mod size;
