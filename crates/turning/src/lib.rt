// Turns drawn pictures (W-203).
#![tactic(auto)]

mod block;
mod mirror;
mod picture;
pub mod turn;
