// The black dots of a picture, counted without drawing it.
#![tactic(auto)]

mod beyond;
mod bitmap;
pub mod compressed;
mod ones;
pub mod picture;
