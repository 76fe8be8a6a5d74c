// What the programs write: text put over bytes, and numbers in its lines; and what stands around their work.
#![tactic(auto)]

pub mod column;
pub mod program;
