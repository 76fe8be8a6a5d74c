// The command stream: its commands read one by one and carried out on a store, the bytes of each written, and a kept font written as a stream.
#![tactic(auto)]

pub mod command;
pub mod digits;
pub mod reading;
pub mod write;
pub mod writing;
