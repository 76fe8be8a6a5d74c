// W-210, figures for the collection: what the characters of several stores come to, code by code, in the caller's bytes.
#![tactic(auto)]

pub mod adding;
mod check;
pub mod figure;
