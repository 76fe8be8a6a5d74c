// W-207, a profile for spine labels: whether a kept font is as simple as the binder wants it, and its write-out on that condition.
#![tactic(auto)]

pub mod check;
mod pass;
mod rules;
