// The store's calls: download, remove, tell, draw.
#![tactic(auto)]

pub mod characters;
pub mod download;
pub mod drawing;
pub mod fonts;
pub mod known;
pub mod telling;
