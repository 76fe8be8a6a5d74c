// The form of a store: a run of records in one lent buffer. It is checked, and its records are met and sought.
#![tactic(auto)]

pub mod kept_fonts;
pub mod layout;
pub mod locate;
pub mod number;
pub mod records;
pub mod seek;
pub mod tally;
pub mod walk;
