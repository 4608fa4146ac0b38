// The register of book-entry securities.
#![tactic(auto)]

pub mod register;
pub mod states;
