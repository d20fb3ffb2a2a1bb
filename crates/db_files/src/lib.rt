//! Which database the pages of a file stand for, as definitions.
#![tactic(auto)]
