//! The grammar of statements: which texts are which statement, and the limits that a text shows.
#![tactic(auto)]
