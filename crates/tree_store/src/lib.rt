//! Subtrees that stand side by side: what they give, windows in rows of them, and storing their pages.
#![tactic(auto)]

mod storing;

pub use storing::{
    Fan, give_all, place_on, put_node, raise, rewrite_on, store, store_root, take_off,
};
