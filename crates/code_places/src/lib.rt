//! A method's code as a listing: where its instructions start and where they go (ECMA-335 III.1.7), and what its exception clauses
//! say of its offsets (II.19, I.12.4.2).
#![tactic(auto)]

mod clauses;
mod listing;
mod offsets;
mod targets;
mod walk;

pub use clauses::{
    begins_try, handler_at, lies_well, may_go, may_leave, stands_in_catch, stands_in_finally,
    stands_in_none,
};
pub use listing::Listing;
pub use targets::{target, target_count};
