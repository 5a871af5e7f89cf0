//! What a policy is worth, and the best responses to it: exact values over the tree of a game.
#![tactic(auto)]

mod collecting;
mod constant_sums;
mod factors;
mod fault;
mod gathering;
mod reach;
mod responding;
mod responses;
mod scale;
mod slots;
mod sums;
mod table;
mod weighed;
mod work;

pub use fault::JudgeFault;
pub use work::{Work, answer_at, constant_sum, nash_conv, prepare, respond, value};
