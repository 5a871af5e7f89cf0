//! The command line: words in, bytes and a status out.
#![tactic(auto)]

mod answer;
mod case;
mod files;
mod judge;
mod legal;
mod lists;
mod named;
mod policies;
mod policy;
mod refusal;
mod reports;
mod restore;
mod save;
mod show;
mod tidy;
mod top;
mod value;
mod writing;

pub use reports::report;
pub use top::run;
