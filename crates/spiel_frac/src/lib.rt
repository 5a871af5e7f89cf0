//! What the other crates read and write with: exact fractions in lowest terms, decimal numbers, least
//! common multiples, texts, lists and lists of lists whose contracts see a list, and the fault of a
//! want of memory.
#![tactic(auto)]

mod cutting;
mod digits;
mod fault;
mod frac;
mod list;
mod listing;
mod memory;
mod multiples;
mod numbers;
mod packed;
mod reading;
mod text;

pub use cutting::cut;
pub use digits::{all_digits, short_value};
pub use fault::BadNumber;
pub use frac::{Frac, write_frac, write_ratio};
pub use list::List;
pub use listing::{are_numbers, read_numbers, write_numbers};
pub use memory::NoMemory;
pub use multiples::lcm;
pub use numbers::{read_number, write_number};
pub use packed::Packed;
pub use reading::read_frac;
pub use text::Text;
