//! Small games for tests of the layers above `spiel_api`: a joint step between chance and a move ([`Stakes`]),
//! plays as long as a play may be ([`Chain`]), and all that a table of chance nodes, decisions and ends can
//! show ([`NodeTable`]): unequal chances, texts that tell more or less, players who forget, units and returns up
//! to the largest. No command plays them.
#![tactic(auto)]

mod chain;
mod node;
mod stakes;
mod table;

pub use chain::Chain;
pub use node::Node;
pub use stakes::Stakes;
pub use table::NodeTable;
