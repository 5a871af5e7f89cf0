//! Game strings: texts that name a game with its parameters, as `kuhn_poker(players=2)`.
//! [`read_game`] reads exactly the texts of one grammar, and [`write_game`] writes the canonical one.
//!
//! Beside them stand the tokens of Gambit files: [`tokens`] gives them, [`begins_with`] looks at the first
//! one, [`token_bytes`] and [`unescape`] give what a token says, and [`write_quoted`] writes a text.
#![tactic(auto)]

mod cutting;
mod fault;
mod kept;
mod laws;
mod pairs;
mod quoting;
mod read;
mod scan;
mod step;
mod token;
mod track;
mod value;
mod words;
mod write;

pub use cutting::{begins_with, tokens};
pub use fault::StringFault;
pub use laws::{files_are_pieces, pieces_are_tokens, tokens_have_their_texts};
pub use quoting::{unescape, write_quoted};
pub use read::read_game;
pub use token::{Token, TokenFault, token_bytes};
pub use value::{GameText, ParamValue};
pub use write::write_game;
