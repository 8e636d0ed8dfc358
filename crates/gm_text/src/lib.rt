//! The tokens of a text, text that grows, and the schema with which maps and books begin.
//!
//! Names, numbers, signs and `_` stand in a text between blanks and comments (`#` to the end of
//! the line). A `Lexer` answers one token after another and copies nothing; a `Text` is written
//! at its end. A schema, a dimension with its embeddings, is read from a lexer and printed to a
//! text.
#![tactic(auto)]

mod after_words;
mod at_least;
mod bytes;
mod digits;
mod fault;
mod guess;
mod laws;
mod lexer;
mod scan;
mod schema_fault;
mod schema_printing;
mod schema_reading;
mod schema_words;
mod signed;
mod text;
mod writing;

pub use after_words::{put_embed, put_number};
pub use at_least::a_schema_is_read_or_has_a_first_fault;
pub use fault::LexFault;
pub use gm_model::{Token, TokenKind};
pub use guess::Guess;
pub use laws::{
    a_printed_schema_is_read_again, no_schema_at_a_fault, one_place_behind_tokens,
    one_schema_at_most, one_schema_fault_at_most,
};
pub use lexer::{Lexer, SmallNumber};
pub use schema_fault::SchemaFault;
pub use schema_printing::{kind_word, print_labels, print_schema};
pub use schema_reading::{read_schema, skip_schema};
pub use schema_words::{embed_index, is_reserved, next_token, with_label};
pub use signed::signed_value;
pub use text::Text;
pub use writing::{write_number, write_number_behind_blank, write_word};
