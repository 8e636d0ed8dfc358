//! The grammar of a rule book's text, and its first pass: tokens read into forms, up to the first
//! fault of the grammar and its limits. Names are looked up above.
#![tactic(auto)]

mod draft;
mod exprs;
mod first_pass;
mod form;
mod form_fault;
mod headers;
mod key;
mod letters;
mod nodes;
mod params;
mod reader;
mod signs;
mod state;
mod tally;
mod words;

pub use exprs::next_place;
pub use first_pass::read_forms;
pub use form::{Item, ParamForm, RuleForm, SetForm, Span};
pub use form_fault::FormFault;
pub use headers::read_version;
pub use key::NameKey;
pub use state::Heading;
