//! The words of the command line of `beamer-connections`, and what they ask for.
#![tactic(auto)]

mod endpoint;
mod options;
mod words;

pub use options::{Chosen, Format, Options};
pub use words::{Form, read_words};
