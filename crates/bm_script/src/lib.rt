//! Reads a script: a setting, and what is done to its servers.
#![tactic(auto)]

mod commands;
mod endpoint;
mod fault;
mod key;
pub mod laws;
mod lists;
mod racks;
mod rows;
mod script;
mod top;
mod value;
mod verbs;

pub use fault::{Place, ScriptFault};
pub use key::Key;
pub use script::read_script;
pub use verbs::{ChangeVerb, WordedScript, read_worded_script};
