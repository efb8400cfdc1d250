//! The grammar of the words of a command line and of the lines of a script.
#![tactic(auto)]

mod create;
mod laws;
mod qualifier;
mod script;
mod verb;
mod words;

pub use laws::{one_request, written_request};
pub use script::{ScriptLine, read_script};
pub use words::{BadWords, Command, read_words};
