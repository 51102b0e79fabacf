//! The command line of `mucwathi`.
#![tactic(auto)]

mod command_line;
mod misuse;
mod offers;
mod task;
mod version;

pub use clap::Error;
pub use command_line::read_words;
pub use misuse::{Misuse, last_name, misuse_of};
pub use task::{Form, Giving, Judging, Looking, Rewriting, Source, Target, Task, View};
