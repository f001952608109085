//! Texts: what is printed of a history and of a store, and what is read of a script and of a command line.
#![tactic(auto)]

mod command_line;
mod escape;
mod history_text;
mod last_line;
mod line_grammar;
mod line_lookup;
mod maps_text;
mod numbers_text;
mod plan;
mod printed_words;
mod script;
mod script_builder;
mod script_fault;
mod sink_buffer;
mod transcript_lines;
mod unique_history;
mod word_split;
mod words_fault;

pub use command_line::read_words;
pub use history_text::transcript;
pub use last_line::{LastLine, write_last_line};
pub use maps_text::dump;
pub use numbers_text::{stat_of_store, stat_text};
pub use plan::{DEMO_LIMIT, Job, PlainPlan, Plan, RunPlan};
pub use script::parse_script;
pub use script_fault::ScriptFault;
pub use unique_history::one_history;
pub use words_fault::WordsFault;

#[cfg(test)]
mod store_tests;
#[cfg(test)]
mod tests;
