//! The output of `rtr_list --summary`: how many units of each kind and prefix length there are,
//! which answers, and which ASes announce most, over any reader and writers.
#![tactic(auto)]

mod answers;
mod as_counts;
mod numbers;
mod run;
mod summary;
mod tally;
mod text;
mod words;

pub use run::summarise;
pub use words::summary_wanted;
