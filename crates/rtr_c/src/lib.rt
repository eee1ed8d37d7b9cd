//! The calls for programs in C, Go and Rust: units and sequences in memory. Nothing allocates.
//!
//! Each call reads and writes only the slices that it is given. Its results are numbers;
//! `bindings/c/rtr.h` documents what each means.
#![tactic(auto)]

mod answer;
mod apply;
mod cache;
mod cache_calls;
mod changes;
mod check;
mod check_calls;
mod closing;
mod compare;
mod connection_calls;
mod data_answer;
mod data_end;
mod delta;
mod failure;
mod group;
mod group_calls;
mod group_telling;
mod history_calls;
mod in_order;
mod keeping;
mod laws;
mod lines;
mod link;
mod link_calls;
mod link_state;
mod link_status;
mod link_todo;
mod load;
mod lookup;
mod many;
mod next;
mod numbers;
mod order;
mod providers;
mod router;
mod router_action;
mod router_calls;
mod sequence;
mod server_calls;
mod serving;
mod size;
mod stores;
mod stores_answer;
mod stores_calls;
mod stores_state;
mod texts;
mod times;
mod unit;
mod validation;
mod validation_many;
mod write;
