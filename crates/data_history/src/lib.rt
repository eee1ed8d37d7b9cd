//! The history of a cache: its present data and the steps back to earlier data of its session, as
//! bytes in slices, without memory, clock or sockets (RFC 8210 sections 5.1, 5.3 and 8.2).
//!
//! `Stores` keeps track of the data that a cache serves and of newer data that wait to be saved:
//! `next_into` makes a history of new data, and `take_into` a store, the bytes to save after the
//! head that `seal_head` returns. New data are served only once the caller reports that they are
//! saved. So a cache never serves two different data under one session and serial number
//! (`laws::one_data_under_each_name`). `since_into` writes the answer to a serial query. At a start
//! `open_saved` and `Stores::start` check whether a file is whole.
#![tactic(auto)]

mod check;
mod join;
mod kept;
mod known;
pub mod laws;
mod newer;
mod next;
mod numbers;
mod part;
mod room;
mod seal;
mod serials;
mod since;
mod store;
mod stores;
#[cfg(test)]
mod tests;

pub use check::{CheckFault, check_history};
pub use known::knows;
pub use newer::Untaken;
pub use next::{Limits, Refused, first_into, next_into};
pub use numbers::Numbers;
pub use part::{data_at, first_part};
pub use room::Room;
pub use seal::{open_old, open_saved, seal_head};
pub use serials::serials_into;
pub use since::{SinceFault, since_into};
pub use store::{TakeFault, first_store_into, old_store_into, take_into};
pub use stores::{Stores, check_store};
