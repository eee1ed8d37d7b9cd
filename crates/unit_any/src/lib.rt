//! Units of any type of the RPKI to Router protocol, error reports included, read and written one
//! after the other as in a session.
#![tactic(auto)]

pub mod answering;
mod any_unit;
mod convert;
pub mod laws;
pub mod length;
pub mod placing;
mod report;
mod report_view;
mod session_view;

pub use any_unit::AnyUnit;
pub use report::Report;
pub use report_view::ReportView;
pub use session_view::{SessionFault, SessionView};
