//! Hints for authors of pattern files, beside the faults: what may not have been meant, and what in GNU Go's entries
//! gopat does not have or gives another value.
//!
//! No clause speaks of hints; `report_tests` tests them.
#![tactic(auto)]

mod alone;
mod caution;
mod colon;
mod gnu_go;
mod images;
mod items;
mod never;
mod port;
mod warning;

pub use caution::Caution;
pub use port::{Port, PortNote, port_notes, port_of};
pub use warning::{Warning, warnings};
