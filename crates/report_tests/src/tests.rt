//! The reports that authors of pattern files get.

mod entries;
mod faults;
mod never;
mod ports;
mod states;
mod warnings;
