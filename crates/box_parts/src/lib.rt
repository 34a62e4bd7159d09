//! A box in two parts: its pointer and its allocator.
//!
//! `Parts::of` takes a box apart and `Parts::into_box` makes it again; the value in the box stays the same, as the
//! ghost field `value` says. A crate that hands a box to C needs both calls: the pointer can stand in a struct of C,
//! and the box cannot. The two proofs by hand follow the proofs of the kit's `futures`.
#![tactic(auto)]

mod parts;

pub use parts::Parts;
