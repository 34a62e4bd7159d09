//! Further sets of points, as definitions: the wider tree tries some of them in every ply, and some only if a wide ply
//! is left. The laws say in Go's own words what the computing definitions mean.
//!
//! In every ply:
//!
//! - *Beside*, for the attacker: the liberties of his strings next to the target that have at most two liberties.
//! - *Rescue*, for the attacker, and *Save*, for the defender: the last liberty of another string of the defender's
//!   that is in atari and lies next to an attacker's string with at most two liberties beside the target.
//! - *Cut*, for the defender: the one liberty of an attacker's string next to a string of the defender's that is next
//!   to a liberty of the target.
//!
//! If a wide ply is left:
//!
//! - *Net*, for the attacker: the empty neighbours of the liberties of a target with exactly three.
//! - *Link*, for the attacker, and *Join*, for the defender: the liberties of the defender's strings next to a liberty
//!   of the target.
//! - *Beside*, for the defender: the liberties of the attacker's strings next to the target that have at most four
//!   liberties.
//! - *Cover*, for the defender: the empty neighbours of the liberties of an attacker's string that is next to the
//!   target and has two or three liberties.
//! - *Approach*, for the defender: the liberties of an attacker's string with at most two liberties that is next to a
//!   point where a defender's stone would be cramped. This point is a liberty of an attacker's string next to the
//!   target that has at most two liberties.
//!
//! The choice of these points is this project's own. There is no code here but the laws.
#![tactic(auto)]

pub mod laws;
