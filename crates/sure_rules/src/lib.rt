//! Sure captures as definitions: the attacker plays candidates of a reading's game tree, and the defender may pass or
//! play at every point of the board. A sure capture therefore holds whatever the defender plays within the plies. The
//! answers of a reading promise less: they hold against the replies that the reading tries. The laws say what a sure
//! answer is in Go's words, and that no defence stands against one. There is no code here.
#![tactic(auto)]

pub mod laws;
