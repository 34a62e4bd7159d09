//! Answers that are cached with the facts that they rest on, and are used again if these facts hold.
//!
//! A question has an answer on each position. A cache holds as many questions as its capacity, the last used first, and
//! for each of them from one to four variants, the last cached or found first: a variant is an answer with the recorded
//! facts that it rests on. An answer may be cached only if it is the question's answer on every position on which its
//! facts hold, so what is found is always right. A variant *stands* on a position if its facts hold there.
//!
//! After GNU Go Manual, "Tactical reading", on the persistent cache, which keeps an estimated area in place of the
//! facts.
#![tactic(auto)]

mod cache;
mod digits;
mod front;
mod kept_answers;
mod question;
mod variants;

pub use cache::Cache;
pub use digits::{PLY_VALUES, POINT_VALUES};
pub use kept_answers::{Asked, KeptAnswers};
pub use question::{Question, Readable};
pub use variants::Variant;
