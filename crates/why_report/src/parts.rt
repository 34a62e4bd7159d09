//! The parts of a match, and their names.

/// The number of parts of a match.
pub const PARTS: usize = 6;

/// The name of the part with this number; `match` for `PARTS`.
pub fn part_name(part: usize) -> &'static str {
    match part {
        0 => "diagram",
        1 => "move",
        2 => "stone",
        3 => "class n",
        4 => "constraint",
        5 => "helper",
        _ => "match",
    }
}
