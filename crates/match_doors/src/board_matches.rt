//! The matches on a board of bytes.

ghost use Rattle.std.specs.Prelude.{◌≡◌, length};
ghost use Rattle.match_doors.specs.Matching.{matching_on, matching_of, AnswersWithMatches};

use crate::matcher::Matcher;
use crate::replies::{MatchBytes, MatchReply, fault_reply, found_reply, unanswered};
use board_bytes::{BoardBytes, colour_named, position_of};
use board_doors::depths::depths_of;
use board_doors::{DepthBytes, DoorFault};
use go_base::Position;
use std::alloc::Global;

/// Writes the matches on the position, or gives the first fault: of the colour, then of the depths.
#[tactic(auto, unfolding(crate::specs::Matching::matching_on))]
fn find_on(
    matcher: &mut Matcher,
    alloc: Global,
    position: &Position,
    colour: u8,
    depths: DepthBytes,
    out: &mut [MatchBytes],
) -> MatchReply
    ensures answers { AnswersWithMatches (matching_on matcher.old colour depths position.now) out.old out.new result }
    ensures same { matcher.new ≡ matcher.old }
{
    let Some(friend) = colour_named(colour) else {
        return fault_reply(DoorFault::Colour);
    };
    let Some(depths) = depths_of(depths) else {
        return fault_reply(DoorFault::Depths);
    };
    match matcher.find(alloc, position, friend, depths) {
        Ok(found) => found_reply(found.as_slice(), out),
        Err(_) => unanswered(),
    }
}

/// Writes the matches on the board for the colour 1, Black, or 2, White, over the front of the buffer, in order: by the
/// pattern's number, the transformation and the point. With a fault, and if the buffer is too short, it stays as it is.
/// The faults come in this order: of the board, of the colour, of the depths, too little memory, of the buffer.
#[tactic(auto, unfolding(crate::specs::Matching::matching_of))]
pub fn find(
    matcher: &mut Matcher,
    alloc: Global,
    board: &BoardBytes,
    colour: u8,
    depths: DepthBytes,
    out: &mut [MatchBytes],
) -> MatchReply
    ensures answers { AnswersWithMatches (matching_of matcher.old board.now colour depths) out.old out.new result }
    ensures same { matcher.new ≡ matcher.old }
{
    match position_of(board) {
        Ok(position) => find_on(matcher, alloc, &position, colour, depths, out),
        Err(fault) => fault_reply(DoorFault::Board(fault)),
    }
}
