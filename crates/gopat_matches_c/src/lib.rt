//! Matches of patterns for programs in C, and in any language that can call C: the exports of the static library
//! `libgopat_matches_c.a`.
//!
//! A handle holds the patterns of a text. It is a struct of the caller's, all zeros before its first call; the calls
//! take it by a pointer, and `gopat_patterns_close` frees what it holds. `gopat_matches` writes the matches on a board
//! into the caller's buffer as numbers, without any text. Each clause says what the reply is on the numbers that came
//! in. `gopat_matches.h`, in the folder of this crate, is what a C compiler reads.
#![tactic(auto)]

ghost use Rattle.std.specs.Prelude.{◌≡◌, None, IfSome};
ghost use Rattle.match_doors.specs.Matching.{matching_of, closed_reply, AnswersWithMatches};
ghost use Rattle.gopat_matches_c.specs.Opened.{IsOpened};

mod handle;
mod slot;

use board_bytes::BoardBytes;
use board_doors::DepthBytes;
use handle::{PatternsHandle, opened};
use match_doors::{MatchBytes, MatchReply, OpenReply, closed_reply, find};
use std::alloc::Global;

/// Reads the patterns of `text`, which name no helper, into a handle. What the handle held before is freed first. The
/// reply says how many patterns the handle holds, or gives the first fault of the text; with a fault the handle is
/// empty.
#[unsafe(no_mangle)]
pub extern "C" fn gopat_patterns_open(
    alloc: Global,
    patterns: &mut PatternsHandle,
    text: &[u8],
) -> OpenReply
    ensures { IsOpened text.now result patterns.new.slot.held }
{
    patterns.close(alloc);
    opened(alloc, patterns, text)
}

/// Writes the matches on the board for the colour 1, Black, or 2, White, over the front of the buffer, in order: by the
/// pattern's number, the transformation and the point. With a fault, and if the buffer is too short, it stays as it is.
/// The handle holds the same patterns afterwards.
#[unsafe(no_mangle)]
pub extern "C" fn gopat_matches(
    alloc: Global,
    patterns: &mut PatternsHandle,
    board: BoardBytes,
    colour: u8,
    depths: DepthBytes,
    found: &mut [MatchBytes],
) -> MatchReply
    ensures closed { patterns.old.slot.held ≡ None → result ≡ closed_reply }
    ensures unwritten { patterns.old.slot.held ≡ None → found.new ≡ found.old }
    ensures answers { IfSome patterns.old.slot.held (λ list.
        AnswersWithMatches (matching_of list board colour depths) found.old found.new result) }
    ensures same { patterns.new.slot.held ≡ patterns.old.slot.held }
{
    match patterns.take(alloc) {
        Some(mut matcher) => {
            let reply = find(&mut *matcher, alloc, &board, colour, depths, found);
            patterns.put(matcher);
            reply
        }
        None => closed_reply(),
    }
}

/// Frees what a handle holds. Afterwards the handle is empty, as before its first call; an empty handle stays empty.
#[unsafe(no_mangle)]
pub extern "C" fn gopat_patterns_close(alloc: Global, patterns: &mut PatternsHandle)
    ensures { patterns.new.slot.held ≡ None }
{
    patterns.close(alloc);
}
