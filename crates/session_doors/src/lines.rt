//! How a held session answers lines.

ghost use Rattle.std.specs.Prelude.{◌≡◌, [], false, IfOk, IfErr};
ghost use Rattle.gtp_rules.specs.Lines.{line_of};
ghost use Rattle.gtp_lex.specs.Raw.{raw_line};
ghost use Rattle.session_doors.specs.Answered.{has_feed, AnswersText, LeavesUnanswered};

use crate::held::HeldSession;
use gtp_io::SureShelf;
use gtp_lex::Raw;
use helpers::Helpers;
use session_core::Session;
use std::alloc::Global;

/// The most bytes of a line.
const LONGEST_LINE: usize = 65_536;

/// Why a text was not answered.
#[derive(Clone, Copy, Debug, PartialEq, Eq)]
pub enum LineFault {
    /// The text has a line feed, so it is not one line.
    LineFeed,
    /// There was no memory.
    NoMemory,
}

/// A session that did not answer a text, and why; the session is as it was before.
#[derive(Drop)]
pub struct Unanswered {
    /// The session.
    pub session: HeldSession,
    /// Why the text was not answered.
    pub fault: LineFault,
}

/// Whether a text has a line feed.
fn has_feed(text: &[u8]) -> bool
    ensures { result ≡ has_feed text.now }
{
    text.contains(&b'\n')
}

/// The line of a text.
fn raw_of(text: &[u8]) -> Raw<'_>
    ensures { raw_line result ≡ line_of text.now }
{
    if text.len() <= LONGEST_LINE {
        Raw::Line(text)
    } else {
        Raw::TooLong
    }
}

/// Answers a line with `helpers`, which is empty.
fn answer_with(alloc: Global, helpers: Helpers, session: HeldSession, text: &[u8]) -> HeldSession
    requires { helpers.slots.items ≡ [] }
    ensures { AnswersText session text.now result }
{
    let HeldSession {
        engine,
        matcher,
        ..
    } = session;
    let mut session = Session {
        engine,
        matcher,
        helpers,
    };
    let mut files = SureShelf::new(Vec::new(alloc), Vec::new(alloc));
    let reply = session.line(raw_of(text), &mut files);
    let Session {
        engine,
        matcher,
        ..
    } = session;
    HeldSession {
        engine,
        matcher,
        reply,
    }
}

/// Answers `text` as a line of the protocol, if it has no line feed; else the session is as it was. Each file that the
/// line names counts as empty. Takes memory.
pub fn answer(alloc: Global, session: HeldSession, text: &[u8]) -> Result<HeldSession, Unanswered>
    ensures ok { IfOk result (AnswersText session text.now) }
    ensures line { IfOk result (λ _. has_feed text.now ≡ false) }
    ensures err { IfErr result (LeavesUnanswered session text.now) }
{
    if has_feed(text) {
        return Err(Unanswered {
            session,
            fault: LineFault::LineFeed,
        });
    }
    match Helpers::new(alloc, Vec::new(alloc)) {
        Ok(helpers) => Ok(answer_with(alloc, helpers, session, text)),
        Err(_) => Err(Unanswered {
            session,
            fault: LineFault::NoMemory,
        }),
    }
}
