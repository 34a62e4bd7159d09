//! How a session is opened.

ghost use Rattle.std.specs.Prelude.{◌≡◌, true, IfOk, IfErr};
ghost use Rattle.match_engine.specs.ReadingDepths.{depths_of as depths_seen};
ghost use Rattle.go_options.specs.Found.{AreInRange};
ghost use Rattle.session_core.specs.EngineView.{depths_in};
ghost use Rattle.match_doors.specs.Patterns.{IsRefused};
ghost use Rattle.session_doors.specs.Opened.{IsFirstOf, IsOpened, IsRefusedAs, Refuses};
ghost use Rattle.session_doors.specs.Options.{is_cache, are_states};

use crate::held::HeldSession;
use crate::options::{SessionOptions, are_states, is_cache, program_options};
use board_doors::depths::depths_of;
use go_options::Options;
use helpers::Helpers;
use match_doors::{PatternFault, Patterns, read_patterns};
use read_rules::{Depths, Tree};
use session_core::{Matcher, Reply, Session};
use std::alloc::Global;

/// Why no session was opened.
#[derive(Clone, Copy, Debug, PartialEq, Eq)]
pub enum OpenFault {
    /// The plies, the wide plies or the tree are out of their ranges.
    Depths,
    /// The number of questions that may be cached is out of its range.
    Cache,
    /// The number of states allowed for the automaton is out of its range.
    States,
    /// The text gives no patterns, or there was no memory.
    Patterns(PatternFault),
}

/// A session before its first line, and how many patterns it has.
#[derive(Drop)]
pub struct OpenedSession {
    /// The session.
    pub session: HeldSession,
    /// How many patterns the session has.
    pub patterns: usize,
}

/// A session with the patterns of `text`, these `options` of the program and readings in `tree`, or why there is none.
/// Takes memory.
fn first(
    alloc: Global,
    text: &[u8],
    tree: Tree,
    options: &Options,
) -> Result<OpenedSession, PatternFault>
    requires { AreInRange options.now }
    ensures ok { IfOk result (IsFirstOf text.now options.now.states (depths_in tree options.now) options.now.cache) }
    ensures err { IfErr result (IsRefused text.now options.now.states) }
{
    let Patterns { list, automaton } = read_patterns(alloc, text, options.states)?;
    let patterns = list.len();
    let matcher = Matcher::new(alloc, list, automaton)?;
    let helpers = Helpers::new(alloc, Vec::new(alloc))?;
    let session = Session::in_tree(alloc, matcher, helpers, tree, options)?;
    let Session {
        engine,
        matcher,
        ..
    } = session;
    Ok(OpenedSession {
        session: HeldSession {
            engine,
            matcher,
            reply: Reply::Nothing,
        },
        patterns,
    })
}

/// A session with the patterns of `text` and readings of these `depths`, which caches up to `cache` questions and whose
/// automaton has at most `states` states, or why there is none. Takes memory.
fn first_by(
    alloc: Global,
    text: &[u8],
    depths: Depths,
    cache: u32,
    states: u32,
) -> Result<OpenedSession, OpenFault>
    requires cache { is_cache cache ≡ true }
    requires states { are_states states ≡ true }
    ensures ok { IfOk result (IsFirstOf text.now states (depths_seen depths) cache) }
    ensures err { IfErr result (IsRefusedAs text.now states) }
{
    let options = program_options(alloc, depths, cache, states);
    match first(alloc, text, depths.tree, &options) {
        Ok(opened) => Ok(opened),
        Err(fault) => Err(OpenFault::Patterns(fault)),
    }
}

/// Opens a session with the patterns of `text`, which name no helper, and with `options`, or gives the first fault: of
/// the depths, of the cache, of the states, then of the text. Memory may run out instead of a fault of the text. Takes
/// memory.
pub fn open(alloc: Global, text: &[u8], options: SessionOptions) -> Result<OpenedSession, OpenFault>
    ensures ok { IfOk result (IsOpened text.now options) }
    ensures err { IfErr result (Refuses text.now options) }
{
    let Some(depths) = depths_of(options.depths) else {
        return Err(OpenFault::Depths);
    };
    if !is_cache(options.cache) {
        return Err(OpenFault::Cache);
    }
    if !are_states(options.states) {
        return Err(OpenFault::States);
    }
    first_by(alloc, text, depths, options.cache, options.states)
}
