//! How a run opens the pattern files that its words name.
ghost use Rattle.std.specs.Prelude.{◌≡◌, ◌≤◌, ◌++◌, length, drop, map, IfOk, OnOk, IfErr, None, string_bytes};
ghost use Rattle.gtp_io.specs.Loading.{missed_after};
ghost use Rattle.db_rules.specs.Entries.{entry_of};
ghost use Rattle.db_rules.specs.Faults.{first_fault, entries};
ghost use Rattle.db_read.specs.Reading.{BlamesAt};
ghost use Rattle.go_options.specs.Found.{AreInRange};
ghost use Rattle.session.specs.PatternFiles.{most_patterns, needs_feed, added_feed, AddsContents, IsJoined, MissedBy};
ghost use Rattle.session.specs.PatternFiles.{MissedIn};
ghost use Rattle.session.specs.PatternFiles.{HasFewStates, RefusesStates, IsRefused};
ghost use Rattle.helpers.specs.Slots.{listed, states_of};
ghost use Rattle.session_core.specs.EngineView.{depths_in};
ghost use Rattle.session_core.specs.Handed.{handed, helper_names};
ghost use Rattle.session_core.specs.MatcherView.{matcher_of};
ghost use Rattle.machine_rules.specs.Matcher.{plain_matcher};
ghost use Rattle.session.specs.FirstSession.{IsFirstWith, Opens};
ghost use Rattle.session.specs.Waiting.{none_wait, none_sent};

use crate::outbox::Outbox;
use crate::outcome::OpenError;
use crate::serve::Server;
use db_read::{DbError, read};
use dfa_join::compile;
use go_base::Bytes;
use go_options::Options;
use gtp_io::{LoadError, Loader};
use gtp_lex::Lines;
use helpers::{Helper, Helpers};
use pat_types::Pattern;
use read_rules::Tree;
use session_core::{Matcher, Session};
use std::alloc::{AllocError, Global};

/// Whether the contents of a file are not empty and do not end in a line feed.
fn needs_feed(text: &[u8]) -> bool
    ensures { result ≡ needs_feed text.now }
{
    !text.is_empty() && text[text.len() - 1] != b'\n'
}

/// The text, with a line feed if the part after its first `before` bytes needs one.
fn with_feed(mut text: Vec<u8>, before: usize) -> Result<Vec<u8>, AllocError>
    requires { before ≤ length text.items }
    ensures { IfOk result (λ new. new.items ≡ text.items ++ added_feed (drop before text.items)) }
{
    if needs_feed(&text[before..]) {
        text.push(b'\n')?;
    }
    Ok(text)
}

/// The text, then the contents of the file `name`, then a line feed if these need one.
fn with_file<L: Loader>(files: &mut L, name: &str, text: Vec<u8>) -> Result<Vec<u8>, LoadError>
    ensures ok { IfOk result (λ new. AddsContents (L.contents files.old name.now) text.items new.items) }
    ensures missed { L.missed files.new ≡ missed_after (L.missed files.old) name.now result }
    ensures same { L.contents files.new ≡ L.contents files.old }
{
    let before = text.len();
    let text = files.load(name, text)?;
    Ok(with_feed(text, before)?)
}

/// The contents of the files, joined in their order. Loading stops at the first file that fails.
fn joined<L: Loader>(alloc: Global, names: &[String], files: &mut L) -> Result<Vec<u8>, LoadError>
    ensures ok { IfOk result (λ text. IsJoined (L.contents files.old) (map string_bytes names.now) text.items) }
    ensures kept { OnOk result (L.missed files.new ≡ L.missed files.old) }
    ensures missed { IfErr result (MissedBy (map string_bytes names.now) (L.missed files.old) (L.missed files.new)) }
    ensures same { L.contents files.new ≡ L.contents files.old }
{
    let mut text = Vec::new(alloc);
    for name in names {
        text = with_file(files, name.as_str(), text)?;
    }
    Ok(text)
}

/// The patterns of a text without a fault; they may name the helpers of the `known` names.
fn patterns_in(alloc: Global, known: &[Bytes], text: &[u8]) -> Result<Vec<Pattern>, DbError>
    ensures ok { IfOk result (λ patterns. (first_fault known.now text.now ≡ None)
        × (map entry_of patterns.items ≡ entries text.now)) }
    ensures few { IfOk result (λ patterns. length patterns.items ≤ most_patterns) }
    ensures err { IfErr result (λ error. BlamesAt error (first_fault known.now text.now)) }
{
    read(alloc, text, known, Vec::new(alloc))
}

/// A server before its first line, and the splitter of lines before its first byte.
#[derive(Drop)]
pub(crate) struct Opened {
    pub(crate) server: Server,
    pub(crate) lines: Lines,
}

/// A session with `patterns` and their automaton, `helpers`, readings in `tree`, and the depths of `options`. The
/// automaton may have at most as many states as `options` says.
fn session_with(
    alloc: Global,
    patterns: Vec<Pattern>,
    helpers: Helpers,
    tree: Tree,
    options: &Options,
) -> Result<Session, OpenError>
    requires few { length patterns.items ≤ most_patterns }
    requires ranges { AreInRange options.now }
    ensures ok { IfOk result (λ session. IsFirstWith (depths_in tree options.now) options.now.cache session.engine) }
    ensures matches { IfOk result (λ session. matcher_of session.matcher ≡ plain_matcher patterns.items) }
    ensures helpers { IfOk result (λ session. states_of state session.helpers ≡ states_of state helpers) }
    ensures few { OnOk result (HasFewStates patterns.items options.now.states) }
    ensures err { IfErr result (RefusesStates patterns.items options.now.states) }
{
    let automaton = compile(alloc, patterns.as_slice(), options.states)?;
    let matcher = Matcher::new(alloc, patterns, automaton)?;
    Ok(Session::in_tree(alloc, matcher, helpers, tree, options)?)
}

/// Opens the pattern files of `options`: joins their contents, reads them as one database that may name the `helpers`,
/// and makes one automaton of its patterns. Readings are in `tree`. Takes all the memory that the run asks for before
/// its first line.
pub(crate) fn open<L: Loader>(
    alloc: Global,
    tree: Tree,
    options: &Options,
    files: &mut L,
    helpers: Helpers,
) -> Result<Opened, OpenError>
    requires { AreInRange options.now }
    ensures ok { IfOk result (λ opened. Opens tree (states_of state helpers) (L.contents files.old) options.now
        (matcher_of opened.server.session.matcher) opened.server.session.engine
        (states_of state opened.server.session.helpers) opened.lines) }
    ensures none { IfOk result (λ opened. opened.server.outbox.waiting ≡ none_wait) }
    ensures unsent { IfOk result (λ opened. opened.server.outbox.sent ≡ none_sent) }
    ensures kept { OnOk result (L.missed files.new ≡ L.missed files.old) }
    ensures err { IfErr result (IsRefused (helper_names (states_of state helpers)) (L.contents files.old)
        options.now.files options.now.states) }
    ensures missed { IfErr result (MissedIn options.now.files (L.missed files.old) (L.missed files.new)) }
    ensures same { L.contents files.new ≡ L.contents files.old }
{
    let text = joined(alloc, options.files.as_slice(), files)?;
    let known = helpers.names(alloc)?;
    let patterns = patterns_in(alloc, known.as_slice(), text.as_slice())?;
    let session = session_with(alloc, patterns, helpers, tree, options)?;
    let lines = Lines::new(alloc)?;
    let outbox = Outbox::new();
    Ok(Opened {
        server: Server { session, outbox },
        lines,
    })
}

/// What a run is given besides its words and its streams.
#[derive(Drop)]
pub(crate) struct Setting {
    /// Where memory comes from.
    pub(crate) alloc: Global,
    /// The tree in which readings are made.
    pub(crate) tree: Tree,
    /// The helpers that patterns may name.
    pub(crate) helpers: Vec<Box<dyn Helper>>,
}

/// Opens the pattern files of `options` as `open` does, with the helpers that the setting hands in.
pub(crate) fn open_with<L: Loader>(
    setting: Setting,
    options: &Options,
    files: &mut L,
) -> Result<Opened, OpenError>
    requires { AreInRange options.now }
    ensures ok { IfOk result (λ opened. Opens setting.tree (handed state setting.helpers.items) (L.contents files.old)
        options.now (matcher_of opened.server.session.matcher) opened.server.session.engine
        (listed state opened.server.session.helpers) opened.lines) }
    ensures none { IfOk result (λ opened. opened.server.outbox.waiting ≡ none_wait) }
    ensures unsent { IfOk result (λ opened. opened.server.outbox.sent ≡ none_sent) }
    ensures kept { OnOk result (L.missed files.new ≡ L.missed files.old) }
    ensures err { IfErr result (IsRefused (helper_names (handed state setting.helpers.items)) (L.contents files.old)
        options.now.files options.now.states) }
    ensures missed { IfErr result (MissedIn options.now.files (L.missed files.old) (L.missed files.new)) }
    ensures same { L.contents files.new ≡ L.contents files.old }
{
    match Helpers::new(setting.alloc, setting.helpers) {
        Ok(helpers) => open(setting.alloc, setting.tree, options, files, helpers),
        Err(_) => Err(OpenError::NoMemory),
    }
}
