//! The options of a session as numbers of a caller.

ghost use Rattle.std.specs.Prelude.{◌≡◌, true};
ghost use Rattle.match_engine.specs.ReadingDepths.{depths_of};
ghost use Rattle.go_options.specs.Found.{AreInRange};
ghost use Rattle.session_core.specs.EngineView.{depths_in};
ghost use Rattle.session_doors.specs.Options.{is_cache, are_states};

use board_doors::DepthBytes;
use go_options::{Files, Options};
use read_rules::Depths;
use std::alloc::Global;

/// The options of a session, as a caller gives them. The layout is that of C, and each field may hold any number.
#[repr(C)]
#[derive(Clone, Copy)]
pub struct SessionOptions {
    /// How deep readings go, and in which tree.
    pub depths: DepthBytes,
    /// How many questions may be cached with their answers: 8 to 65,536.
    pub cache: u32,
    /// The most states of the automaton of the patterns: 1 to 1,000,000.
    pub states: u32,
}

/// The least number of questions that may be cached.
const LEAST_CACHE: u32 = 8;

/// The greatest number of questions that may be cached.
const GREATEST_CACHE: u32 = 65_536;

/// The greatest number of states that may be allowed for an automaton.
const GREATEST_STATES: u32 = 1_000_000;

/// Whether `cache` questions may be cached.
pub(crate) fn is_cache(cache: u32) -> bool
    ensures { result ≡ is_cache cache }
{
    LEAST_CACHE <= cache && cache <= GREATEST_CACHE
}

/// Whether `states` states may be allowed for an automaton.
pub(crate) fn are_states(states: u32) -> bool
    ensures { result ≡ are_states states }
{
    1 <= states && states <= GREATEST_STATES
}

/// The program's options with these depths, this cache and these states, and no files.
pub(crate) fn program_options(alloc: Global, depths: Depths, cache: u32, states: u32) -> Options
    requires cache { is_cache cache ≡ true }
    requires states { are_states states ≡ true }
    ensures ranges { AreInRange result }
    ensures depths { depths_in depths.tree result ≡ depths_of depths }
    ensures numbers { (result.cache ≡ cache) × (result.states ≡ states) }
{
    Options {
        depth: depths.plies,
        branch: depths.wide,
        cache,
        states,
        stats: false,
        generate: None,
        files: Files::new(alloc),
    }
}
