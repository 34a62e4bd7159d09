//! The Pattern line and its name.

ghost use Rattle.std.specs.Prelude.{IfNone, ◌≡◌, ◌<◌, ◌≤◌, ◌==◌, ◌||◌, not, nat_lt, length};
ghost use Rattle.std.specs.List.{list_all};
ghost use Rattle.db_rules.specs.Entries.{name_on};
ghost use Rattle.db_rules.specs.Faults.{is_name_char as may_be_in_name, pattern_fault as first_pattern_fault};

use db_lex::{trim, word_len};
use db_rules::FaultKind;

/// The name on a Pattern line: the first word of what follows `Pattern`.
pub fn name_of(line: &[u8]) -> &[u8]
    ensures value { result.now ≡ name_on line.now }
    ensures within { length result.now ≤ length line.now }
{
    let rest = trim(&line[word_len(line)..]);
    &rest[..word_len(rest)]
}

fn is_name_char(b: u8) -> bool
    ensures { result ≡ may_be_in_name b }
{
    33 <= b && b <= 126
}

fn are_name_chars(name: &[u8]) -> bool
    ensures { result ≡ list_all may_be_in_name name.now }
{
    name.iter().all(|b| is_name_char(*b))
}

fn is_no_name(name: &[u8]) -> bool
    ensures { result ≡ (length name.now == 0 || nat_lt 80 (length name.now) || not (list_all may_be_in_name name.now)) }
{
    name.len() == 0 || name.len() > 80 || !are_name_chars(name)
}

/// The first fault of a Pattern line, if this many entries begin before it.
#[tactic(auto, unfolding(db_rules::specs::Faults::pattern_fault))]
pub fn pattern_fault(entries: usize, line: &[u8]) -> Option<FaultKind>
    ensures value { result ≡ first_pattern_fault entries line.now }
    ensures few { IfNone result (entries < 4096) }
{
    if entries >= 4096 {
        return Some(FaultKind::TooManyPatterns);
    }
    if is_no_name(name_of(line)) {
        return Some(FaultKind::NoName);
    }
    None
}
