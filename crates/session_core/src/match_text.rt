//! Matches as a growing text, one a line.
ghost use Rattle.std.specs.Prelude.{◌≡◌, ◌*◌, ◌<◌, ◌++◌, length, slice_get, OnOk, IfOk};
ghost use Rattle.std.specs.Prelude.{codes, decimal};
ghost use Rattle.machine_rules.specs.MatchTexts.{name_of, match_text, matches_text, AreAmong};
ghost use Rattle.machine_rules.specs.PatternTexts.{feed_after};

use crate::point_lists::push_vertex;
use go_base::{Bytes, NoMemory, Size, Transform};
use match_rules::Match;
use pat_types::Pattern;
use std::alloc::Global;

/// The name of the pattern at place `number` of `patterns`.
fn name_at(patterns: &[Pattern], number: u16) -> &[u8]
    requires { number < length patterns.now }
    ensures { result.now ≡ name_of (slice_get patterns.now number) }
{
    let at = number as usize;
    patterns[at].name.as_slice()
}

/// Appends a transformation between blanks; its number has one digit.
fn push_transform(text: &mut Bytes, t: Transform) -> Result<(), NoMemory>
    ensures { OnOk result (text.new ≡ text.old ++ (codes " " ++ decimal t ++ codes " ")) }
{
    text.extend(&[b' ', b'0' + t.get(), b' '])
}

/// Appends a match.
fn push_match(text: &mut Bytes, patterns: &[Pattern], size: Size, z: Match) -> Result<(), NoMemory>
    requires pattern { z.pattern < length patterns.now }
    requires at { z.at < size * size }
    ensures { OnOk result (text.new ≡ text.old ++ match_text patterns.now size z) }
{
    text.extend(name_at(patterns, z.pattern))?;
    push_transform(text, z.transform)?;
    push_vertex(text, size, z.at)
}

/// Appends a match of a list, on a line of its own.
fn push_next(text: &mut Bytes, patterns: &[Pattern], size: Size, z: Match) -> Result<(), NoMemory>
    requires pattern { z.pattern < length patterns.now }
    requires at { z.at < size * size }
    ensures { OnOk result (text.new ≡ text.old ++ feed_after text.old ++ match_text patterns.now size z) }
{
    if !text.as_slice().is_empty() {
        text.push(b'\n')?;
    }
    push_match(text, patterns, size, z)
}

/// The matches `found` in their order, one a line.
pub(crate) fn list_text(
    alloc: Global,
    patterns: &[Pattern],
    size: Size,
    found: &[Match],
) -> Result<Bytes, NoMemory>
    requires { AreAmong patterns.now size found.now }
    ensures { IfOk result (λ text. text ≡ matches_text patterns.now size found.now) }
{
    let mut text = Bytes::new(alloc);
    for z in found {
        push_next(&mut text, patterns, size, *z)?;
    }
    Ok(text)
}
