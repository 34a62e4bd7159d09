//! Patterns as a growing text, one a line.
ghost use Rattle.std.specs.Prelude.{◌≡◌, ◌++◌, OnOk, IfOk};
ghost use Rattle.machine_rules.specs.PatternTexts.{mark_text, classes_text, name_text, pattern_text, patterns_text};
ghost use Rattle.machine_rules.specs.PatternTexts.{feed_after};

use crate::point_lists::push_number;
use go_base::{Bytes, NoMemory};
use pat_types::{Mark, Pattern};
use std::alloc::Global;

/// A mark as the pattern's colon line has it.
fn mark_text(mark: Mark) -> &'static [u8]
    ensures { result.now ≡ mark_text mark }
{
    match mark {
        Mark::Eight => b"8",
        Mark::Bar => b"|",
        Mark::Dash => b"-",
        Mark::Slash => b"/",
        Mark::Backslash => b"\\",
        Mark::Plus => b"+",
        Mark::Ex => b"X",
        Mark::Oh => b"O",
    }
}

/// The class letters, and `-` if there are none.
fn classes_text(classes: &[u8]) -> &[u8]
    ensures { result.now ≡ classes_text classes.now }
{
    if classes.is_empty() { b"-" } else { classes }
}

/// Appends the name and the size of a pattern.
fn push_name(text: &mut Bytes, p: &Pattern) -> Result<(), NoMemory>
    ensures { OnOk result (text.new ≡ text.old ++ name_text p.now) }
{
    text.extend(p.name.as_slice())?;
    text.push(b' ')?;
    push_number(text, p.rows)?;
    text.push(b'x')?;
    push_number(text, p.cols)
}

/// Appends a pattern.
fn push_pattern(text: &mut Bytes, p: &Pattern) -> Result<(), NoMemory>
    ensures { OnOk result (text.new ≡ text.old ++ pattern_text p.now) }
{
    push_name(text, p)?;
    text.push(b' ')?;
    text.extend(mark_text(p.mark))?;
    text.push(b' ')?;
    text.extend(classes_text(p.classes.as_slice()))
}

/// Appends a pattern of a list, on a line of its own.
fn push_next(text: &mut Bytes, p: &Pattern) -> Result<(), NoMemory>
    ensures { OnOk result (text.new ≡ text.old ++ feed_after text.old ++ pattern_text p.now) }
{
    if !text.as_slice().is_empty() {
        text.push(b'\n')?;
    }
    push_pattern(text, p)
}

/// The patterns in their order, one a line.
pub(crate) fn patterns_text(alloc: Global, patterns: &[Pattern]) -> Result<Bytes, NoMemory>
    ensures { IfOk result (λ text. text ≡ patterns_text patterns.now) }
{
    let mut text = Bytes::new(alloc);
    for p in patterns {
        push_next(&mut text, p)?;
    }
    Ok(text)
}
