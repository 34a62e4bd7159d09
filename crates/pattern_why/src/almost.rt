//! Finds the entries that almost match at a point.

use crate::fault::Fault;
use crate::task::Task;
use crate::telling::Telling;
use go_base::{Colour, Point, Transform};
use helpers::Helpers;
use match_reasons::Reason;
use pat_types::mark_count;
use why_report::{Entry, PARTS, Try, parts_held, put_json, put_line, tried};

/// A try, kept without its entry.
#[derive(Clone, Copy)]
struct Kept {
    /// The index of the entry in its list.
    place: usize,
    /// The friend, who plays the move.
    colour: Colour,
    /// The transformation of the diagram.
    transform: Transform,
    /// The point of the star.
    at: Point,
    /// The first part of a match that fails; `None` for a match.
    reason: Option<Reason>,
}

impl Kept {
    /// Keeps a try of the entry at index `place`.
    fn new(place: usize, one: &Try<'_>) -> Kept {
        Kept {
            place,
            colour: one.colour,
            transform: one.transform,
            at: one.at,
            reason: one.reason,
        }
    }

    /// The try again, with its `entry`.
    fn of<'a>(&self, entry: Entry<'a>) -> Try<'a> {
        Try {
            entry,
            colour: self.colour,
            transform: self.transform,
            at: self.at,
            reason: self.reason,
        }
    }
}

/// The try of an entry for a colour, at the first point that is asked for, in which most parts hold. If several tries
/// are equally good, it is the one under the first transformation.
fn farthest(
    task: &Task<'_>,
    helpers: &mut Helpers,
    place: usize,
    entry: Entry<'_>,
    colour: Colour,
) -> Option<Kept> {
    if task.from >= task.setting.position.size().points() {
        return None;
    }
    let mut best: Option<Kept> = None;
    for number in 0..mark_count(entry.pattern.mark) {
        if let Some(transform) = Transform::new(number) {
            let one = tried(entry, task.setting, colour, transform, task.from, helpers);
            let is_farther = match &best {
                Some(best) => parts_held(one.reason) > parts_held(best.reason),
                None => true,
            };
            if is_farther {
                best = Some(Kept::new(place, &one));
            }
        }
    }
    best
}

/// The farthest try of each of `entries` for each colour, at the first point that is asked for, in their order.
fn all_farthest(
    task: &Task<'_>,
    helpers: &mut Helpers,
    entries: &[Entry<'_>],
) -> Result<Vec<Kept>, Fault> {
    let mut all = Vec::new(task.alloc);
    for (place, entry) in entries.iter().enumerate() {
        for colour in task.options.colours() {
            if let Some(one) = farthest(task, helpers, place, *entry, *colour) {
                all.push(one)?;
            }
        }
    }
    Ok(all)
}

/// Reports the farthest try of an entry, as an object of JSON or as a line of text.
fn tell_farthest(task: &Task<'_>, telling: &mut Telling, one: &Try<'_>) -> Result<(), Fault> {
    telling.note(one);
    if task.options.json {
        put_json(&mut telling.page, task.alloc, task.setting, one)?;
    } else {
        write!(&mut telling.page, "{} of {PARTS}: ", parts_held(one.reason))?;
        put_line(&mut telling.page, task.setting, one)?;
    }
    Ok(())
}

/// Reports which entries almost match at a point: for each entry and colour the try in which most parts hold. The tries
/// in which most parts hold come first.
pub(crate) fn tell_almost(
    task: &Task<'_>,
    helpers: &mut Helpers,
    entries: &[Entry<'_>],
) -> Result<Telling, Fault> {
    let all = all_farthest(task, helpers, entries)?;
    let mut telling = Telling::new(task.alloc);
    for held in (0..PARTS as u8 + 1).rev() {
        for one in &all {
            if parts_held(one.reason) == held
                && let Some(entry) = entries.get(one.place)
            {
                tell_farthest(task, &mut telling, &one.of(*entry))?;
            }
        }
    }
    Ok(telling)
}
