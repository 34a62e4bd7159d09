//! Reports each try that is asked for, in order.

use crate::fault::Fault;
use crate::task::Task;
use crate::telling::Telling;
use go_base::{Colour, Transform};
use helpers::Helpers;
use pat_types::mark_count;
use pattern_coverage::{ENDS, PartCounts};
use why_report::{Entry, Try, part_name, parts_held, put_block, put_entry, put_json, tried};

/// Prints how many tries of an entry for a colour fail first in each part, and how many match.
fn put_counts(
    page: &mut String,
    entry: Entry<'_>,
    colour: Colour,
    counts: &PartCounts,
) -> Result<(), Fault> {
    put_entry(page, entry, colour)?;
    write!(page, ": {} tries", counts.all())?;
    for part in 0..ENDS {
        write!(page, ", {} {}", part_name(part), counts.at(part))?;
    }
    page.push_str("\n")?;
    Ok(())
}

/// Reports a try: as an object of JSON, or as a block of text if the point was named or the diagram fits.
fn tell_try(task: &Task<'_>, telling: &mut Telling, one: &Try<'_>) -> Result<(), Fault> {
    telling.note(one);
    if task.options.json {
        put_json(&mut telling.page, task.alloc, task.setting, one)?;
    } else if task.options.at.is_some() || parts_held(one.reason) > 0 {
        put_block(&mut telling.page, task.alloc, task.setting, one)?;
    }
    Ok(())
}

/// Reports the tries of an entry for a colour under one transformation, at each point that is asked for.
fn tell_points(
    task: &Task<'_>,
    helpers: &mut Helpers,
    telling: &mut Telling,
    counts: &mut PartCounts,
    entry: Entry<'_>,
    colour: Colour,
    transform: Transform,
) -> Result<(), Fault> {
    for at in task.from..task.to {
        if at < task.setting.position.size().points() {
            let one = tried(entry, task.setting, colour, transform, at, helpers);
            counts.count(parts_held(one.reason) as usize);
            tell_try(task, telling, &one)?;
        }
    }
    Ok(())
}

/// Reports the tries of an entry for a colour under each transformation of its mark. In text their counts follow,
/// unless a point was named.
fn tell_entry(
    task: &Task<'_>,
    helpers: &mut Helpers,
    telling: &mut Telling,
    entry: Entry<'_>,
    colour: Colour,
) -> Result<(), Fault> {
    let mut counts = PartCounts::new();
    for number in 0..mark_count(entry.pattern.mark) {
        if let Some(transform) = Transform::new(number) {
            tell_points(
                task,
                helpers,
                telling,
                &mut counts,
                entry,
                colour,
                transform,
            )?;
        }
    }
    if !task.options.json && task.options.at.is_none() {
        put_counts(&mut telling.page, entry, colour, &counts)?;
    }
    Ok(())
}

/// Reports each try of `entries`: in their order, for each colour, under each transformation, at each point.
pub(crate) fn tell_tries(
    task: &Task<'_>,
    helpers: &mut Helpers,
    entries: &[Entry<'_>],
) -> Result<Telling, Fault> {
    let mut telling = Telling::new(task.alloc);
    for entry in entries {
        for colour in task.options.colours() {
            tell_entry(task, helpers, &mut telling, *entry, *colour)?;
        }
    }
    Ok(telling)
}
