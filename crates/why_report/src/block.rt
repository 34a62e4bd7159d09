//! The report on a try as text: its reason, the drawing, and the constraint with its values.
use crate::drawing::put_drawing;
use crate::expression::put_values;
use crate::placing::{point_from, turned};
use crate::tries::{Entry, Setting, Try, parts_held};
use crate::words::{colour_name, put_name, put_vertex, put_words};
use go_base::Colour;
use match_reasons::constraint_values;
use pat_types::{LabelAt, NoMemory};
use std::alloc::{AllocError, Global};

/// The number of parts that come before the constraint.
const BEFORE_CONSTRAINT: u8 = 4;

/// Prints the name of an entry, its line number, and the colour for which it is tried.
pub fn put_entry(page: &mut String, entry: Entry<'_>, colour: Colour) -> Result<(), AllocError> {
    put_name(page, entry.pattern.name.as_slice())?;
    write!(page, "@{}, {}", entry.line, colour_name(colour))
}

/// Prints the entry, the colour, the point and the transformation of a try.
fn put_heading(page: &mut String, setting: Setting<'_>, tried: &Try<'_>) -> Result<(), AllocError> {
    put_entry(page, tried.entry, tried.colour)?;
    page.push_str(" at ")?;
    put_vertex(page, setting.position.size(), tried.at)?;
    write!(page, ", transformation {}: ", tried.transform.get())
}

/// Prints a label and its point.
fn put_label(
    page: &mut String,
    setting: Setting<'_>,
    tried: &Try<'_>,
    label: LabelAt,
) -> Result<(), AllocError> {
    let size = setting.position.size();
    let (row, column) = (i16::from(label.row), i16::from(label.col));
    let offset = turned(tried.entry.pattern, tried.transform, row, column);
    write!(page, "{} is ", char::from(label.letter))?;
    match point_from(size, tried.at, offset) {
        Some(at) => put_vertex(page, size, at),
        None => page.push_str("off the board"),
    }
}

/// Prints a line with the point of each label; no line if there is no label.
fn put_labels(page: &mut String, setting: Setting<'_>, tried: &Try<'_>) -> Result<(), AllocError> {
    let labels = tried.entry.pattern.labels.as_slice();
    if labels.is_empty() {
        return Ok(());
    }
    page.push_str("    ")?;
    for (at, label) in labels.iter().enumerate() {
        if at > 0 {
            page.push_str(", ")?;
        }
        put_label(page, setting, tried, *label)?;
    }
    page.push_str("\n")
}

/// Prints the constraint with the values of its parts, if there is one.
fn put_constraint(
    page: &mut String,
    alloc: Global,
    setting: Setting<'_>,
    tried: &Try<'_>,
) -> Result<(), NoMemory> {
    if tried.at >= setting.position.size().points() {
        return Ok(());
    }
    let values = constraint_values(
        alloc,
        tried.entry.pattern,
        setting.position,
        tried.colour,
        tried.transform,
        tried.at,
        setting.depths,
    )?;
    if let (Some(values), Some(constraint)) = (values, &tried.entry.pattern.constraint) {
        put_labels(page, setting, tried)?;
        put_values(page, constraint, values.as_slice())?;
    }
    Ok(())
}

/// Prints a line with the reason of a try.
pub fn put_line(page: &mut String, setting: Setting<'_>, tried: &Try<'_>) -> Result<(), NoMemory> {
    put_heading(page, setting, tried)?;
    put_words(page, setting, tried)?;
    page.push_str("\n")?;
    Ok(())
}

/// Prints the report on a try: a line with its reason, and the drawing beside the board. If the parts before the
/// constraint hold, the points of the labels and the constraint with the value of each part follow.
pub fn put_block(
    page: &mut String,
    alloc: Global,
    setting: Setting<'_>,
    tried: &Try<'_>,
) -> Result<(), NoMemory> {
    put_line(page, setting, tried)?;
    put_drawing(page, alloc, setting, tried)?;
    if parts_held(tried.reason) >= BEFORE_CONSTRAINT {
        put_constraint(page, alloc, setting, tried)?;
    }
    Ok(())
}
