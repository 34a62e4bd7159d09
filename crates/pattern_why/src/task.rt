//! What is asked about a position.

use crate::fault::{Fault, noted};
use crate::options::Options;
use go_base::Point;
use std::alloc::Global;
use vertices::vertex_named;
use why_report::Setting;

/// What is asked about a position.
#[derive(Clone, Copy)]
pub(crate) struct Task<'a> {
    /// The allocator.
    pub(crate) alloc: Global,
    /// What the command line asks for.
    pub(crate) options: &'a Options,
    /// The position, and the depths of readings.
    pub(crate) setting: Setting<'a>,
    /// The first point at which entries are tried.
    pub(crate) from: Point,
    /// The point after the last one at which entries are tried.
    pub(crate) to: Point,
}

/// The points at which entries are tried: the named vertex, or all points of the board. The second number is the point
/// after the last one.
fn points_asked(
    alloc: Global,
    options: &Options,
    setting: Setting<'_>,
) -> Result<(Point, Point), Fault> {
    let size = setting.position.size();
    let Some(word) = &options.at else {
        return Ok((0, size.points()));
    };
    match vertex_named(word.as_bytes(), size) {
        Some(at) => Ok((at, at.saturating_add(1))),
        None => Err(noted(format!(in alloc; "{word} is no vertex of this board"))),
    }
}

impl<'a> Task<'a> {
    /// What the options ask about a position. Fails if they name a vertex that the board does not have.
    pub(crate) fn new(
        alloc: Global,
        options: &'a Options,
        setting: Setting<'a>,
    ) -> Result<Task<'a>, Fault> {
        let (from, to) = points_asked(alloc, options, setting)?;
        Ok(Task {
            alloc,
            options,
            setting,
            from,
            to,
        })
    }
}
