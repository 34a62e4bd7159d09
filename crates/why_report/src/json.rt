//! The report on a try for programs: an object of JSON on one line.
use crate::expression::put_expression;
use crate::parts::part_name;
use crate::placing::vertex_bytes;
use crate::tries::{Setting, Try, parts_held};
use crate::words::{colour_name, letter_of};
use go_base::{Cell, Colour, Illegal, Point, Size};
use match_reasons::{Misfit, Reason, constraint_values};
use pat_types::{Drawn, Expr, NoMemory};
use read_rules::{Answer, Spot};
use std::alloc::{AllocError, Global};

/// The number of parts that hold in a match.
const ALL_PARTS: u8 = 6;

/// Prints a byte of a JSON text.
fn put_byte(page: &mut String, byte: u8) -> Result<(), AllocError> {
    match byte {
        b'"' => page.push_str("\\\""),
        b'\\' => page.push_str("\\\\"),
        b' '..=b'~' => page.push(char::from(byte)),
        _ => write!(page, "\\u{:04x}", u32::from(byte)),
    }
}

/// Prints a text of JSON. A byte that is not printable ASCII becomes the character with its number.
pub fn put_text(page: &mut String, text: &[u8]) -> Result<(), AllocError> {
    page.push('"')?;
    for byte in text {
        put_byte(page, *byte)?;
    }
    page.push('"')
}

/// Prints a vertex as a text of JSON.
fn put_point(page: &mut String, size: Size, at: Point) -> Result<(), AllocError> {
    put_text(page, vertex_bytes(size, at).as_slice())
}

/// A cell of the board as a letter of a diagram.
fn cell_text(cell: Cell, friend: Colour) -> &'static str {
    if cell == Cell::Empty {
        "."
    } else if cell == friend.cell() {
        "O"
    } else {
        "X"
    }
}

/// Prints the cell that does not fit.
fn put_misfit(
    page: &mut String,
    size: Size,
    friend: Colour,
    misfit: &Misfit,
) -> Result<(), AllocError> {
    let row = i16::from(misfit.row).saturating_add(1);
    let column = i16::from(misfit.column).saturating_add(1);
    let drawn = match misfit.drawn {
        Drawn::Shows(letter) => letter_of(letter),
        _ => '#',
    };
    write!(
        page,
        ",\"row\":{row},\"column\":{column},\"drawn\":\"{drawn}\",\"point\":"
    )?;
    match misfit.there {
        Some((at, cell)) => {
            put_point(page, size, at)?;
            write!(page, ",\"there\":\"{}\"", cell_text(cell, friend))
        }
        None => page.push_str("null,\"there\":\"#\""),
    }
}

/// Prints why a play is refused.
fn put_illegal(page: &mut String, why: Illegal) -> Result<(), AllocError> {
    let why = match why {
        Illegal::Occupied => "occupied",
        Illegal::Ko => "ko",
        Illegal::Suicide => "suicide",
    };
    write!(page, ",\"why\":\"{why}\"")
}

/// Prints an attack: its code and its first move.
fn put_attack(page: &mut String, size: Size, attack: Answer) -> Result<(), AllocError> {
    write!(page, ",\"code\":{},\"move\":", attack.code)?;
    match attack.at {
        Some(Spot::At(at)) => put_point(page, size, at),
        Some(Spot::Pass) => page.push_str("\"PASS\""),
        None => page.push_str("null"),
    }
}

/// Prints the parts of an expression, in the order of `constraint_values::values`.
fn put_parts(
    page: &mut String,
    expr: &Expr,
    values: &[Option<i64>],
    is_last: bool,
) -> Result<(), AllocError> {
    let own = values.len().saturating_sub(1);
    let below = values.get(..own).unwrap_or(&[]);
    match expr {
        Expr::Num(_) => {}
        Expr::Call(_, _) => {}
        Expr::Not(e) => put_parts(page, e, below, false)?,
        Expr::Neg(e) => put_parts(page, e, below, false)?,
        Expr::Bin(_, a, b) => {
            let cut = own.saturating_sub(crate::expression::part_count(b));
            put_parts(page, a, below.get(..cut).unwrap_or(&[]), false)?;
            put_parts(page, b, below.get(cut..).unwrap_or(&[]), false)?;
        }
    }
    page.push_str("{\"part\":\"")?;
    put_expression(page, expr)?;
    match values.get(own).copied().unwrap_or(None) {
        Some(value) => write!(page, "\",\"value\":{value}}}")?,
        None => page.push_str("\",\"value\":null}")?,
    }
    page.push_str(if is_last { "" } else { "," })
}

/// Prints the values of the parts of the constraint, if there is one.
fn put_constraint(
    page: &mut String,
    alloc: Global,
    setting: Setting<'_>,
    tried: &Try<'_>,
) -> Result<(), NoMemory> {
    if tried.at >= setting.position.size().points() {
        return Ok(());
    }
    let values = constraint_values(
        alloc,
        tried.entry.pattern,
        setting.position,
        tried.colour,
        tried.transform,
        tried.at,
        setting.depths,
    )?;
    if let (Some(values), Some(constraint)) = (values, &tried.entry.pattern.constraint) {
        page.push_str(",\"parts\":[")?;
        put_parts(page, constraint, values.as_slice(), true)?;
        page.push_str("]")?;
    }
    Ok(())
}

/// Prints the name of the helper in the item number `field`.
fn put_helper(page: &mut String, tried: &Try<'_>, field: usize) -> Result<(), AllocError> {
    page.push_str(",\"helper\":")?;
    match tried.entry.pattern.items.as_slice().get(field) {
        Some(item) => put_text(page, item.name.as_slice()),
        None => page.push_str("null"),
    }
}

/// Prints the members about the part that fails.
fn put_reason(
    page: &mut String,
    alloc: Global,
    setting: Setting<'_>,
    tried: &Try<'_>,
    reason: Reason,
) -> Result<(), NoMemory> {
    let size = setting.position.size();
    match reason {
        Reason::Misfit(misfit) => put_misfit(page, size, tried.colour, &misfit)?,
        Reason::Illegal(why) => put_illegal(page, why)?,
        Reason::EnemyIllegal(why) => put_illegal(page, why)?,
        Reason::Unsafe(attack) => put_attack(page, size, attack)?,
        Reason::EnemyUnsafe(attack) => put_attack(page, size, attack)?,
        Reason::Constraint => put_constraint(page, alloc, setting, tried)?,
        Reason::Helper(field) => put_helper(page, tried, field)?,
    }
    Ok(())
}

/// Prints the report on a try: an object on a line of its own.
pub fn put_json(
    page: &mut String,
    alloc: Global,
    setting: Setting<'_>,
    tried: &Try<'_>,
) -> Result<(), NoMemory> {
    let size = setting.position.size();
    page.push_str("{\"entry\":")?;
    put_text(page, tried.entry.pattern.name.as_slice())?;
    let (line, colour) = (tried.entry.line, colour_name(tried.colour));
    write!(page, ",\"line\":{line},\"colour\":\"{colour}\",\"at\":")?;
    put_point(page, size, tried.at)?;
    let (transform, held) = (tried.transform.get(), parts_held(tried.reason));
    write!(
        page,
        ",\"transformation\":{transform},\"held\":{held},\"fails\":"
    )?;
    if held == ALL_PARTS {
        page.push_str("null")?;
    } else {
        write!(page, "\"{}\"", part_name(held as usize))?;
    }
    if let Some(reason) = tried.reason {
        put_reason(page, alloc, setting, tried, reason)?;
    }
    page.push_str("}\n")?;
    Ok(())
}
