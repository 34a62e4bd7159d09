//! The reason of a try, in words.
use crate::placing::vertex_bytes;
use crate::tries::{Setting, Try};
use go_base::{Cell, Colour, Illegal, Point, Size};
use match_reasons::{Misfit, Reason};
use pat_types::{Drawn, Letter};
use read_rules::{Answer, Spot};
use std::alloc::AllocError;

/// The name of a colour.
pub fn colour_name(colour: Colour) -> &'static str {
    match colour {
        Colour::Black => "black",
        Colour::White => "white",
    }
}

/// The character for a letter of a diagram.
pub(crate) fn letter_of(letter: Letter) -> char {
    match letter {
        Letter::Friend => 'O',
        Letter::Enemy => 'X',
        Letter::Empty => '.',
        Letter::FriendOrEmpty => 'o',
        Letter::EnemyOrEmpty => 'x',
        Letter::Any => '?',
        Letter::Star => '*',
    }
}

/// Prints a name, or another ASCII text.
pub fn put_name(page: &mut String, name: &[u8]) -> Result<(), AllocError> {
    for byte in name {
        page.push(char::from(*byte))?;
    }
    Ok(())
}

/// Prints a vertex.
pub fn put_vertex(page: &mut String, size: Size, at: Point) -> Result<(), AllocError> {
    put_name(page, vertex_bytes(size, at).as_slice())
}

/// The words for a cell of the board.
fn cell_words(cell: Cell, friend: Colour) -> &'static str {
    if cell == Cell::Empty {
        "is empty"
    } else if cell == friend.cell() {
        "holds a stone of the friend"
    } else {
        "holds a stone of the enemy"
    }
}

/// Prints the row and the column of a cell of the drawing, counted from 1; 0 is an edge above or on the left.
fn put_cell(page: &mut String, misfit: &Misfit) -> Result<(), AllocError> {
    let row = i16::from(misfit.row).saturating_add(1);
    let column = i16::from(misfit.column).saturating_add(1);
    write!(page, "row {row}, column {column} ")
}

/// Prints what is drawn in a cell, and what the board has there instead.
fn put_misfit(
    page: &mut String,
    size: Size,
    friend: Colour,
    misfit: &Misfit,
) -> Result<(), AllocError> {
    page.push_str("the diagram does not fit: ")?;
    put_cell(page, misfit)?;
    match misfit.drawn {
        Drawn::Shows(letter) => write!(page, "is '{}'", letter_of(letter))?,
        _ => page.push_str("is an edge")?,
    }
    match misfit.there {
        None => page.push_str(" and lies off the board"),
        Some((at, cell)) => {
            page.push_str(" and ")?;
            put_vertex(page, size, at)?;
            match misfit.drawn {
                Drawn::Shows(_) => write!(page, " {}", cell_words(cell, friend)),
                _ => page.push_str(" lies on the board"),
            }
        }
    }
}

/// The words for why a play is refused.
fn illegal_words(why: Illegal) -> &'static str {
    match why {
        Illegal::Occupied => "a stone stands there",
        Illegal::Ko => "the ban forbids it",
        Illegal::Suicide => "it is suicide",
    }
}

/// Prints an attack: its code and its first move.
fn put_attack(page: &mut String, size: Size, attack: Answer) -> Result<(), AllocError> {
    write!(page, "code {}", attack.code)?;
    match attack.at {
        Some(Spot::At(at)) => {
            page.push_str(", first move ")?;
            put_vertex(page, size, at)
        }
        Some(Spot::Pass) => page.push_str(", first move PASS"),
        None => Ok(()),
    }
}

/// Prints the helper in the item number `field`, which says no.
fn put_helper(page: &mut String, tried: &Try<'_>, field: usize) -> Result<(), AllocError> {
    match tried.entry.pattern.items.as_slice().get(field) {
        Some(item) => {
            page.push_str("the helper ")?;
            put_name(page, item.name.as_slice())?;
            page.push_str(" says no")
        }
        None => page.push_str("a helper says no"),
    }
}

/// Prints in words why a try is no match, or that it matches.
pub fn put_words(
    page: &mut String,
    setting: Setting<'_>,
    tried: &Try<'_>,
) -> Result<(), AllocError> {
    let size = setting.position.size();
    match tried.reason {
        None => page.push_str("matches"),
        Some(Reason::Misfit(misfit)) => put_misfit(page, size, tried.colour, &misfit),
        Some(Reason::Illegal(why)) => {
            write!(page, "the move is not legal: {}", illegal_words(why))
        }
        Some(Reason::Unsafe(attack)) => {
            page.push_str("the stone that is played can be captured: ")?;
            put_attack(page, size, attack)
        }
        Some(Reason::EnemyIllegal(why)) => {
            write!(
                page,
                "class n: the enemy's move there is not legal: {}",
                illegal_words(why)
            )
        }
        Some(Reason::EnemyUnsafe(attack)) => {
            page.push_str("class n: the enemy's stone there can be captured: ")?;
            put_attack(page, size, attack)
        }
        Some(Reason::Constraint) => page.push_str("the constraint is 0"),
        Some(Reason::Helper(field)) => put_helper(page, tried, field),
    }
}
