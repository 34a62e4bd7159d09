//! Tables of worths and choices.
use db_read::read;
use go_base::{Bytes, Point, Transform};
use move_choice::{Match, choose, worth_of};
use pat_types::Pattern;
use std::alloc::{AllocError, Global};
use std::test::Fail;

/// The items of patterns whose diagram is a star alone, and the worth of each: the first number that an item says.
/// Choices are made among the first six.
static WORTHS: [(&str, u32); 19] = [
    ("value(5)", 5),
    ("value(9)", 9),
    ("value()", 0),
    ("value(09)", 9),
    ("value(10)", 10),
    ("value(1000000)", 0),
    ("NULL", 0),
    ("value(7)", 7),
    ("value(999999)", 999_999),
    ("value(0000001)", 0),
    ("value(007)", 7),
    ("value(high)", 0),
    ("value(+5)", 0),
    ("value(5 )", 0),
    ("value", 0),
    ("Value(5),values(6)", 0),
    ("value(3),value(8)", 3),
    ("value(x),followup(4),value(8)", 8),
    ("value(1234567),value(12)", 12),
];

/// Matches, each with its pattern's place in `WORTHS` and its point, and the point of the choice: of the matches of the
/// greatest worth, the first by its pattern and then by its point, at whatever place it stands.
static CHOICES: [(&str, &[(u16, Point)], Option<Point>); 10] = [
    ("no match", &[], None),
    ("one match of no worth", &[(2, 40)], Some(40)),
    ("the greater worth last", &[(0, 40), (1, 4)], Some(4)),
    ("the greater worth first", &[(1, 40), (0, 4)], Some(40)),
    (
        "the greater worth between",
        &[(0, 40), (4, 4), (1, 7)],
        Some(4),
    ),
    (
        "equal worths of two patterns",
        &[(0, 40), (1, 7), (3, 4)],
        Some(7),
    ),
    (
        "equal worths, the later pattern first",
        &[(3, 4), (1, 7)],
        Some(7),
    ),
    ("one pattern twice", &[(1, 7), (1, 4)], Some(4)),
    ("more digits are more", &[(3, 7), (4, 4)], Some(4)),
    ("none has a worth", &[(2, 7), (5, 4), (2, 1)], Some(1)),
];

/// The text of the patterns in `WORTHS`.
fn text_of_worths(alloc: Global) -> Result<Vec<u8>, AllocError> {
    let mut text = Vec::new(alloc);
    for &(items, _) in &WORTHS {
        text.extend_from_slice(b"Pattern P\n*\n:O,s,")?;
        text.extend_from_slice(items.as_bytes())?;
        text.extend_from_slice(b"\n")?;
    }
    Ok(text)
}

/// The patterns in `WORTHS`, parsed. An item `value` without a text names a helper.
fn patterns_with_items(alloc: Global) -> Result<Vec<Pattern>, Fail> {
    let mut helper = Bytes::new(alloc);
    helper.extend(b"value")?;
    Ok(read(alloc, &text_of_worths(alloc)?, &[helper], Vec::new(alloc))?)
}

/// The point of the choice among `found`. Each match is its pattern's place in `patterns`, and its point.
fn chosen(
    alloc: Global,
    patterns: &[Pattern],
    found: &[(u16, Point)],
) -> Result<Option<Point>, Fail> {
    let transform = Transform::new(0).ok_or("there is a first transformation")?;
    let mut matches = Vec::new(alloc);
    'matches: for (pattern, at) in found {
        if usize::from(*pattern) >= patterns.len() {
            return Err("a match names one of the patterns")?;
        }
        matches.push(Match {
            pattern: *pattern,
            transform,
            at: *at,
        })?;
    }
    Ok(choose(patterns, &matches).map(|choice| choice.at))
}

#[test]
fn first_number_of_an_item_is_the_worth(rt: HostRuntime) -> Result<(), Fail> {
    let patterns = patterns_with_items(rt.alloc())?;
    assert!(rt; patterns.len() == WORTHS.len(), "each is read");
    for (pattern, &(items, want)) in patterns.iter().zip(&WORTHS) {
        assert!(rt; worth_of(pattern) == want, "{items}");
    }
    Ok(())
}

#[test]
fn first_match_of_the_greatest_worth_is_chosen(rt: HostRuntime) -> Result<(), Fail> {
    let patterns = patterns_with_items(rt.alloc())?;
    for &(what, found, want) in &CHOICES {
        assert!(rt; chosen(rt.alloc(), &patterns, found)? == want, "{what}");
    }
    Ok(())
}
