//! The variations of the first node, and the first moves of the right ones.

ghost use Rattle.std.specs.Prelude.{IfSome};
ghost use Rattle.go_rules.specs.Board.{largest_points};
ghost use Rattle.problem_records.specs.Problems.{IsMoveBelow};

use crate::node::{NamedValue, is_named};
use crate::pieces::Piece;
use go_base::{Colour, Point, Size};
use problem_verdicts::Moves;
use sgf_read::move_of;
use std::alloc::{AllocError, Global};

/// The number of pieces before the `)` that ends the tree in which `pieces` begin.
fn len_of_tree(pieces: &[Piece<'_>]) -> usize {
    let mut depth: usize = 0;
    for (i, piece) in pieces.iter().enumerate() {
        match piece {
            Piece::Open => depth = depth.saturating_add(1),
            Piece::Close if depth == 0 => return i,
            Piece::Close => depth = depth.saturating_sub(1),
            _ => {}
        }
    }
    pieces.len()
}

/// The trees that stand side by side in these pieces, each without its `)`.
fn subtrees<'a>(
    alloc: Global,
    pieces: &'a [Piece<'a>],
) -> Result<Vec<&'a [Piece<'a>]>, AllocError> {
    let mut trees = Vec::new(alloc);
    let mut start = 0;
    let mut depth: usize = 0;
    for (i, piece) in pieces.iter().enumerate() {
        match piece {
            Piece::Open => {
                if depth == 0 {
                    start = i;
                }
                depth = depth.saturating_add(1);
            }
            Piece::Close => {
                if depth == 1
                    && let Some(tree) = pieces.get(start..i)
                {
                    trees.push(tree)?;
                }
                depth = depth.saturating_sub(1);
            }
            _ => {}
        }
    }
    Ok(trees)
}

/// The variations of the first node of a record: each subtree behind it, or all that follows it in its own tree.
pub(crate) fn variations<'a>(
    alloc: Global,
    behind: &'a [Piece<'a>],
) -> Result<Vec<&'a [Piece<'a>]>, AllocError> {
    let Some(tree) = behind.get(..len_of_tree(behind)) else {
        return Ok(Vec::new(alloc));
    };
    if let Some(Piece::Node) = tree.first() {
        let mut one = Vec::new(alloc);
        one.push(tree)?;
        return Ok(one);
    }
    subtrees(alloc, tree)
}

/// Whether a byte belongs to a word.
fn is_of_word(b: u8) -> bool {
    b.is_ascii_alphanumeric() || b == b'_'
}

/// Whether a comment has one of the words RIGHT and CORRECT.
fn says_right(comment: &[u8]) -> bool {
    for word in comment.split(|b| !is_of_word(*b)) {
        if word == b"RIGHT".as_slice() || word == b"CORRECT".as_slice() {
            return true;
        }
    }
    false
}

/// Whether a variation says that it is right: by a word in a comment, or by the property TE.
fn is_right(variation: &[Piece<'_>]) -> bool {
    for piece in variation {
        if let Piece::Value(NamedValue { name, value }) = piece {
            if is_named(name, b"TE") || is_named(name, b"C") && says_right(value) {
                return true;
            }
        }
    }
    false
}

/// The move that a value says: a point or the pass.
fn move_in(size: Size, value: &[u8]) -> Option<Option<Point>>
    ensures { IfSome result (IsMoveBelow largest_points) }
{
    let _ = size.points();
    move_of(size, value)
}

/// The values of the first node of a variation.
fn first_values<'a>(pieces: &'a [Piece<'a>]) -> &'a [Piece<'a>] {
    let Some(node) = pieces.iter().position(|p| matches!(p, Piece::Node)) else {
        return &[];
    };
    let rest = &pieces[node + 1..];
    match rest.iter().position(|p| !matches!(p, Piece::Value(_))) {
        Some(len) => &rest[..len],
        None => rest,
    }
}

/// The first move of a variation, a point or the pass, if its first node has a move of this `colour` that is on the
/// board.
fn first_move(variation: &[Piece<'_>], size: Size, colour: Colour) -> Option<Option<Point>>
    ensures { IfSome result (IsMoveBelow largest_points) }
{
    let letter = match colour {
        Colour::Black => b"B".as_slice(),
        Colour::White => b"W".as_slice(),
    };
    for piece in first_values(variation) {
        if let Piece::Value(NamedValue { name, value }) = piece
            && is_named(name, letter)
        {
            return move_in(size, value);
        }
    }
    None
}

/// Adds the first move of a variation to `moves`, and tells whether there is one.
fn add_first_move(moves: &mut Moves, variation: &[Piece<'_>], size: Size, colour: Colour) -> bool {
    match first_move(variation, size, colour) {
        Some(at) => {
            moves.add(at);
            true
        }
        None => false,
    }
}

/// The right moves of this `colour`: the first moves of all variations that say that they are right, or that of the
/// first variation if none says so; `None` if there is no such move.
pub(crate) fn right_moves(
    variations: &[&[Piece<'_>]],
    size: Size,
    colour: Colour,
) -> Option<Moves> {
    let mut moves = Moves::none();
    let mut has_right = false;
    let mut has_move = false;
    for variation in variations {
        if is_right(variation) {
            has_right = true;
            has_move = add_first_move(&mut moves, variation, size, colour) || has_move;
        }
    }
    if !has_right && let Some(variation) = variations.first() {
        has_move = add_first_move(&mut moves, variation, size, colour);
    }
    if has_move { Some(moves) } else { None }
}
