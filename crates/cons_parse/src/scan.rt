//! Whether items are in the grammar, and whether a leaf stands too deep: a walk with a stack of what is open.

ghost use Rattle.std.specs.Prelude.{◌≡◌, ◌<◌, reverse, true, false};
ghost use Rattle.cons_parse.specs.Answers.{Gives, Steps};
ghost use Rattle.cons_parse.specs.Scan.{settled, begun, gone_on, advance, ended, scanned, spot_of};
ghost use Rattle.cons_parse.specs.Scan.{is_prefixed as prefixed, Closes};

use crate::calls::Item;
use crate::error::ConsError;
use pat_types::Op;
use std::alloc::Global;

/// The most levels within which a leaf may stand.
const MOST_LEVELS: usize = 32;

/// What may be open at a place among the items. Each opener is one level.
#[derive(Clone, Copy, Debug, PartialEq, Eq)]
pub enum Opener {
    /// A `!` or a `-` before its operand.
    Prefix,
    /// A parenthesis.
    Parenthesis,
}

/// A place among the items.
#[derive(Drop)]
pub struct Place {
    /// What is open, the newest last.
    pub openers: Vec<Opener>,
    /// Whether an operand stands before the place.
    pub after: bool,
    /// Whether a leaf before the place stands too deep.
    pub deep: bool,
}

/// Whether the opener that was opened last is a sign.
fn is_prefixed(openers: &[Opener]) -> bool
    ensures { result ≡ prefixed (reverse openers.now) }
{
    match openers {
        [.., Opener::Prefix] => true,
        _ => false,
    }
}

/// Closes the signs before an operand that has just been read.
fn settle(openers: &mut Vec<Opener>)
    ensures { reverse openers.new.items ≡ settled (reverse openers.old.items) }
{
    'prefixes: while is_prefixed(openers) {
        let _ = openers.pop();
    }
}

/// Closes the newest opener and the signs before it, if it is a parenthesis. Returns false if it is none.
fn close(openers: &mut Vec<Opener>) -> bool
    ensures { Closes (reverse openers.old.items) (reverse openers.new.items) result }
{
    match openers.pop() {
        Some(Opener::Parenthesis) => {
            settle(openers);
            true
        }
        _ => false,
    }
}

/// Reads an item at a place where an operand is expected; `Syntax` if the item may not stand there.
fn begin(place: &mut Place, item: &Item) -> Result<(), ConsError>
    requires { place.old.after ≡ false }
    ensures { Steps result (spot_of place.new) (begun (reverse place.old.openers.items) place.old.deep item.now) }
{
    match item {
        Item::Number(_) | Item::Call(_, _) => {
            place.deep = place.deep || place.openers.len() > MOST_LEVELS;
            place.after = true;
            settle(&mut place.openers);
        }
        Item::Bang | Item::Operator(Op::Sub) => place.openers.push(Opener::Prefix)?,
        Item::Open => place.openers.push(Opener::Parenthesis)?,
        _ => return Err(ConsError::Syntax),
    }
    Ok(())
}

/// Reads an item at a place behind an operand; `Syntax` if the item may not stand there.
fn go_on(place: &mut Place, item: &Item) -> Result<(), ConsError>
    requires { place.old.after ≡ true }
    ensures { Steps result (spot_of place.new) (gone_on (reverse place.old.openers.items) place.old.deep item.now) }
{
    match item {
        Item::Operator(_) => place.after = false,
        Item::Close => {
            if !close(&mut place.openers) {
                return Err(ConsError::Syntax);
            }
        }
        _ => return Err(ConsError::Syntax),
    }
    Ok(())
}

/// Reads an item and moves `place` behind it; `Syntax` if the item may not stand there.
fn step(place: &mut Place, item: &Item) -> Result<(), ConsError>
    ensures { Steps result (spot_of place.new) (advance (spot_of place.old) item.now) }
{
    if place.after {
        go_on(place, item)
    } else {
        begin(place, item)
    }
}

/// Whether a leaf stands too deep; `None` if the expression may not end at this place.
fn end(place: &Place) -> Option<bool>
    ensures { result ≡ ended (spot_of place.now) }
{
    if !place.after {
        return None;
    }
    if place.openers.len() > 0 {
        return None;
    }
    Some(place.deep)
}

/// Whether a leaf of `items` stands too deep; `Syntax` if the items are not in the grammar.
pub fn scan(alloc: Global, items: &[Item]) -> Result<bool, ConsError>
    ensures { Gives (λ deep. deep) result (scanned items.now) }
{
    let mut place = Place {
        openers: Vec::new(alloc),
        after: false,
        deep: false,
    };
    for item in items {
        match step(&mut place, item) {
            Ok(()) => {}
            Err(e) => return Err(e),
        }
    }
    match end(&place) {
        Some(deep) => Ok(deep),
        None => Err(ConsError::Syntax),
    }
}
