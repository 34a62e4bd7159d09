//! Building an expression from its items, with a stack of what is still open.

ghost use Rattle.std.specs.Prelude.{◌≡◌, IfOk};
ghost use Rattle.std.specs.Option.{option_map};
ghost use Rattle.cons_parse.specs.Grammar.{level_of_op};
ghost use Rattle.cons_parse.specs.Trees.{NotTree, NegTree, BinTree, tree_of, call_tree};
ghost use Rattle.cons_parse.specs.Building.{trees, settled_in, joined_in, operated, closed_in, stepped, built};
ghost use Rattle.cons_parse.specs.Building.{state_of, stack_of};

use crate::calls::Item;
use crate::token::Name;
use pat_types::{Args, Expr, Op};
use std::alloc::{AllocError, Global};

/// What may be open before an operand: a sign, a parenthesis, or an operator with its left side.
#[derive(Drop)]
pub enum Frame {
    /// A `!`.
    Not,
    /// A `-`.
    Neg,
    /// A parenthesis.
    Open,
    /// An operator, and the expression on its left.
    Left(Op, Expr),
}

/// The level of an operator; 0 is the loosest.
fn level_of(op: Op) -> u8
    ensures { result ≡ level_of_op op }
{
    match op {
        Op::Or => 0,
        Op::And => 1,
        Op::Eq | Op::Ne => 2,
        Op::Lt | Op::Le | Op::Gt | Op::Ge => 3,
        Op::Add | Op::Sub => 4,
    }
}

/// The expression `e` with a `!` before it.
fn not_of(alloc: Global, e: Expr) -> Result<Expr, AllocError>
    ensures { IfOk result (λ r. tree_of r ≡ NotTree (tree_of e)) }
{
    Ok(Expr::Not(Box::new(alloc, e)?))
}

/// The expression `e` with a `-` before it.
fn neg_of(alloc: Global, e: Expr) -> Result<Expr, AllocError>
    ensures { IfOk result (λ r. tree_of r ≡ NegTree (tree_of e)) }
{
    Ok(Expr::Neg(Box::new(alloc, e)?))
}

/// Two expressions with an operator between them.
fn bin_of(alloc: Global, op: Op, left: Expr, right: Expr) -> Result<Expr, AllocError>
    ensures { IfOk result (λ r. tree_of r ≡ BinTree op (tree_of left) (tree_of right)) }
{
    Ok(Expr::Bin(op, Box::new(alloc, left)?, Box::new(alloc, right)?))
}

/// A call of `name` with `args`. A name that is no function gives the number 0; `parse` refuses such a name before.
fn call_of(name: Name, args: Args) -> Expr
    ensures { tree_of result ≡ call_tree name args }
{
    match name {
        Name::Known(function) => Expr::Call(function, args),
        _ => Expr::Num(0),
    }
}

/// The operand with the open signs before it, which leave the stack.
fn settle(alloc: Global, frames: &mut Vec<Frame>, operand: Expr) -> Result<Expr, AllocError>
    ensures { IfOk result (λ r. (stack_of frames.new.items, tree_of r)
        ≡ settled_in trees (stack_of frames.old.items) (tree_of operand)) }
{
    let mut e = operand;
    'signs: loop {
        match frames.pop() {
            Some(Frame::Not) => e = not_of(alloc, e)?,
            Some(Frame::Neg) => e = neg_of(alloc, e)?,
            Some(Frame::Open) => {
                frames.push(Frame::Open)?;
                return Ok(e);
            }
            Some(Frame::Left(op, left)) => {
                frames.push(Frame::Left(op, left))?;
                return Ok(e);
            }
            None => return Ok(e),
        }
    }
}

/// The operand as the right side of each open operator of this level or a tighter one; these operators leave the stack.
fn join(
    alloc: Global,
    frames: &mut Vec<Frame>,
    operand: Expr,
    level: u8,
) -> Result<Expr, AllocError>
    ensures { IfOk result (λ r. (stack_of frames.new.items, tree_of r)
        ≡ joined_in trees level (stack_of frames.old.items) (tree_of operand)) }
{
    let mut e = operand;
    'sides: loop {
        match frames.pop() {
            Some(Frame::Left(op, left)) => {
                if level <= level_of(op) {
                    e = bin_of(alloc, op, left, e)?;
                } else {
                    frames.push(Frame::Left(op, left))?;
                    return Ok(e);
                }
            }
            Some(Frame::Not) => {
                frames.push(Frame::Not)?;
                return Ok(e);
            }
            Some(Frame::Neg) => {
                frames.push(Frame::Neg)?;
                return Ok(e);
            }
            Some(Frame::Open) => {
                frames.push(Frame::Open)?;
                return Ok(e);
            }
            None => return Ok(e),
        }
    }
}

/// Reads an operator, which is the sign `-` if no operand stands before it.
fn operator(
    alloc: Global,
    frames: &mut Vec<Frame>,
    now: Option<Expr>,
    op: Op,
) -> Result<Option<Expr>, AllocError>
    ensures { IfOk result (λ r. state_of frames.new.items r
        ≡ operated trees (stack_of frames.old.items) (option_map tree_of now) op) }
{
    match now {
        Some(e) => {
            let left = join(alloc, frames, e, level_of(op))?;
            frames.push(Frame::Left(op, left))?;
        }
        None => frames.push(Frame::Neg)?,
    }
    Ok(None)
}

/// Closes the parenthesis that was opened last.
fn close(
    alloc: Global,
    frames: &mut Vec<Frame>,
    now: Option<Expr>,
) -> Result<Option<Expr>, AllocError>
    ensures { IfOk result (λ r. state_of frames.new.items r
        ≡ closed_in trees (stack_of frames.old.items) (option_map tree_of now)) }
{
    match now {
        Some(e) => {
            let e = join(alloc, frames, e, 0)?;
            let _ = frames.pop();
            Ok(Some(settle(alloc, frames, e)?))
        }
        None => Ok(None),
    }
}

/// Reads an item. Returns the operand that then stands before the place, if there is one.
fn take(
    alloc: Global,
    frames: &mut Vec<Frame>,
    now: Option<Expr>,
    item: Item,
) -> Result<Option<Expr>, AllocError>
    ensures { IfOk result (λ r. state_of frames.new.items r ≡ stepped trees (state_of frames.old.items now) item) }
{
    match item {
        Item::Number(n) => Ok(Some(settle(alloc, frames, Expr::Num(n))?)),
        Item::Call(name, args) => Ok(Some(settle(alloc, frames, call_of(name, args))?)),
        Item::Operator(op) => operator(alloc, frames, now, op),
        Item::Bang => {
            frames.push(Frame::Not)?;
            Ok(None)
        }
        Item::Open => {
            frames.push(Frame::Open)?;
            Ok(None)
        }
        Item::Close => close(alloc, frames, now),
    }
}

/// The expression that `items` spell, if they are in the grammar and call nothing but functions.
pub fn build(alloc: Global, items: Vec<Item>) -> Result<Expr, AllocError>
    ensures { IfOk result (λ e. tree_of e ≡ built trees items.items) }
{
    let mut frames = Vec::new(alloc);
    let mut now = None;
    for item in items {
        now = take(alloc, &mut frames, now, item)?;
    }
    match now {
        Some(e) => join(alloc, &mut frames, e, 0),
        None => Ok(Expr::Num(0)),
    }
}
