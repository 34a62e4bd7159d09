//! The items of an expression: its tokens, with each call as one item.

ghost use Rattle.std.specs.Prelude.{◌≡◌, ◌≤◌, length, IfOk};
ghost use Rattle.cons_parse.specs.Calls.{arg_of as arg_in, is_open, is_close, is_comma, arguments_at as arguments_in};
ghost use Rattle.cons_parse.specs.Calls.{item_at as item_in, items_of as all_items};
ghost use Rattle.cons_parse.specs.Answers.{Gives};

use crate::error::ConsError;
use crate::token::{Name, Token};
use pat_types::{Arg, Args, Op};
use std::alloc::Global;

/// A part of an expression: a number, a call with its arguments, or a sign.
#[derive(Debug, Drop)]
pub enum Item {
    /// A number.
    Number(u32),
    /// A name with its arguments.
    Call(Name, Args),
    /// An operator, or the sign `-`.
    Operator(Op),
    /// The sign `!`.
    Bang,
    /// A parenthesis that opens a part.
    Open,
    /// A parenthesis that closes a part.
    Close,
}

/// The argument that `token` is, if it is one.
fn arg_of(token: Token) -> Option<Arg>
    ensures { result ≡ arg_in token }
{
    match token {
        Token::Called(Name::Letter(letter)) => Some(Arg::Label(letter)),
        Token::Asterisk => Some(Arg::Star),
        Token::Question => Some(Arg::Nowhere),
        _ => None,
    }
}

/// Whether a token opens a call's arguments.
fn opens(token: Token) -> bool
    ensures { result ≡ is_open token }
{
    match token {
        Token::Open => true,
        _ => false,
    }
}

/// Whether a token closes a call's arguments.
fn closes(token: Token) -> bool
    ensures { result ≡ is_close token }
{
    match token {
        Token::Close => true,
        _ => false,
    }
}

/// Whether a token is the comma before another argument.
fn goes_on(token: Token) -> bool
    ensures { result ≡ is_comma token }
{
    match token {
        Token::Comma => true,
        _ => false,
    }
}

/// The arguments of the call whose name stands before these tokens, and how many tokens they and their parentheses
/// take.
fn arguments(alloc: Global, tokens: &[Token]) -> Result<(Args, usize), ConsError>
    ensures value { Gives (λ a. a) result (arguments_in tokens.now) }
    ensures within { IfOk result (λ a. a.1 ≤ length tokens.now) }
{
    let mut args = Args::new(alloc);
    if tokens.len() < 2 {
        return Err(ConsError::Syntax);
    }
    if !opens(tokens[0]) {
        return Err(ConsError::Syntax);
    }
    if closes(tokens[1]) {
        return Ok((args, 2));
    }
    let mut at = 1;
    while at + 1 < tokens.len() {
        match arg_of(tokens[at]) {
            Some(arg) => args.push(arg)?,
            None => return Err(ConsError::Syntax),
        }
        if closes(tokens[at + 1]) {
            return Ok((args, at + 2));
        }
        if !goes_on(tokens[at + 1]) {
            return Err(ConsError::Syntax);
        }
        at += 2;
    }
    Err(ConsError::Syntax)
}

/// The item that begins with a token, and how many of the tokens after it belong to it.
fn item_at(alloc: Global, token: Token, after: &[Token]) -> Result<(Item, usize), ConsError>
    ensures value { Gives (λ i. i) result (item_in token after.now) }
    ensures within { IfOk result (λ i. i.1 ≤ length after.now) }
{
    match token {
        Token::Number(n) => Ok((Item::Number(n), 0)),
        Token::Called(name) => {
            let (args, more) = arguments(alloc, after)?;
            Ok((Item::Call(name, args), more))
        }
        Token::Operator(op) => Ok((Item::Operator(op), 0)),
        Token::Bang => Ok((Item::Bang, 0)),
        Token::Open => Ok((Item::Open, 0)),
        Token::Close => Ok((Item::Close, 0)),
        Token::Comma | Token::Asterisk | Token::Question => Err(ConsError::Syntax),
    }
}

/// The items of `tokens`; `Syntax` if an argument or a comma stands outside a call, or if a name begins no call.
pub fn items_of(alloc: Global, tokens: &[Token]) -> Result<Vec<Item>, ConsError>
    ensures { Gives (λ v. v.items) result (all_items tokens.now) }
{
    let mut items = Vec::new(alloc);
    let mut at = 0;
    while at < tokens.len() {
        match item_at(alloc, tokens[at], &tokens[at + 1..]) {
            Ok((item, more)) => {
                items.push(item)?;
                at += 1 + more;
            }
            Err(e) => return Err(e),
        }
    }
    Ok(items)
}
