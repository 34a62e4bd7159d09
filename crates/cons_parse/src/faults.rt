//! The faults of calls.

ghost use Rattle.std.specs.Prelude.{◌≡◌};
ghost use Rattle.std.specs.List.{list_any};
ghost use Rattle.pat_types.specs.Labels.{names, arity_of, takes_moves as with_moves};
ghost use Rattle.cons_parse.specs.Faults.{is_nowhere as nowhere, ends_nowhere as last_is_nowhere};
ghost use Rattle.cons_parse.specs.Faults.{has_stray_pass as stray_pass, is_miscalled as miscalled};
ghost use Rattle.cons_parse.specs.Faults.{is_unknown_label as unknown_label, calls, is_unknown_call, misses};
ghost use Rattle.cons_parse.specs.Faults.{is_unlabelled, call_fault as first_call_fault};

use crate::calls::Item;
use crate::error::ConsError;
use crate::token::Name;
use pat_types::{Arg, Function, LabelAt};

/// The least and the greatest number of arguments of a function.
fn arity(function: Function) -> (usize, usize)
    ensures { result ≡ arity_of function }
{
    match function {
        Function::OfPoint(_) => (1, 1),
        Function::OfPair(_) => (2, 2),
        Function::OfPoints(_) => (1, 8),
        Function::OfMoves(_) => (2, 9),
    }
}

/// Whether a function takes moves and then a point.
fn takes_moves(function: Function) -> bool
    ensures { result ≡ with_moves function }
{
    matches!(function, Function::OfMoves(_))
}

/// Whether an argument is a pass.
fn is_nowhere(arg: Arg) -> bool
    ensures { result ≡ nowhere arg }
{
    match arg {
        Arg::Nowhere => true,
        _ => false,
    }
}

/// Whether the last argument is a pass.
fn ends_nowhere(args: &[Arg]) -> bool
    ensures { result ≡ last_is_nowhere args.now }
{
    match args {
        [] => false,
        [.., last] => is_nowhere(*last),
    }
}

/// Whether one of the arguments is a pass.
fn has_nowhere(args: &[Arg]) -> bool
    ensures { result ≡ list_any nowhere args.now }
{
    args.iter().any(|a| is_nowhere(*a))
}

/// Whether a pass stands where no move may: as the last argument, or as any argument if the function takes no moves.
fn has_stray_pass(function: Function, args: &[Arg]) -> bool
    ensures { result ≡ stray_pass function args.now }
{
    if takes_moves(function) {
        ends_nowhere(args)
    } else {
        has_nowhere(args)
    }
}

/// Whether `function` does not take `args`: they are too few or too many, or a pass stands where no move may.
fn is_miscalled(function: Function, args: &[Arg]) -> bool
    ensures { result ≡ miscalled function args.now }
{
    let (low, high) = arity(function);
    args.len() < low || high < args.len() || has_stray_pass(function, args)
}

/// Whether one of the labels has this letter.
fn has_label(labels: &[LabelAt], letter: u8) -> bool
    ensures { result ≡ names labels.now letter }
{
    labels.iter().any(|l| l.letter == letter)
}

/// Whether an argument is a letter that no label has.
fn is_unknown_label(labels: &[LabelAt], arg: Arg) -> bool
    ensures { result ≡ unknown_label labels.now arg }
{
    match arg {
        Arg::Label(letter) => !has_label(labels, letter),
        _ => false,
    }
}

/// Whether one of the arguments is a letter that no label has.
fn has_unknown_label(labels: &[LabelAt], args: &[Arg]) -> bool
    ensures { result ≡ list_any (unknown_label labels.now) args.now }
{
    args.iter().any(|a| is_unknown_label(labels, *a))
}

/// Whether an item is a call of a name that is no function.
fn calls_unknown(item: &Item) -> bool
    ensures { result ≡ calls is_unknown_call item.now }
{
    match item {
        Item::Call(name, _) => !matches!(name, Name::Known(_)),
        _ => false,
    }
}

/// Whether an item calls a function with arguments that it does not take.
fn miscalls(item: &Item) -> bool
    ensures { result ≡ calls misses item.now }
{
    match item {
        Item::Call(name, args) => match *name {
            Name::Known(function) => is_miscalled(function, args.as_slice()),
            _ => false,
        },
        _ => false,
    }
}

/// Whether an item is a call with an argument that is a letter that no label has.
fn mislabels(labels: &[LabelAt], item: &Item) -> bool
    ensures { result ≡ calls (is_unlabelled labels.now) item.now }
{
    match item {
        Item::Call(_, args) => has_unknown_label(labels, args.as_slice()),
        _ => false,
    }
}

/// Whether one of the items is a call of a name that is no function.
fn some_call_unknown(items: &[Item]) -> bool
    ensures { result ≡ list_any (calls is_unknown_call) items.now }
{
    items.iter().any(|i| calls_unknown(i))
}

/// Whether one of the items calls a function with arguments that it does not take.
fn some_miscall(items: &[Item]) -> bool
    ensures { result ≡ list_any (calls misses) items.now }
{
    items.iter().any(|i| miscalls(i))
}

/// Whether one of the items is a call with an argument that is a letter that no label has.
fn some_mislabel(labels: &[LabelAt], items: &[Item]) -> bool
    ensures { result ≡ list_any (calls (is_unlabelled labels.now)) items.now }
{
    items.iter().any(|i| mislabels(labels, i))
}

/// The first fault of the calls among `items`, in the order of the variants of `ConsError`.
pub fn call_fault(labels: &[LabelAt], items: &[Item]) -> Option<ConsError>
    ensures { result ≡ first_call_fault labels.now items.now }
{
    if some_call_unknown(items) {
        Some(ConsError::UnknownFunction)
    } else if some_miscall(items) {
        Some(ConsError::Arity)
    } else if some_mislabel(labels, items) {
        Some(ConsError::UnknownLabel)
    } else {
        None
    }
}
