//! The expression that a text spells, or its first fault.

ghost use Rattle.std.specs.Prelude.{◌≡◌, IfOk, IfErr, IsTrue, Some, None};
ghost use Rattle.pat_types.specs.Labels.{is_constraint};
ghost use Rattle.std.specs.Option.{option_map};
ghost use Rattle.cons_parse.specs.Trees.{tree_of, meaning_of};
ghost use Rattle.cons_parse.specs.Reading.{expression_in, fault_in, Blames};
ghost use Rattle.cons_parse.specs.Answers.{Gives};
ghost use Rattle.cons_parse.specs.Parsing.{items_within, Spells, Refuses};

use crate::build::build;
use crate::calls::{Item, items_of};
use crate::error::ConsError;
use crate::faults::call_fault;
use crate::scan::scan;
use crate::token::tokens_of;
use pat_types::{Expr, LabelAt};
use std::alloc::Global;

/// The most bytes that a text may have.
const MOST_BYTES: usize = 4096;

/// The items of `text`; `Syntax` if it is too long or not made of items.
fn items_in(alloc: Global, text: &[u8]) -> Result<Vec<Item>, ConsError>
    ensures { Gives (λ v. v.items) result (items_within text.now) }
{
    if text.len() > MOST_BYTES {
        return Err(ConsError::Syntax);
    }
    match tokens_of(alloc, text) {
        Ok(tokens) => items_of(alloc, tokens.as_slice()),
        Err(e) => Err(e),
    }
}

/// Parses `text` as `parse` does; the contract speaks of the expression as it is written.
fn read(alloc: Global, text: &[u8], labels: &[LabelAt]) -> Result<Expr, ConsError>
    ensures ok { IfOk result (λ e. Spells labels.now text.now e) }
    ensures err { IfErr result (λ e. Refuses labels.now text.now e) }
{
    let items = match items_in(alloc, text) {
        Ok(items) => items,
        Err(e) => return Err(e),
    };
    match scan(alloc, items.as_slice()) {
        Ok(false) => {}
        Ok(true) => return Err(ConsError::TooDeep),
        Err(e) => return Err(e),
    }
    match call_fault(labels, items.as_slice()) {
        Some(fault) => Err(fault),
        None => Ok(build(alloc, items)?),
    }
}

/// Parses the expression that `text` spells. `labels` are those of the constraint diagram. An error is the first fault
/// of the text, in the order of the variants of `ConsError`, or `NoMemory`.
pub fn parse(alloc: Global, text: &[u8], labels: &[LabelAt]) -> Result<Expr, ConsError>
    // The expression is the one that the text spells, and no fault stands in the text.
    ensures ok { IfOk result (λ e. Spells labels.now text.now e) }
    // An error other than `NoMemory` is the first fault of the text.
    ensures err { IfErr result (λ e. Refuses labels.now text.now e) }
    // The functions that compute the expression and the fault of a text agree with the result.
    ensures tree { IfOk result (λ e. option_map meaning_of (expression_in text.now) ≡ Some (tree_of e)) }
    ensures faultless { IfOk result (λ e. fault_in labels.now text.now ≡ None) }
    // A pattern may keep the expression.
    ensures kept { IfOk result (λ e. IsTrue (is_constraint labels.now (Some e))) }
    ensures fault { IfErr result (λ e. Blames e (fault_in labels.now text.now)) }
{
    read(alloc, text, labels)
}
