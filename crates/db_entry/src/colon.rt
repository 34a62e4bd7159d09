//! The colon line: its faults, and what it says.

ghost use Rattle.std.specs.Prelude.{◌≡◌, ◌<◌, ◌==◌, ◌&&◌, ◌||◌, not, nat_lt, is_none, ℕ, List, []};
ghost use Rattle.std.specs.Prelude.{length, map, Some, None, IfOk, IfErr, take};
ghost use Rattle.std.specs.List.{list_any, list_all};
ghost use Rattle.std.specs.Str.{bytes_eq};
ghost use Rattle.db_rules.specs.Diagram.{star_count as stars};
ghost use Rattle.db_rules.specs.declared.kind.FaultKind.{FaultKind};
ghost use Rattle.db_rules.specs.Kinds.{first_of};
ghost use Rattle.db_rules.specs.Colon.{fields_of as all_fields, mark_of as mark_in, class_field as second_field};
ghost use Rattle.db_rules.specs.Colon.{further as others, is_item as item, item_of as item_from};
ghost use Rattle.db_rules.specs.Colon.{names_nothing as nothing_named, class_letters as letters_in, null};
ghost use Rattle.db_rules.specs.Colon.{are_classes as classes, fields_fault as first_fields_fault, colon_fault};
ghost use Rattle.db_rules.specs.Faults.{Blames};
ghost use Rattle.db_entry.specs.Says.{Says, most_fields};
ghost use Rattle.db_entry.specs.Reads.{Draws};

use crate::diagram::Diagram;
use crate::fields::{are_classes, field_len, is_item, is_name, mark_by, name_before, text_after};
use db_lex::trim;
use db_rules::{FaultKind, LineError};
use go_base::{Bytes, NoMemory};
use pat_types::{Item, Items, Letter, Mark};
use std::alloc::Global;

/// The most fields that are read: a mark, class letters, 16 items, and one more, which is one too many.
const MOST_FIELDS: usize = 19;

/// The first fields of a colon line, without the blanks at their ends: at most `MOST_FIELDS` of them.
fn first_fields(alloc: Global, line: &[u8]) -> Result<Vec<&[u8]>, NoMemory>
    requires { 0 < length line.now }
    ensures { IfOk result (λ fields. map (λ f. f.now) fields.items ≡ take most_fields (all_fields line.now)) }
{
    let mut fields = Vec::new(alloc);
    let mut rest = &line[1..];
    while fields.len() < MOST_FIELDS {
        let len = field_len(rest);
        fields.push(trim(&rest[..len]))?;
        if len >= rest.len() {
            return Ok(fields);
        }
        rest = &rest[len + 1..];
    }
    Ok(fields)
}

/// The mark in the first field, if that field is a mark.
fn mark_of(fields: &[&[u8]]) -> Option<Mark>
    ensures { result ≡ mark_in (map (λ f. f.now) fields.now) }
{
    match fields {
        [] => None,
        [first, ..] => match *first {
            [b] => mark_by(*b),
            _ => None,
        },
    }
}

/// The second field, or nothing if it is missing.
fn class_field<'a>(fields: &[&'a [u8]]) -> &'a [u8]
    ensures { result.now ≡ second_field (map (λ f. f.now) fields.now) }
{
    match fields {
        [_, class, ..] => class,
        _ => &[],
    }
}

/// The fields after the second.
fn further<'a, 'b>(fields: &'b [&'a [u8]]) -> &'b [&'a [u8]]
    ensures { map (λ f. f.now) result.now ≡ others (map (λ f. f.now) fields.now) }
{
    match fields {
        [_, _, rest @ ..] => rest,
        _ => &[],
    }
}

fn are_items(fields: &[&[u8]]) -> bool
    ensures { result ≡ list_all item (map (λ f. f.now) fields.now) }
{
    for field in fields {
        if !is_item(field) {
            return false;
        }
    }
    true
}

fn is_among(field: &[u8], helpers: &[Bytes]) -> bool
    ensures { result ≡ list_any (bytes_eq field.now) helpers.now }
{
    for helper in helpers {
        if field == helper.as_slice() {
            return true;
        }
    }
    false
}

fn is_null(field: &[u8]) -> bool
    ensures { result ≡ bytes_eq field.now null }
{
    field == b"NULL".as_slice()
}

fn names_nothing(helpers: &[Bytes], field: &[u8]) -> bool
    ensures { result ≡ nothing_named helpers.now field.now }
{
    is_name(field) && !(is_null(field) || is_among(field, helpers))
}

fn some_names_nothing(helpers: &[Bytes], fields: &[&[u8]]) -> bool
    ensures { result ≡ list_any (nothing_named helpers.now) (map (λ f. f.now) fields.now) }
{
    for field in fields {
        if names_nothing(helpers, field) {
            return true;
        }
    }
    false
}

fn star_count(letters: &[Letter]) -> usize
    ensures { result ≡ stars letters.now }
{
    letters
        .iter()
        .filter(|l| matches!(**l, Letter::Star))
        .count()
}

fn is_no_mark(fields: &[&[u8]]) -> bool
    ensures { result ≡ is_none (mark_in (map (λ f. f.now) fields.now)) }
{
    mark_of(fields).is_none()
}

fn are_bad_classes(fields: &[&[u8]]) -> bool
    ensures { result ≡ not (classes (second_field (map (λ f. f.now) fields.now))) }
{
    !are_classes(class_field(fields))
}

fn are_bad_items(fields: &[&[u8]]) -> bool
    ensures { result ≡ (nat_lt 16 (length (others (map (λ f. f.now) fields.now)))
        || not (list_all item (others (map (λ f. f.now) fields.now)))) }
{
    let rest = further(fields);
    rest.len() > 16 || !are_items(rest)
}

fn is_unknown_helper(helpers: &[Bytes], fields: &[&[u8]]) -> bool
    ensures { result ≡ list_any (nothing_named helpers.now) (others (map (λ f. f.now) fields.now)) }
{
    some_names_nothing(helpers, further(fields))
}

fn has_no_row(rows: usize) -> bool
    ensures { result ≡ not (nat_lt 0 rows) }
{
    !(0 < rows)
}

fn is_not_one(stars: usize) -> bool
    ensures { result ≡ not (stars == 1) }
{
    stars != 1
}

/// The first fault of a colon line with these fields after a diagram.
fn fields_fault(helpers: &[Bytes], diagram: &Diagram, fields: &[&[u8]]) -> Option<FaultKind>
    ensures { (words : List (List ℕ)) → Draws diagram.now words →
        result ≡ first_fields_fault helpers.now words (map (λ f. f.now) fields.now) }
{
    let stars = star_count(diagram.letters.as_slice());
    FaultKind::first_of(&[
        (has_no_row(diagram.rows), FaultKind::NoDiagram),
        (is_not_one(stars), FaultKind::MoveCount),
        (is_no_mark(fields), FaultKind::BadMark),
        (are_bad_classes(fields), FaultKind::BadClass),
        (are_bad_items(fields), FaultKind::BadItem),
        (is_unknown_helper(helpers, fields), FaultKind::UnknownHelper),
    ])
}

/// A copy of `bytes`. Takes memory.
pub fn bytes_of(alloc: Global, bytes: &[u8]) -> Result<Bytes, NoMemory>
    ensures { IfOk result (λ list. list ≡ bytes.now) }
{
    let mut list = Bytes::new(alloc);
    list.extend(bytes)?;
    Ok(list)
}

/// The class letters of the second field, without `-`.
fn class_letters(alloc: Global, field: &[u8]) -> Result<Bytes, NoMemory>
    ensures { IfOk result (λ list. list ≡ letters_in field.now) }
{
    let mut list = Bytes::new(alloc);
    for b in field {
        if *b != b'-' {
            list.push(*b)?;
        }
    }
    Ok(list)
}

fn item_of(alloc: Global, field: &[u8]) -> Result<Item, NoMemory>
    ensures { IfOk result (λ i. i ≡ item_from field.now) }
{
    if is_name(field) {
        let name = bytes_of(alloc, field)?;
        return Ok(Item { name, text: None });
    }
    let name = bytes_of(alloc, name_before(field))?;
    let rest = text_after(field);
    let text = bytes_of(alloc, &rest[..rest.len().saturating_sub(1)])?;
    Ok(Item {
        name,
        text: Some(text),
    })
}

/// The items that `fields` are, the fields after the second.
fn items_of(alloc: Global, fields: &[&[u8]]) -> Result<Items, NoMemory>
    ensures { IfOk result (λ list. list ≡ map item_from (map (λ f. f.now) fields.now)) }
{
    let mut list = Items::new(alloc);
    for field in fields {
        list.push(item_of(alloc, field)?)?;
    }
    Ok(list)
}

/// What a colon line without a fault says.
#[derive(Debug, Drop)]
pub struct ColonLine {
    /// The mark.
    pub mark: Mark,
    /// The class letters, without `-`.
    pub classes: Bytes,
    /// The further fields, in order.
    pub items: Items,
}

/// Reads a colon line that stands after `diagram`. If the line has too many fields, only the first 19 are read.
pub fn read_colon_line(
    alloc: Global,
    helpers: &[Bytes],
    diagram: &Diagram,
    line: &[u8],
) -> Result<ColonLine, LineError>
    requires { 0 < length line.now }
    ensures ok { IfOk result (λ c. (words : List (List ℕ)) → Draws diagram.now words →
        (colon_fault helpers.now words line.now ≡ None) × Says c line.now) }
    ensures err { IfErr result (λ e. (words : List (List ℕ)) → Draws diagram.now words →
        Blames e (colon_fault helpers.now words line.now)) }
{
    let fields = first_fields(alloc, line)?;
    let fields = fields.as_slice();
    if let Some(kind) = fields_fault(helpers, diagram, fields) {
        return Err(LineError::Kind(kind));
    }
    let mark = match mark_of(fields) {
        Some(mark) => mark,
        // Never reached: fields without a fault begin with a mark.
        None => return Err(LineError::Kind(FaultKind::BadMark)),
    };
    Ok(ColonLine {
        mark,
        classes: class_letters(alloc, class_field(fields))?,
        items: items_of(alloc, further(fields))?,
    })
}
