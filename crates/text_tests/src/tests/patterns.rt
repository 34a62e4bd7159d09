//! The patterns that texts spell.

use db_read::read;
use pat_types::{Expr, Item, LabelAt, Letter, Mark, Op, Pattern};
use std::alloc::Global;

/// A text and what its pattern has, apart from what both texts have in common.
struct Spelled {
    /// What is special about the text.
    what: &'static str,
    /// The text.
    text: &'static [u8],
    /// The pattern's name.
    name: &'static [u8],
    /// The pattern's mark.
    mark: Mark,
    /// The pattern's class letters.
    classes: &'static [u8],
    /// Whether the pattern's constraint compares by `>`.
    more_than: bool,
}

/// Two texts with the same diagram, the same constraint diagram and the same items.
static SPELLED: [Spelled; 2] = [
    Spelled {
        what: "the first word of the rest is the name, and a dash is no class letter",
        text: b"Pattern Edge1 a comment\n+--\n|O*  side\n|..\n:-,Ds-,NULL,value(3, 4)\n+--\n|OA\n|B.\n> action",
        name: b"Edge1",
        mark: Mark::Dash,
        classes: b"Ds",
        more_than: false,
    },
    Spelled {
        what: "the constraint is what the expression says",
        text: b"Pattern P\n+--\n|O*\n|..\n:8,s,NULL,value(3, 4)\n+--\n|OA\n|B.\n;lib(A)\n;>1",
        name: b"P",
        mark: Mark::Eight,
        classes: b"s",
        more_than: true,
    },
];

/// The letters of the diagram of both texts, in reading order.
static LETTERS: [Letter; 4] = [Letter::Friend, Letter::Star, Letter::Empty, Letter::Empty];

/// The labels of both texts, each over a cell of the diagram; edges are not counted in its row and column.
static LABELS: [LabelAt; 2] = [
    LabelAt {
        letter: b'A',
        row: 0,
        col: 1,
    },
    LabelAt {
        letter: b'B',
        row: 1,
        col: 0,
    },
];

/// The items of both texts: a name, and the text between its parentheses.
static ITEMS: [(&[u8], &[u8]); 2] = [(b"NULL", b"no text"), (b"value", b"3, 4")];

/// The pattern of a text without a fault, if it has exactly one.
fn only_pattern(alloc: Global, text: &[u8]) -> Option<Pattern> {
    let mut patterns = read(alloc, text, &[], Vec::new(alloc)).ok()?;
    let last = patterns.pop()?;
    patterns.is_empty().then_some(last)
}

/// Whether the pattern has the name, the mark, the class letters and the constraint that are spelled.
fn is_named(p: &Pattern, spelled: &Spelled) -> bool {
    let more_than = matches!(&p.constraint, Some(Expr::Bin(Op::Gt, _, _)));
    let names = (p.name.as_slice(), p.classes.as_slice());
    names == (spelled.name, spelled.classes)
        && (p.mark, more_than) == (spelled.mark, spelled.more_than)
}

/// Whether the pattern has the size, the star and the edges of the diagram.
fn is_outlined(p: &Pattern) -> bool {
    let edges = ((p.top, p.bottom), (p.left, p.right));
    ((p.rows, p.cols), p.star) == ((2, 2), (0, 1)) && edges == ((true, false), (true, false))
}

/// Whether the pattern has the letters and the labels.
fn is_lettered(p: &Pattern) -> bool {
    p.letters.as_slice() == LETTERS.as_slice() && p.labels.as_slice() == LABELS.as_slice()
}

/// The text of an item, or `no text` if it has none.
fn text_of(item: &Item) -> &[u8] {
    match &item.text {
        Some(text) => text.as_slice(),
        None => b"no text".as_slice(),
    }
}

/// Whether the pattern has the items.
fn has_items(p: &Pattern) -> bool {
    for (item, &(name, text)) in p.items.as_slice().iter().zip(&ITEMS) {
        if (item.name.as_slice(), text_of(item)) != (name, text) {
            return false;
        }
    }
    p.items.as_slice().len() == ITEMS.len()
}

#[test]
fn patterns_are_read_as_they_are_written(rt: HostRuntime) {
    for spelled in &SPELLED {
        let what = spelled.what;
        let p = only_pattern(rt.alloc(), spelled.text);
        let p = p.expect(&rt, "the text has one pattern");
        assert!(rt; is_named(&p, spelled), "{what}");
        assert!(rt; is_outlined(&p), "size, star, edges: {what}");
        assert!(rt; is_lettered(&p), "letters, labels: {what}");
        assert!(rt; has_items(&p), "items: {what}");
    }
}
