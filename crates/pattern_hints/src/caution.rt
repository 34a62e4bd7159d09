//! The warnings about a text, in words.

use pattern_faults::Value::{self, Byte, Bytes, Line, Nothing, Number};
use pattern_faults::write_words;
use std::fmt::{self, Display, Formatter, Write};

/// Something that an author may not have meant.
#[derive(Clone, Copy)]
pub enum Caution<'a> {
    /// Letters of a diagram behind the blank that ends a row.
    BehindRow(&'a [u8]),
    /// Words behind the blank that ends a name.
    BehindName(&'a [u8]),
    /// A word before the first entry that is nearly `Pattern`.
    NearPattern(&'a [u8]),
    /// A label that no expression names.
    UnusedLabel(u8),
    /// A class letter that tests nothing in this case, but does in the other.
    ClassCase {
        /// The letter.
        letter: u8,
        /// The letter in the other case.
        other: u8,
    },
    /// A mark that tries images of the diagram more than once.
    OwnImage {
        /// How often each match is found.
        times: usize,
        /// The mark that tries each image once.
        mark: u8,
    },
    /// A mark that does not try all images of the diagram.
    ImagesLeftOut {
        /// The mark.
        mark: u8,
        /// The mark that tries all images.
        meant: u8,
    },
    /// An item that gives no value, though its name is nearly `value`.
    NearValue(&'a [u8]),
    /// An item called `value` that gives no value.
    NoValue(&'a [u8]),
    /// A second item that gives a value.
    SecondValue(&'a [u8]),
    /// An expression that is 0 whenever the diagram fits.
    NeverMet,
    /// A name that an earlier entry has too.
    SameName {
        /// The line of the earlier entry.
        line: u64,
    },
    /// An entry that matches only if another entry matches at the same point.
    NeverAlone {
        /// The line of the other entry.
        line: u64,
    },
    /// A line that does not end as the first line does.
    LineEnds,
    /// A text without an entry.
    NoEntry,
}

impl<'a> Caution<'a> {
    /// The words for a caution, with a `{}` in the place of each value.
    fn words(&self) -> &'static str {
        match self {
            Caution::BehindRow(_) => "a row ends at its first blank; '{}' is passed over",
            Caution::BehindName(_) => "a name ends at its first blank; '{}' is passed over",
            Caution::NearPattern(_) => {
                "a line before the first entry is passed over; is Pattern meant by '{}'?"
            }
            Caution::UnusedLabel(_) => "no expression uses the label '{}'",
            Caution::ClassCase { .. } => "the class letter '{}' tests nothing; is '{}' meant?",
            Caution::OwnImage { .. } => {
                "the diagram is its own image, and each match comes {} times; ':{}' tells each once"
            }
            Caution::ImagesLeftOut { .. } => {
                "':{}' does not try all images of the diagram, as ':{}' does"
            }
            Caution::NearValue(_) => "'{}' says no value; is value(..) meant?",
            Caution::NoValue(_) => "'{}' says no value; a value has one to six digits",
            Caution::SecondValue(_) => "the entry has a value already; '{}' is passed over",
            Caution::NeverMet =>
                "the expression is 0 wherever the diagram fits; the entry never matches",
            Caution::SameName { .. } => "the entry of line {} has the same name",
            Caution::NeverAlone { .. } => {
                "wherever this entry matches, that of line {} matches at the same point"
            }
            Caution::LineEnds => {
                "some lines end with a carriage return before the line feed, and others do not"
            }
            Caution::NoEntry => "the text has no entry",
        }
    }

    /// The values for the places in the words, in order, followed by `Nothing`.
    fn values(&self) -> [Value<'a>; 3] {
        let (first, second) = match *self {
            Caution::BehindRow(word)
            | Caution::BehindName(word)
            | Caution::NearPattern(word)
            | Caution::NearValue(word)
            | Caution::NoValue(word)
            | Caution::SecondValue(word) => (Bytes(word), Nothing),
            Caution::OwnImage { times, mark } => (Number(times), Byte(mark)),
            Caution::ImagesLeftOut { mark, meant } => (Byte(mark), Byte(meant)),
            Caution::UnusedLabel(label) => (Byte(label), Nothing),
            Caution::ClassCase { letter, other } => (Byte(letter), Byte(other)),
            Caution::SameName { line } | Caution::NeverAlone { line } => (Line(line), Nothing),
            Caution::LineEnds | Caution::NoEntry | Caution::NeverMet => (Nothing, Nothing),
        };
        [first, second, Nothing]
    }
}

impl Display for Caution<'_> {
    fn fmt<W: Write>(&self, f: &mut Formatter<W>) -> fmt::Result {
        write_words(f, self.words(), &self.values())
    }
}
