//! What an entry of GNU Go has that gopat does not, and which functions have another value.

use crate::gnu_go::{EYE_LETTERS, FUNCTIONS, LETTERS};
use db_lex::trim;
use pat_types::NoMemory;
use pattern_faults::{Cause, Fault, Value, write_words};
use pattern_lines::{Part, Place, Sort, lines_in, tokens};
use std::alloc::Global;
use std::fmt::{self, Display, Formatter, Write};

/// A note for an author who brings entries from GNU Go.
#[derive(Clone, Copy)]
pub enum Port<'a> {
    /// A letter that only GNU Go has.
    Letter(u8),
    /// A letter of GNU Go's eye shapes.
    EyeLetter(u8),
    /// An eye shape, in which `*` is not a move.
    EyeStars,
    /// The number of eyes of an eye shape, in place of a mark.
    EyeValue(&'a [u8]),
    /// A weight for GNU Go's playouts, in place of a mark.
    Weight(&'a [u8]),
    /// A diagram without a move.
    NoMove,
    /// A label that stands at several points.
    LabelAgain(u8),
    /// A function that only GNU Go has.
    Function(&'a [u8]),
    /// A word in a comparison, such as DEAD.
    Word(&'a [u8]),
    /// A C function that the entry names.
    Helper(&'a [u8]),
    /// The function `oplay_attack` or `xplay_attack`, if its moves capture the target.
    TakenTarget(&'a [u8]),
    /// The function `does_attack`.
    DoesAttack,
    /// The function `ko` at a stone.
    Ko,
}

impl<'a> Port<'a> {
    /// The words for a note, with a `{}` in the place of its value.
    fn words(&self) -> &'static str {
        match self {
            Port::Letter(_) => "GNU Go has the letter '{}' in diagrams; gopat has not",
            Port::EyeLetter(_) => {
                "GNU Go has the letter '{}' in eye shapes; gopat has no eye shapes"
            }
            Port::EyeStars => {
                "in GNU Go's eye shapes '*' is a vital point, of which there may be none or several; gopat has no eye \
                 shapes"
            }
            Port::EyeValue(_) => {
                "GNU Go has the eyes of an eye shape, as {}, in place of a mark; gopat has no eye shapes"
            }
            Port::Weight(_) => {
                "GNU Go has a weight of its playouts, as {}, in place of a mark; gopat has no weights"
            }
            Port::NoMove => {
                "GNU Go has patterns without a move, as those of connections and of influence; gopat has not"
            }
            Port::LabelAgain(_) => {
                "in GNU Go the first '{}' counts where several stand; here a label stands once"
            }
            Port::Function(_) => "GNU Go has the function {}; gopat has not",
            Port::Word(_) => { "GNU Go compares with words such as {}; gopat has numbers alone" }
            Port::Helper(_) => {
                "GNU Go calls its function {} here; a helper of this name can be handed to gopat's library"
            }
            Port::TakenTarget(_) => {
                "where the moves take the last argument, {} is 3 in GNU Go and 0 here"
            }
            Port::DoesAttack => {
                "does_attack is 0 in GNU Go where the target is lost anyway, and looks at its best defence too; here \
                 it is 3 less the defend code behind the play"
            }
            Port::Ko => "ko of a stone is 1 in GNU Go where the stone can be retaken; here it is 0",
        }
    }

    /// The value for the place in the words.
    fn value(&self) -> Value<'a> {
        match *self {
            Port::Letter(letter) | Port::EyeLetter(letter) | Port::LabelAgain(letter) => {
                Value::Byte(letter)
            }
            Port::EyeValue(word)
            | Port::Weight(word)
            | Port::Function(word)
            | Port::Word(word)
            | Port::Helper(word)
            | Port::TakenTarget(word) => Value::Bytes(word),
            Port::EyeStars | Port::NoMove | Port::DoesAttack | Port::Ko => Value::Nothing,
        }
    }
}

impl Display for Port<'_> {
    fn fmt<W: Write>(&self, f: &mut Formatter<W>) -> fmt::Result {
        write_words(f, self.words(), &[self.value(), Value::Nothing])
    }
}

/// A note on an entry that gopat accepts.
#[derive(Clone, Copy)]
pub struct PortNote<'a> {
    /// The place that the note is about.
    pub place: Place<'a>,
    /// The note.
    pub port: Port<'a>,
}

/// Whether `name` is one of `names`.
fn is_among(name: &[u8], names: &[&[u8]]) -> bool {
    for other in names {
        if *other == name {
            return true;
        }
    }
    false
}

/// Whether all bytes of a field are digits from 0 to `most`.
fn are_digits(field: &[u8], most: u8) -> bool {
    for digit in field {
        if *digit < b'0' || most < *digit {
            return false;
        }
    }
    true
}

/// Whether a first field is the value of an eye shape: four digits from 0 to 2.
fn is_eye_value(field: &[u8]) -> bool {
    field.len() == 4 && are_digits(field, b'2')
}

/// What GNU Go means by a first field that is not a mark.
fn of_mark<'a>(field: &'a [u8]) -> Option<Port<'a>> {
    if is_eye_value(field) {
        Some(Port::EyeValue(field))
    } else if !field.is_empty() && are_digits(field, b'9') {
        Some(Port::Weight(field))
    } else {
        None
    }
}

/// What GNU Go means by a letter that no diagram of gopat has.
fn of_letter<'a>(letter: u8) -> Option<Port<'a>> {
    if LETTERS.contains(&letter) {
        Some(Port::Letter(letter))
    } else if EYE_LETTERS.contains(&letter) {
        Some(Port::EyeLetter(letter))
    } else {
        None
    }
}

/// What in GNU Go a fault comes from, if it comes from GNU Go.
pub fn port_of<'a>(fault: &Fault<'a>) -> Option<Port<'a>> {
    match &fault.cause {
        Cause::Letter(letter) | Cause::LabelInDiagram(letter) => of_letter(*letter),
        Cause::Stars(_) if is_eye_value(first_field(fault.place.text)) => Some(Port::EyeStars),
        Cause::Stars(0) => Some(Port::NoMove),
        Cause::Mark(field) => of_mark(field),
        Cause::LabelAgain(label) => Some(Port::LabelAgain(*label)),
        Cause::Function(name) if is_among(name, FUNCTIONS) => Some(Port::Function(name)),
        Cause::NoArguments(word) if word.len() > 1 => Some(Port::Word(word)),
        Cause::Helper(name) => Some(Port::Helper(name)),
        _ => None,
    }
}

/// The first field of a colon line.
fn first_field(line: &[u8]) -> &[u8] {
    let fields = trim(line).strip_prefix(b":".as_slice()).unwrap_or(&[]);
    for (at, byte) in fields.iter().enumerate() {
        if *byte == b',' {
            return trim(fields.get(..at).unwrap_or(fields));
        }
    }
    trim(fields)
}

/// The difference from GNU Go in the value of the function called `name`, if there is one.
fn differing<'a>(name: &'a [u8]) -> Option<Port<'a>> {
    match name {
        b"oplay_attack" | b"xplay_attack" => Some(Port::TakenTarget(name)),
        b"does_attack" => Some(Port::DoesAttack),
        b"ko" => Some(Port::Ko),
        _ => None,
    }
}

/// The functions in the expression of an entry with values that differ from GNU Go's. Takes memory.
pub fn port_notes<'a>(alloc: Global, part: Part<'a>) -> Result<Vec<PortNote<'a>>, NoMemory> {
    let mut all = Vec::new(alloc);
    let lines = lines_in(alloc, part)?;
    for word in &tokens(alloc, lines.as_slice())? {
        if word.sort == Sort::Name
            && let Some(port) = differing(word.bytes)
        {
            all.push(PortNote {
                place: word.place,
                port,
            })?;
        }
    }
    Ok(all)
}
