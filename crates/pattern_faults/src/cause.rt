//! The causes of faults, in words.

use crate::words::Value::{self, Between, Byte, Bytes, Nothing, Number};
use crate::words::write_words;
use std::fmt::{self, Display, Formatter, Write};

/// The cause of a fault.
#[derive(Clone, Copy)]
pub enum Cause<'a> {
    /// A byte that may not stand in any line.
    BadByte(u8),
    /// A line before the first entry that does not begin with a letter.
    BeforeEntries,
    /// A byte order mark before the first line.
    ByteOrderMark,
    /// A second colon line in an entry.
    SecondColonLine,
    /// An expression line behind the action lines.
    LateExpression,
    /// A line behind the expression or the actions that is neither an expression line nor an action line.
    AfterEntry,
    /// A Pattern line without a name.
    NoName,
    /// A name that is too long, with its number of bytes.
    LongName(usize),
    /// A byte that may not stand in a name.
    NameByte(u8),
    /// A diagram without a row above the colon line.
    NoRow,
    /// A line of a diagram that is not as wide as the first line.
    Width {
        /// The points of this line.
        points: usize,
        /// The points of the first line of the diagram.
        first: usize,
    },
    /// A byte that is not a letter of a diagram.
    Letter(u8),
    /// A byte that is not a letter of a diagram, in a line that seems to begin a constraint diagram.
    LabelInDiagram(u8),
    /// A line that is neither an edge line nor a row.
    NoLine,
    /// A part of an edge within a row.
    EdgeWithin(u8),
    /// A diagram with this number of stars; it needs one star.
    Stars(usize),
    /// A second edge line above the rows.
    EdgeBetween,
    /// A line below the bottom edge.
    BelowEdge,
    /// Edges at the sides that are not those of the lines above.
    Sides,
    /// A line of a diagram that is too long, with its number of bytes.
    LongLine(usize),
    /// One line more than a diagram may have.
    ManyLines,
    /// An entry without a colon line.
    NoColonLine,
    /// A first field of a colon line that is not a mark.
    Mark(&'a [u8]),
    /// A byte that is not a class letter.
    ClassLetter(u8),
    /// An item in the place of the class letters.
    NoClasses {
        /// The item.
        item: &'a [u8],
        /// The mark in the field before the item.
        mark: &'a [u8],
    },
    /// Too many class letters, with their number.
    ManyClassLetters(usize),
    /// A field of a colon line that is not an item.
    Item(&'a [u8]),
    /// Too many items, with their number.
    ManyItems(usize),
    /// A line behind the last line of the constraint diagram, which has this number of lines.
    ConstraintEnds(usize),
    /// A line behind the last line of the constraint diagram that seems to be an expression.
    NoSemicolon,
    /// A line of the constraint diagram that is not as long as its line of the diagram.
    ConstraintWidth {
        /// The bytes of the line.
        bytes: usize,
        /// The bytes of the line in the diagram.
        diagram: usize,
    },
    /// A byte of the constraint diagram that is neither the byte of the diagram nor a label.
    NoLabel {
        /// The byte of the constraint diagram.
        byte: u8,
        /// The byte of the diagram.
        diagram: u8,
    },
    /// A label in the place of an edge.
    LabelOnEdge(u8),
    /// A label that stands twice in a constraint diagram.
    LabelAgain(u8),
    /// A constraint diagram with too few lines.
    ConstraintShort {
        /// The lines of the constraint diagram.
        lines: usize,
        /// The lines of the diagram.
        diagram: usize,
    },
    /// A byte that may not stand in an expression.
    ExpressionByte(u8),
    /// Bytes that look like an operator, but are none.
    NoSuchOperator {
        /// These bytes.
        bytes: &'a [u8],
        /// The operator that may be meant.
        meant: &'static [u8],
    },
    /// A number of more than six digits.
    LongNumber,
    /// An expression that is too long.
    LongExpression,
    /// A word in a place that needs a number, a call, a sign or a parenthesis.
    NoOperand(&'a [u8]),
    /// A word in a place that needs an operator or the end of the expression.
    NoOperator(&'a [u8]),
    /// A name without arguments.
    NoArguments(&'a [u8]),
    /// A word in a place that needs an argument.
    NoArgument(&'a [u8]),
    /// A word in a place that needs a comma or the end of the arguments.
    NoComma(&'a [u8]),
    /// A closing parenthesis without an opening one.
    Unopened,
    /// An expression that ends in a place that needs an operand.
    EndsEarly,
    /// An expression in which a parenthesis is not closed.
    Unclosed,
    /// An expression that is nested too deep.
    Deep,
    /// A name that is not the name of a function.
    Function(&'a [u8]),
    /// A call with a number of arguments that the function does not take.
    Arity {
        /// The name of the function.
        name: &'a [u8],
        /// The arguments of the call.
        arguments: usize,
        /// The least number that the function takes.
        least: usize,
        /// The greatest number that the function takes.
        most: usize,
    },
    /// A pass in a call that takes none.
    Pass(&'a [u8]),
    /// An argument that is not a label of the constraint diagram.
    Label(u8),
    /// An argument that is the letter of a stone.
    StoneLabel(u8),
    /// A field that names no helper.
    Helper(&'a [u8]),
    /// One entry more than a text may have.
    ManyEntries,
    /// A fault of which only the kind is known.
    Kind(u8),
}

impl<'a> Cause<'a> {
    /// The words for a cause, with a `{}` in the place of each value.
    fn words(&self) -> &'static str {
        match self {
            Cause::BadByte(_) => "byte {} may stand in no line",
            Cause::BeforeEntries => {
                "before the first entry only lines that begin with a letter may stand; an entry begins with a Pattern \
                 line"
            }
            Cause::ByteOrderMark => {
                "the text begins with a byte order mark, which no editor shows; save it as UTF-8 without one"
            }
            Cause::SecondColonLine => "the entry has a colon line already",
            Cause::LateExpression => "an expression stands before the action lines",
            Cause::AfterEntry => {
                "behind an expression or actions only lines with ';' or '>' may stand; an entry begins with a Pattern \
                 line"
            }
            Cause::NoName => "a name is missing behind Pattern",
            Cause::LongName(_) => "the name has {} bytes, and may have 80",
            Cause::NameByte(_) => "'{}' may not stand in a name",
            Cause::ManyEntries => "a text has at most 4096 entries",
            Cause::Kind(_) => "a fault of kind {}",
            _ => self.words_of_diagram(),
        }
    }

    /// The words for a cause in the diagram or in the lines below it.
    fn words_of_diagram(&self) -> &'static str {
        match self {
            Cause::NoRow => "no row of letters stands above the colon line",
            Cause::Width { .. } => "the line is {} wide, and the first {}",
            Cause::Letter(_) => "'{}' is no letter of a diagram (O X o x . ? *)",
            Cause::LabelInDiagram(_) => {
                "'{}' is no letter of a diagram (O X o x . ? *); is the colon line above a constraint diagram missing?"
            }
            Cause::NoLine => {
                "the line is neither a row of letters (O X o x . ? *), with or without '|' at its ends, nor an edge \
                 line of '-'"
            }
            Cause::EdgeWithin(_) => "'{}' is part of an edge, and may not stand within a row",
            Cause::Stars(_) => "the diagram has {} '*', and needs one",
            Cause::EdgeBetween => "an edge line stands above all rows or below all of them",
            Cause::BelowEdge => {
                "the edge line above ends the diagram; one stands above all rows or below all of them"
            }
            Cause::Sides => {
                "an edge at a side is drawn beside every row, with '+' where it meets another; the first line has it \
                 otherwise"
            }
            Cause::LongLine(_) => "the line has {} bytes, and may have 25",
            Cause::ManyLines => "a diagram has at most 25 lines",
            Cause::NoColonLine => "no colon line, as ':8,s', stands below the diagram",
            _ => self.words_of_constraint(),
        }
    }

    /// The words for a cause in the colon line, the constraint diagram or the expression.
    fn words_of_constraint(&self) -> &'static str {
        match self {
            Cause::Mark(_) => "'{}' is no mark (8 | - / \\ + X O)",
            Cause::ClassLetter(_) => "'{}' is no class letter",
            Cause::NoClasses { .. } => {
                "'{}' stands in place of the class letters; '-' stands for none, as in ':{},-,{}'"
            }
            Cause::ManyClassLetters(_) => "{} class letters, and at most 32 may stand here",
            Cause::Item(_) => {
                "'{}' is no item: a name, or a name and a text in one pair of parentheses"
            }
            Cause::ManyItems(_) => "{} items, and at most 16 may stand here",
            Cause::Helper(_) => {
                "no helper has the name '{}'; with a text, as in {}(), it tests nothing"
            }
            Cause::ConstraintEnds(_) => {
                "a constraint diagram has as many lines as its diagram, here {}"
            }
            Cause::NoSemicolon => {
                "no line of a constraint diagram; is it an expression without its ';'?"
            }
            Cause::ConstraintWidth { .. } => {
                "the line is {} wide, and its line of the diagram {}"
            }
            Cause::NoLabel { .. } => {
                "'{}' is neither the diagram's '{}' nor a label, a letter other than O X o x"
            }
            Cause::LabelOnEdge(_) => "the label '{}' stands on an edge",
            Cause::LabelAgain(_) => "the label '{}' stands in the diagram already",
            Cause::ConstraintShort { .. } => "the constraint diagram stops after {} of {} lines",
            _ => self.words_of_expression(),
        }
    }

    /// The words for a cause in an expression.
    fn words_of_expression(&self) -> &'static str {
        match self {
            Cause::ExpressionByte(_) => "'{}' may not stand in an expression",
            Cause::NoSuchOperator { .. } => "'{}' is no operator; is '{}' meant?",
            Cause::LongNumber => "a number has at most six digits",
            Cause::LongExpression => "an expression has at most 4096 bytes",
            Cause::NoOperand(_) => {
                "a number, a call, '!', '-' or '(' is wanted here, and '{}' stands here"
            }
            Cause::NoOperator(_) => {
                "the expression may end here or go on with an operator, and '{}' stands here"
            }
            Cause::NoArguments(_) => {
                "'{}' is the name of no number; a function has its arguments in parentheses behind its name"
            }
            Cause::NoArgument(_) => "an argument is one letter, '*' or '?', and '{}' stands here",
            Cause::NoComma(_) => "',' or ')' is wanted behind an argument, and '{}' stands here",
            Cause::Unopened => "no '(' belongs to this ')'",
            Cause::EndsEarly => {
                "the expression ends where a number, a call or a parenthesis is wanted"
            }
            Cause::Unclosed => "the expression ends before a ')'",
            Cause::Deep => "parentheses and signs stand more than 32 deep",
            Cause::Function(_) => "no function has the name '{}'",
            Cause::Arity { .. } => "the number of arguments of {} is {}, and here {}",
            Cause::Pass(_) => {
                "'?' is a pass, and {} takes none here: it may stand for a move of oplay_.. and xplay_.. alone"
            }
            Cause::Label(_) => "the label '{}' does not stand in the constraint diagram",
            Cause::StoneLabel(_) => {
                "'{}' is the letter of a stone and no label; in the constraint diagram a label, as A, replaces it"
            }
            _ => "a fault",
        }
    }

    /// The values for the places in the words, in order, followed by `Nothing`.
    fn values(&self) -> [Value<'a>; 4] {
        let (first, second, third) = match *self {
            Cause::BadByte(number) | Cause::Kind(number) => {
                (Number(number as usize), Nothing, Nothing)
            }
            Cause::LongName(number)
            | Cause::Stars(number)
            | Cause::LongLine(number)
            | Cause::ManyClassLetters(number)
            | Cause::ManyItems(number)
            | Cause::ConstraintEnds(number) => (Number(number), Nothing, Nothing),
            Cause::NameByte(byte)
            | Cause::Letter(byte)
            | Cause::LabelInDiagram(byte)
            | Cause::EdgeWithin(byte)
            | Cause::ClassLetter(byte)
            | Cause::LabelOnEdge(byte)
            | Cause::LabelAgain(byte)
            | Cause::ExpressionByte(byte)
            | Cause::Label(byte)
            | Cause::StoneLabel(byte) => (Byte(byte), Nothing, Nothing),
            Cause::Mark(word)
            | Cause::Item(word)
            | Cause::NoOperand(word)
            | Cause::NoOperator(word)
            | Cause::NoArguments(word)
            | Cause::NoArgument(word)
            | Cause::NoComma(word)
            | Cause::Function(word)
            | Cause::Pass(word) => (Bytes(word), Nothing, Nothing),
            Cause::Helper(name) => (Bytes(name), Bytes(name), Nothing),
            Cause::NoClasses { item, mark } => (Bytes(item), Bytes(mark), Bytes(item)),
            Cause::NoSuchOperator { bytes, meant } => (Bytes(bytes), Bytes(meant), Nothing),
            Cause::Width { points, first } => (Number(points), Number(first), Nothing),
            Cause::ConstraintWidth { bytes, diagram } => (Number(bytes), Number(diagram), Nothing),
            Cause::ConstraintShort { lines, diagram } => (Number(lines), Number(diagram), Nothing),
            Cause::NoLabel { byte, diagram } => (Byte(byte), Byte(diagram), Nothing),
            Cause::Arity {
                name,
                arguments,
                least,
                most,
            } => (Bytes(name), Between(least, most), Number(arguments)),
            _ => (Nothing, Nothing, Nothing),
        };
        [first, second, third, Nothing]
    }
}

impl Display for Cause<'_> {
    fn fmt<W: Write>(&self, f: &mut Formatter<W>) -> fmt::Result {
        write_words(f, self.words(), &self.values())
    }
}
