//! How deep expressions may be nested, and how long they may be.

use super::expressions::{LABELS, is_told};
use super::repeated;
use cons_parse::parse;
use std::alloc::{AllocError, Global};

/// A text of a repeated part, a middle, and another repeated part.
struct Nest {
    /// What the row shows.
    name: &'static str,
    /// How often `open` stands at the front.
    opens: usize,
    /// The part that is repeated at the front.
    open: &'static str,
    /// What stands in the middle.
    middle: &'static str,
    /// How often `close` stands at the end.
    closes: usize,
    /// The part that is repeated at the end.
    close: &'static str,
    /// The expression that the text spells, or its first fault.
    want: &'static str,
}

/// Expressions of many levels, and long ones.
static NESTS: [Nest; 16] = [
    Nest {
        name: "thirty-two parentheses are read",
        opens: 32,
        open: "(",
        middle: "1",
        closes: 32,
        close: ")",
        want: "1",
    },
    Nest {
        name: "thirty-three are too deep",
        opens: 33,
        open: "(",
        middle: "1",
        closes: 33,
        close: ")",
        want: "TooDeep",
    },
    Nest {
        name: "a parenthesis that is not closed comes before the depth",
        opens: 33,
        open: "(",
        middle: "1",
        closes: 32,
        close: ")",
        want: "Syntax",
    },
    Nest {
        name: "and so does one that closes nothing",
        opens: 33,
        open: "(",
        middle: "1",
        closes: 34,
        close: ")",
        want: "Syntax",
    },
    Nest {
        name: "thirty-two parentheses around a call",
        opens: 32,
        open: "(",
        middle: "lib(A)",
        closes: 32,
        close: ")",
        want: "Lib.65",
    },
    Nest {
        name: "thirty-three around a call are too deep",
        opens: 33,
        open: "(",
        middle: "lib(A)",
        closes: 33,
        close: ")",
        want: "TooDeep",
    },
    Nest {
        name: "the depth comes before an unknown function",
        opens: 33,
        open: "(",
        middle: "foo()",
        closes: 33,
        close: ")",
        want: "TooDeep",
    },
    Nest {
        name: "signs and parentheses together are thirty-two levels",
        opens: 16,
        open: "-(",
        middle: "1",
        closes: 16,
        close: ")",
        want: "----------------1",
    },
    Nest {
        name: "and one sign more is too deep",
        opens: 16,
        open: "-(",
        middle: "!1",
        closes: 16,
        close: ")",
        want: "TooDeep",
    },
    Nest {
        name: "4,096 bytes are read, and are too deep",
        opens: 4095,
        open: "!",
        middle: "1",
        closes: 0,
        close: "",
        want: "TooDeep",
    },
    Nest {
        name: "4,097 bytes are no expression",
        opens: 4096,
        open: "!",
        middle: "1",
        closes: 0,
        close: "",
        want: "Syntax",
    },
    Nest {
        name: "4,095 bytes of parentheses are too deep",
        opens: 2047,
        open: "(",
        middle: "1",
        closes: 2047,
        close: ")",
        want: "TooDeep",
    },
    Nest {
        name: "one that is not closed, in 4,094 bytes",
        opens: 2047,
        open: "(",
        middle: "1",
        closes: 2046,
        close: ")",
        want: "Syntax",
    },
    Nest {
        name: "one that closes nothing, in 4,096 bytes",
        opens: 2047,
        open: "(",
        middle: "1",
        closes: 2048,
        close: ")",
        want: "Syntax",
    },
    Nest {
        name: "a text of 4,097 bytes, blanks among them, is no expression",
        opens: 4096,
        open: " ",
        middle: "1",
        closes: 0,
        close: "",
        want: "Syntax",
    },
    Nest {
        name: "one of 4,096 bytes is",
        opens: 4095,
        open: " ",
        middle: "1",
        closes: 0,
        close: "",
        want: "1",
    },
];

/// Expressions without a fault that are too long to be printed: a part, how often it is repeated, and the last part.
static LONG: [(&str, (usize, &str), &str); 2] = [
    ("levels end with their operand", (100, "(1)+"), "!!1"),
    ("a row of operators is no nesting", (2000, "1+"), "1"),
];

/// Whether the text of the row spells its expression, or has its first fault.
fn is_nested(alloc: Global, nest: &Nest) -> Result<bool, AllocError> {
    let mut text = repeated(alloc, nest.opens, nest.open.as_bytes())?;
    text.extend_from_slice(nest.middle.as_bytes())?;
    text.extend_from_slice(&repeated(alloc, nest.closes, nest.close.as_bytes())?)?;
    Ok(is_told(alloc, &text, nest.want))
}

#[test]
fn nesting_limit_of_expressions(rt: HostRuntime) {
    for nest in &NESTS {
        let name = nest.name;
        assert!(rt; is_nested(rt.alloc(), nest) == Ok(true), "{name}");
    }
}

/// Whether a part that is repeated `count` times, and then `last`, are an expression without a fault.
fn is_faultless(
    alloc: Global,
    (count, part): (usize, &str),
    last: &str,
) -> Result<bool, AllocError> {
    let mut text = repeated(alloc, count, part.as_bytes())?;
    text.extend_from_slice(last.as_bytes())?;
    Ok(parse(alloc, &text, &LABELS).is_ok())
}

#[test]
fn long_expressions_have_no_fault(rt: HostRuntime) {
    for &(name, parts, last) in &LONG {
        assert!(rt; is_faultless(rt.alloc(), parts, last) == Ok(true), "{name}");
    }
}
