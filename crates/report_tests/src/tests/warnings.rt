//! The warnings of texts, one row for each warning.

use go_base::Bytes;
use pattern_report::{NoMemory, Report, Warning, parts, report_on, warnings};
use std::alloc::{AllocError, Global};
use std::process::Abort;

/// Writes a warning: its place and its words.
fn write_warning(lines: &mut String, warning: &Warning<'_>) -> Result<(), AllocError> {
    let place = warning.place;
    write!(
        lines,
        "{}:{}: {}\n",
        place.line, place.column, warning.caution
    )
}

/// The warnings of a text, one a line.
fn warned(alloc: Global, text: &[u8]) -> Result<String, NoMemory> {
    let mut helper = Bytes::new(alloc);
    helper.extend(b"near_edge")?;
    let parts = parts(alloc, text)?;
    let report: Report = report_on(alloc, text, &[helper])?;
    let mut lines = String::new(alloc);
    for warning in &warnings(alloc, text, parts.as_slice(), &report)? {
        write_warning(&mut lines, warning)?;
    }
    Ok(lines)
}

/// Whether `want` has exactly the warnings of a text.
fn is_warned(alloc: Global, text: &[u8], want: &str) -> bool {
    match warned(alloc, text) {
        Ok(lines) => lines.as_str() == want,
        Err(NoMemory) => false,
    }
}

/// Warnings about lines, labels and class letters.
static LINES: [(&str, &[u8], &str); 14] = [
    (
        "letters behind the first blank of a row",
        b"Pattern A\n* X O\n:O,s\n",
        "2:3: a row ends at its first blank; 'X O' is passed over\n",
    ),
    (
        "a comment behind a row has no warning",
        b"Pattern A\nOX*   a hane\n:-,s\n",
        "",
    ),
    (
        "a word behind a name",
        b"Pattern Big Hane\nOX*\n:-,s\n",
        "1:13: a name ends at its first blank; 'Hane' is passed over\n",
    ),
    (
        "a remark behind a name has no warning",
        b"Pattern Hane  # a big one\nOX*\n:-,s\n",
        "",
    ),
    (
        "a word near Pattern before the first entry",
        b"pattern Lost\nPattern A\nOX*\n:-,s\n",
        "1:1: a line before the first entry is passed over; is Pattern meant by 'pattern'?\n",
    ),
    (
        "no entry, and a word near Pattern",
        b"Patern Hane\nattribute_map general\n",
        "1:1: a line before the first entry is passed over; is Pattern meant by 'Patern'?\n1:1: the text \
         has no entry\n",
    ),
    ("no text has no entry", b"", "1:1: the text has no entry\n"),
    (
        "one label that no expression uses",
        b"Pattern A\nOX*\n:-,s\nABC\n;lib(A)==lib(B)+2\n",
        "4:3: no expression uses the label 'C'\n",
    ),
    (
        "a label without an expression",
        b"Pattern A\nOX*\n:-,s\nAX*\n",
        "4:1: no expression uses the label 'A'\n",
    ),
    (
        "a class letter that is a capital",
        b"Pattern A\nOX*\n:-,SO\n",
        "3:4: the class letter 'S' tests nothing; is 's' meant?\n",
    ),
    (
        "a class letter in place, and a capital in an item's text",
        b"Pattern A\nOX*\n:-,O,shape(S)\n",
        "",
    ),
    (
        "letters of a class field that is at fault",
        b"Pattern A\nOX*\n:-,value(20),s\n",
        "",
    ),
    (
        "two entries of one name",
        b"Pattern A\nOX*\n:-,s\nPattern B\nO*\n:-,s\nPattern A\n.*\n:-,s\n",
        "7:1: the entry of line 1 has the same name\n",
    ),
    (
        "line ends of two kinds",
        b"Pattern A\r\nOX*\r\n:-,s\n",
        "3:1: some lines end with a carriage return before the line feed, and others do not\n",
    ),
];

/// Entries that match only where other entries do, and entries that do not.
static PAIRS: [(&str, &[u8], &str); 11] = [
    (
        "where a turned entry matches the first one need not",
        b"Pattern A\nOX*\nO??\n:8,s\nPattern B\n?X\n.*\nOO\n:8,s\n",
        "",
    ),
    (
        "a turned entry matches only where the first one does",
        b"Pattern A\nOX*\nO??\n:8,s\nPattern B\nOO\n.X\n?*\n:8,s\n",
        "5:1: wherever this entry matches, that of line 1 matches at the same point\n",
    ),
    (
        "a mark of fewer transformations turns less",
        b"Pattern A\nOX*\n:-,s\nPattern B\n?O\n.X\n?*\n:8,s\n",
        "",
    ),
    (
        "an entry without class s asks for more",
        b"Pattern A\nOX*\nO??\n:8\nPattern B\nOO\n.X\n?*\n:8,s\n",
        "",
    ),
    (
        "two entries without class s",
        b"Pattern A\nOX*\nO??\n:8\nPattern B\nOO\n.X\n?*\n:8\n",
        "5:1: wherever this entry matches, that of line 1 matches at the same point\n",
    ),
    (
        "an entry of class n asks for more",
        b"Pattern A\nOX*\nO??\n:8,sn\nPattern B\nOO\n.X\n?*\n:8,s\n",
        "",
    ),
    (
        "two entries of class n",
        b"Pattern A\nOX*\nO??\n:8,sn\nPattern B\nOO\n.X\n?*\n:8,sn\n",
        "5:1: wherever this entry matches, that of line 1 matches at the same point\n",
    ),
    (
        "an entry with a helper asks for more",
        b"Pattern A\nOX*\nO??\n:8,s,near_edge\nPattern B\nOO\n.X\n?*\n:8,s,near_edge\n",
        "",
    ),
    (
        "an item with a text and NULL ask for nothing",
        b"Pattern A\nOX*\nO??\n:8,s,near_edge(1),NULL\nPattern B\nOO\n.X\n?*\n:8,s\n",
        "5:1: wherever this entry matches, that of line 1 matches at the same point\n",
    ),
    (
        "an entry with a constraint asks for more",
        b"Pattern A\nOX*\nO??\n:8,s\nABC\nO??\n;lib(A)>lib(B)+olib(C)\nPattern B\nOO\n.X\n?*\n:8,s\n",
        "",
    ),
    (
        "the same entry twice with a mark of four",
        b"Pattern A\nOX*\n:-,s\nPattern B\nOX*\n:-,s\n",
        "4:1: wherever this entry matches, that of line 1 matches at the same point\n",
    ),
];

/// Items that say a value, or seem to.
static VALUES: [(&str, &[u8], &str); 9] = [
    ("a value", b"Pattern A\nOX*\n:-,s,value(999999)\n", ""),
    (
        "a value in capitals",
        b"Pattern A\nOX*\n:-,s,Value(20)\n",
        "3:6: 'Value(20)' says no value; is value(..) meant?\n",
    ),
    (
        "a value cut short",
        b"Pattern A\nOX*\n:-,s,val(20)\n",
        "3:6: 'val(20)' says no value; is value(..) meant?\n",
    ),
    (
        "an item of another name",
        b"Pattern A\nOX*\n:-,s,terri(20)\n",
        "",
    ),
    (
        "a value that is no whole number",
        b"Pattern A\nOX*\n:-,s,value(20.5)\n",
        "3:6: 'value(20.5)' says no value; a value has one to six digits\n",
    ),
    (
        "a value of seven digits",
        b"Pattern A\nOX*\n:-,s,value(1000000)\n",
        "3:6: 'value(1000000)' says no value; a value has one to six digits\n",
    ),
    (
        "a value without digits",
        b"Pattern A\nOX*\n:-,s,value()\n",
        "3:6: 'value()' says no value; a value has one to six digits\n",
    ),
    (
        "a second value",
        b"Pattern A\nOX*\n:-,s,value(8),a(), value(20)\n",
        "3:20: the entry has a value already; 'value(20)' is passed over\n",
    ),
    (
        "a value behind an item that says none",
        b"Pattern A\nOX*\n:-,s,value(x),value(8)\n",
        "3:6: 'value(x)' says no value; a value has one to six digits\n",
    ),
];

/// Diagrams whose marks try each of their images once, and diagrams whose marks do not.
static MARKS: [(&str, &[u8], &str); 18] = [
    (
        "a star alone",
        b"Pattern A\n*\n:8,s\n",
        "3:2: the diagram is its own image, and each match comes 8 times; ':O' tells each once\n",
    ),
    (
        "a row with the star in the middle",
        b"Pattern A\nO*O\n:8,s\n",
        "3:2: the diagram is its own image, and each match comes 4 times; ':+' tells each once\n",
    ),
    (
        "the same turned by four",
        b"Pattern A\nO*O\n:|,s\n",
        "3:2: the diagram is its own image, and each match comes 2 times; ':+' tells each once\n",
    ),
    ("the same turned twice", b"Pattern A\nO*O\n:+,s\n", ""),
    (
        "stones at both ends of a falling line",
        b"Pattern A\nO??\n?*?\n??O\n:8,s\n",
        "5:2: the diagram is its own image, and each match comes 4 times; ':X' tells each once\n",
    ),
    (
        "a column",
        b"Pattern A\nO\nX\n*\n:8,s\n",
        "5:2: the diagram is its own image, and each match comes 2 times; ':|' tells each once\n",
    ),
    (
        "a row",
        b"Pattern A\nOX*\n:8,s\n",
        "3:2: the diagram is its own image, and each match comes 2 times; ':-' tells each once\n",
    ),
    ("a row below an edge", b"Pattern A\n---\nOX*\n:8,s\n", ""),
    (
        "a stone on the falling line",
        b"Pattern A\nO?\n?*\n:8,s\n",
        "4:2: the diagram is its own image, and each match comes 2 times; ':\\' tells each once\n",
    ),
    (
        "a stone on the rising line",
        b"Pattern A\n?O\n*?\n:8,s\n",
        "4:2: the diagram is its own image, and each match comes 2 times; ':/' tells each once\n",
    ),
    ("a knight's move", b"Pattern A\nO??\n??*\n:8,s\n", ""),
    (
        "turned by half it is its own image, and mirrored it is not",
        b"Pattern A\nO????\n??*??\n????O\n:8,s\n",
        "",
    ),
    (
        "a label on the axis",
        b"Pattern A\nO*O\n:8,s\nA*O\n;lib(A)>1\n",
        "3:2: the diagram is its own image, and each match comes 2 times; ':-' tells each once\n",
    ),
    (
        "a label beside the axis",
        b"Pattern A\nO?O\n?*?\n:8,s\nA?O\n?*?\n;lib(A)>1\n",
        "",
    ),
    (
        "a star alone with a mark of one",
        b"Pattern A\n*\n:O,s\n",
        "",
    ),
    (
        "a row as drawn alone",
        b"Pattern A\nOX*\n:O,s\n",
        "3:2: ':O' does not try all images of the diagram, as ':-' does\n",
    ),
    ("a row turned by four", b"Pattern A\nOX*\n:|,s\n", ""),
    (
        "a knight's move turned by four",
        b"Pattern A\nO??\n??*\n:|,s\n",
        "4:2: ':|' does not try all images of the diagram, as ':8' does\n",
    ),
];

/// Checks the warnings of each text in `rows`.
fn compare(rt: &impl Abort, alloc: Global, rows: &[(&str, &[u8], &str)]) {
    for &(what, text, want) in rows {
        assert!(rt; is_warned(alloc, text, want), "{what}");
    }
}

#[test]
fn each_warning_has_its_words(rt: HostRuntime) {
    compare(&rt, rt.alloc(), &LINES);
    compare(&rt, rt.alloc(), &PAIRS);
    compare(&rt, rt.alloc(), &VALUES);
    compare(&rt, rt.alloc(), &MARKS);
}
