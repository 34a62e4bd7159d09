//! The faults of texts, one row for each cause.

use go_base::{Bytes, NoMemory};
use pattern_report::{Fault, Report, report_on};
use std::alloc::{AllocError, Global};
use std::process::Abort;

/// Lines at places where they may not stand, and Pattern lines.
static LINES: [(&[u8], &str); 12] = [
    // After a fault, parsing continues at the next Pattern line.
    (
        b"Pattern A\nO0*\n:8,s\nPattern B\nO*\n:8,s\n Pattern C\nO*\nPattern D\nO*\n:7,s\n",
        "2 2:2 kind 6: '0' is no letter of a diagram (O X o x . ? *)\n\
         9 8:1 kind 10: no colon line, as ':8,s', stands below the diagram\n\
         11 11:2 kind 11: '7' is no mark (8 | - / \\ + X O)\n",
    ),
    // An entry that ends too early is reported at the next entry's Pattern line, and the next entry's own fault too.
    (
        b"Pattern A\nO*\nPattern B\nO*\n:7,s\n",
        "3 2:1 kind 10: no colon line, as ':8,s', stands below the diagram\n\
         5 5:2 kind 11: '7' is no mark (8 | - / \\ + X O)\n",
    ),
    (
        b"Pattern A\nO*\nOX\n:8,s\nA*\nPattern B\nO*\n:7,s\n",
        "6 5:1 kind 14: the constraint diagram stops after 1 of 2 lines\n\
         8 8:2 kind 11: '7' is no mark (8 | - / \\ + X O)\n",
    ),
    (b"# \x07", "1 1:3 kind 1: byte 7 may stand in no line\n"),
    (
        b"\xef\xbb\xbfPattern A\nO*\n:8,s\n",
        "1 1:1 kind 2: the text begins with a byte order mark, which no editor shows; save it as UTF-8 \
         without one\n",
    ),
    (
        b"?O*\n",
        "1 1:1 kind 2: before the first entry only lines that begin with a letter may stand; an entry \
         begins with a Pattern line\n",
    ),
    (
        b"Pattern A\nO*\n:8,s\n:8,s\n",
        "4 4:1 kind 2: the entry has a colon line already\n",
    ),
    (
        b"Pattern A\nO*\n:8,s\n> x\n;1\n",
        "5 5:1 kind 2: an expression stands before the action lines\n",
    ),
    (
        b"Pattern A\nO*\n:8,s\n;1\nO*\n",
        "5 5:1 kind 2: behind an expression or actions only lines with ';' or '>' may stand; an entry \
         begins with a Pattern line\n",
    ),
    (
        b"Pattern A\nO*\n:8,s\n;\n:8,s\n;1\n",
        "4 4:1 kind 15: the expression ends where a number, a call or a parenthesis is wanted\n",
    ),
    (
        b"Pattern",
        "1 1:8 kind 3: a name is missing behind Pattern\n",
    ),
    (
        b"Pattern  a\xe9\n",
        "1 1:11 kind 3: '\\xe9' may not stand in a name\n",
    ),
];

/// Faults of diagrams.
static DIAGRAMS: [(&[u8], &str); 12] = [
    (
        b"Pattern A\n:8,s\n",
        "2 2:1 kind 4: no row of letters stands above the colon line\n",
    ),
    (
        b"Pattern A\n|O*\n|O\n:8,s\n",
        "3 3:1 kind 5: the line is 1 wide, and the first 2\n",
    ),
    (
        b"Pattern A\n  O!*\n:8,s\n",
        "2 2:4 kind 6: '!' is no letter of a diagram (O X o x . ? *)\n",
    ),
    (
        b"Pattern A\nO*\nOA\n:8,s\n",
        "3 3:2 kind 6: 'A' is no letter of a diagram (O X o x . ? *); is the colon line above a constraint \
         diagram missing?\n",
    ),
    (
        b"Pattern A\nO|*\n:8,s\n",
        "2 2:2 kind 6: '|' is part of an edge, and may not stand within a row\n",
    ),
    (
        b"Pattern A\n-O\n:8,s\n",
        "2 2:1 kind 6: the line is neither a row of letters (O X o x . ? *), with or without '|' at its \
         ends, nor an edge line of '-'\n",
    ),
    (
        b"Pattern A\n**\n:8,s\n",
        "3 3:1 kind 7: the diagram has 2 '*', and needs one\n",
    ),
    (
        b"Pattern A\nO*\n--\nO*\n:8,s\n",
        "4 4:1 kind 8: the edge line above ends the diagram; one stands above all rows or below all of them\n",
    ),
    (
        b"Pattern A\n--\n--\nO*\n:8,s\n",
        "3 3:1 kind 8: an edge line stands above all rows or below all of them\n",
    ),
    (
        b"Pattern A\n|O*\nO*\n:8,s\n",
        "3 3:1 kind 8: an edge at a side is drawn beside every row, with '+' where it meets another; the \
         first line has it otherwise\n",
    ),
    (
        b"Pattern A\n*.........................\n:8,s\n",
        "2 2:26 kind 9: the line has 26 bytes, and may have 25\n",
    ),
    (
        b"Pattern A\nO*",
        "3 2:1 kind 10: no colon line, as ':8,s', stands below the diagram\n",
    ),
];

/// Faults of colon lines.
static COLON_LINES: [(&[u8], &str); 9] = [
    (
        b"Pattern A\nO*\n: 7,s\n",
        "3 3:3 kind 11: '7' is no mark (8 | - / \\ + X O)\n",
    ),
    (
        b"Pattern A\nO*\n:8, s1\n",
        "3 3:6 kind 12: '1' is no class letter\n",
    ),
    (
        b"Pattern A\nO*\n:|, value(20),s\n",
        "3 3:5 kind 12: 'value(20)' stands in place of the class letters; '-' stands for none, as in \
         ':|,-,value(20)'\n",
    ),
    (
        b"Pattern A\nO*\n:8,near_edge\n",
        "3 3:4 kind 12: 'near_edge' stands in place of the class letters; '-' stands for none, as in \
         ':8,-,near_edge'\n",
    ),
    (
        b"Pattern A\nO*\n:8,value(20\n",
        "3 3:9 kind 12: '(' is no class letter\n",
    ),
    (
        b"Pattern A\nO*\n:8,sssssssssssssssssssssssssssssssss\n",
        "3 3:4 kind 12: 33 class letters, and at most 32 may stand here\n",
    ),
    (
        b"Pattern A\nO*\n:8,s,near_edge,value(5\n",
        "3 3:16 kind 13: 'value(5' is no item: a name, or a name and a text in one pair of parentheses\n",
    ),
    (
        b"Pattern A\nO*\n:8,s,a(),a(),a(),a(),a(),a(),a(),a(),a(),a(),a(),a(),a(),a(),a(),a(),b()\n",
        "3 3:70 kind 13: 17 items, and at most 16 may stand here\n",
    ),
    (
        b"Pattern A\nO*\n:8,s,far_away\n",
        "3 3:6 kind 17: no helper has the name 'far_away'; with a text, as in far_away(), it tests nothing\n",
    ),
];

/// Faults of constraint diagrams.
static CONSTRAINTS: [(&[u8], &str); 8] = [
    (
        b"Pattern A\nO*\n:8,s\nA*\nB*\n",
        "5 5:1 kind 14: a constraint diagram has as many lines as its diagram, here 1\n",
    ),
    (
        b"Pattern A\nO*\n:8,s\nA*\nlib(A)>1\n",
        "5 5:1 kind 14: no line of a constraint diagram; is it an expression without its ';'?\n",
    ),
    (
        b"Pattern A\nO*\n:8,s\nA*?\n",
        "4 4:1 kind 14: the line is 3 wide, and its line of the diagram 2\n",
    ),
    (
        b"Pattern A\nO*\n:8,s\nX*\n",
        "4 4:1 kind 14: 'X' is neither the diagram's 'O' nor a label, a letter other than O X o x\n",
    ),
    (
        b"Pattern A\n|O*\n:8,s\nAO*\n",
        "4 4:1 kind 14: the label 'A' stands on an edge\n",
    ),
    (
        b"Pattern A\nO*\nOX\n:8,s\nA*\nOA\n",
        "6 6:2 kind 14: the label 'A' stands in the diagram already\n",
    ),
    (
        b"Pattern A\nOO*\n:8,s\nAA*\n",
        "4 4:2 kind 14: the label 'A' stands in the diagram already\n",
    ),
    (
        b"Pattern A\nO*\nOX\n:8,s\nA*\n;1\n",
        "6 5:1 kind 14: the constraint diagram stops after 1 of 2 lines\n",
    ),
];

/// Faults of expressions, in an entry with the label A whose expression is its fifth line.
static EXPRESSIONS: [(&[u8], &str); 27] = [
    (
        b"Pattern P\nO*\n:8,s\nA*\n;lib(B)>1\n",
        "5 5:6 kind 16: the label 'B' does not stand in the constraint diagram\n",
    ),
    (
        b"Pattern P\nOX*\n:8,s\nAX*\n;lib(A)>lib(X)\n",
        "5 5:13 kind 16: 'X' is the letter of a stone and no label; in the constraint diagram a label, as A, \
         replaces it\n",
    ),
    (
        b"Pattern P\nO*\n:8,s\nA*\n;lib(A)=2\n",
        "5 5:8 kind 15: '=' is no operator; is '==' meant?\n",
    ),
    (
        b"Pattern P\nO*\n:8,s\nA*\n;lib(A)=>2\n",
        "5 5:8 kind 15: '=>' is no operator; is '>=' meant?\n",
    ),
    (
        b"Pattern P\nO*\n:8,s\nA*\n;lib(A) =< 2\n",
        "5 5:9 kind 15: '=<' is no operator; is '<=' meant?\n",
    ),
    (
        b"Pattern P\nO*\n:8,s\nA*\n;lib(A)&1\n",
        "5 5:8 kind 15: '&' is no operator; is '&&' meant?\n",
    ),
    (
        b"Pattern P\nO*\n:8,s\nA*\n;lib(A)|1\n",
        "5 5:8 kind 15: '|' is no operator; is '||' meant?\n",
    ),
    (
        b"Pattern P\nO*\n:8,s\nA*\n;lib[A]\n",
        "5 5:5 kind 15: '[' may not stand in an expression\n",
    ),
    (
        b"Pattern P\nO*\n:8,s\nA*\n;1000000\n",
        "5 5:2 kind 15: a number has at most six digits\n",
    ),
    (
        b"Pattern P\nO*\n:8,s\nA*\n;1 + * 2\n",
        "5 5:6 kind 15: a number, a call, '!', '-' or '(' is wanted here, and '*' stands here\n",
    ),
    (
        b"Pattern P\nO*\n:8,s\nA*\n;1 2\n",
        "5 5:4 kind 15: the expression may end here or go on with an operator, and '2' stands here\n",
    ),
    (
        b"Pattern P\nO*\n:8,s\nA*\n;A == 1\n",
        "5 5:2 kind 15: 'A' is the name of no number; a function has its arguments in parentheses behind its name\n",
    ),
    (
        b"Pattern P\nO*\n:8,s\nA*\n;1 + A\n",
        "5 5:6 kind 15: 'A' is the name of no number; a function has its arguments in parentheses behind its name\n",
    ),
    (
        b"Pattern P\nO*\n:8,s\nA*\n;lib(1)\n",
        "5 5:6 kind 15: an argument is one letter, '*' or '?', and '1' stands here\n",
    ),
    (
        b"Pattern P\nO*\n:8,s\nA*\n;lib(AB)\n",
        "5 5:6 kind 15: an argument is one letter, '*' or '?', and 'AB' stands here\n",
    ),
    (
        b"Pattern P\nO*\n:8,s\nA*\n;lib(A;)\n",
        "5 5:7 kind 15: ';' may not stand in an expression\n",
    ),
    (
        b"Pattern P\nO*\n:8,s\nA*\n;lib(A A)\n",
        "5 5:8 kind 15: ',' or ')' is wanted behind an argument, and 'A' stands here\n",
    ),
    (
        b"Pattern P\nO*\n:8,s\nA*\n;1)\n",
        "5 5:3 kind 15: no '(' belongs to this ')'\n",
    ),
    (
        b"Pattern P\nO*\n:8,s\nA*\n;1 &&\n",
        "5 5:4 kind 15: the expression ends where a number, a call or a parenthesis is wanted\n",
    ),
    (
        b"Pattern P\nO*\n:8,s\nA*\n;\n",
        "5 5:1 kind 15: the expression ends where a number, a call or a parenthesis is wanted\n",
    ),
    (
        b"Pattern P\nO*\n:8,s\nA*\n;(1 + 2\n",
        "5 5:7 kind 15: the expression ends before a ')'\n",
    ),
    (
        b"Pattern P\nO*\n:8,s\nA*\n;---------------------------------1\n",
        "5 5:1 kind 15: parentheses and signs stand more than 32 deep\n",
    ),
    (
        b"Pattern P\nO*\n:8,s\nA*\n;1 + libs(A)\n",
        "5 5:6 kind 15: no function has the name 'libs'\n",
    ),
    (
        b"Pattern P\nO*\n:8,s\nA*\n;lib(A)+lib(A,A)\n",
        "5 5:9 kind 15: the number of arguments of lib is 1, and here 2\n",
    ),
    (
        b"Pattern P\nO*\n:8,s\nA*\n;xplay_attack(A)\n",
        "5 5:2 kind 15: the number of arguments of xplay_attack is 2 to 9, and here 1\n",
    ),
    (
        b"Pattern P\nO*\n:8,s\nA*\n;oplay_attack(?,?)\n",
        "5 5:17 kind 15: '?' is a pass, and oplay_attack takes none here: it may stand for a move of oplay_.. \
         and xplay_.. alone\n",
    ),
    // A fault of a long expression is reported in its own line.
    (
        b"Pattern P\nO*\n:8,s\nA*\n;lib(A) > 1\n;&& libs(A)\n",
        "5 6:5 kind 15: no function has the name 'libs'\n",
    ),
];

/// Writes a fault: the number of its line, its place, its kind and its cause.
fn write_fault(lines: &mut String, fault: &Fault<'_>) -> Result<(), AllocError> {
    let place = fault.place;
    write!(lines, "{} {}:{} ", fault.line, place.line, place.column)?;
    write!(lines, "kind {}: {}\n", fault.kind, fault.cause)
}

/// The faults of a text, one a line.
fn told(alloc: Global, text: &[u8]) -> Result<String, NoMemory> {
    let mut helper = Bytes::new(alloc);
    helper.extend(b"near_edge")?;
    let report = report_on(alloc, text, &[helper])?;
    let mut lines = String::new(alloc);
    for fault in report.first.iter().chain(report.others.iter()) {
        write_fault(&mut lines, fault)?;
    }
    Ok(lines)
}

/// Whether `want` has exactly the faults of a text.
fn is_told(alloc: Global, text: &[u8], want: &str) -> bool {
    match told(alloc, text) {
        Ok(lines) => lines.as_str() == want,
        Err(NoMemory) => false,
    }
}

/// Checks the faults of each text in `rows`.
fn compare(rt: &impl Abort, alloc: Global, rows: &[(&[u8], &str)]) {
    for &(text, want) in rows {
        assert!(rt; is_told(alloc, text, want), "{want}");
    }
}

#[test]
fn each_fault_has_its_cause(rt: HostRuntime) {
    compare(&rt, rt.alloc(), &LINES);
    compare(&rt, rt.alloc(), &DIAGRAMS);
    compare(&rt, rt.alloc(), &COLON_LINES);
    compare(&rt, rt.alloc(), &CONSTRAINTS);
    compare(&rt, rt.alloc(), &EXPRESSIONS);
}

/// A text that begins with `first` and then has `count` entries.
fn entries(alloc: Global, first: &[u8], count: usize) -> Result<Vec<u8>, AllocError> {
    let mut text = Vec::new(alloc);
    text.extend_from_slice(first)?;
    for _ in 0..count {
        text.extend_from_slice(b"Pattern A\nO*\n:8,s\n")?;
    }
    Ok(text)
}

/// How many entries of a text are taken, if there is memory.
fn taken(alloc: Global, text: &[u8]) -> Option<usize> {
    let report: Report = report_on(alloc, text, &[]).ok()?;
    Some(report.entries.len())
}

#[test]
fn an_entry_too_many_is_told_at_its_line_and_not_taken(rt: HostRuntime) {
    let too_many = "12289 12289:1 kind 18: a text has at most 4096 entries\n";
    let text = entries(rt.alloc(), &[], 4098).expect(&rt, "there is memory");
    assert!(rt; is_told(rt.alloc(), &text, too_many));
    assert!(rt; taken(rt.alloc(), &text) == Some(4096));
    let text = entries(rt.alloc(), b"Pattern B\nO0\n:8,s\n", 4096).expect(&rt, "there is memory");
    let want = "2 2:2 kind 6: '0' is no letter of a diagram (O X o x . ? *)\n\
                12289 12289:1 kind 18: a text has at most 4096 entries\n";
    assert!(rt; is_told(rt.alloc(), &text, want));
    assert!(rt; taken(rt.alloc(), &text) == Some(4095));
}

/// An entry whose expression is `front`, then `blanks` blanks and a 1.
fn long_expression(alloc: Global, front: &[u8], blanks: usize) -> Result<Vec<u8>, AllocError> {
    let mut text = Vec::new(alloc);
    text.extend_from_slice(b"Pattern A\nO*\n:8,s\n")?;
    text.extend_from_slice(front)?;
    for _ in 0..blanks {
        text.extend_from_slice(b" ")?;
    }
    text.extend_from_slice(b"1\n")?;
    Ok(text)
}

#[test]
fn an_empty_expression_line_counts_its_blank(rt: HostRuntime) {
    let longest = long_expression(rt.alloc(), b";\n;1+", 4092).expect(&rt, "there is memory");
    assert!(rt; is_told(rt.alloc(), &longest, ""));
    let longer = long_expression(rt.alloc(), b";\n;1+", 4093).expect(&rt, "there is memory");
    let want = "4 4:1 kind 15: an expression has at most 4096 bytes\n";
    assert!(rt; is_told(rt.alloc(), &longer, want));
}
