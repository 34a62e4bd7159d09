//! The notes on GNU Go's own features, for authors who port entries from GNU Go.

use pattern_report::{Fault, NoMemory, Part, Report, port_notes, port_of, report_on};
use std::alloc::{AllocError, Global};

/// Writes the note on GNU Go for a fault, if there is one.
fn write_port(lines: &mut String, fault: &Fault<'_>) -> Result<(), AllocError> {
    match port_of(fault) {
        Some(port) => write!(lines, "{}: {port}\n", fault.line),
        None => Ok(()),
    }
}

/// Writes the notes on GNU Go for an entry that is taken, one place a line.
fn write_notes(alloc: Global, lines: &mut String, part: Part<'_>) -> Result<(), NoMemory> {
    for note in &port_notes(alloc, part)? {
        let place = note.place;
        write!(lines, "{}:{}: {}\n", place.line, place.column, note.port)?;
    }
    Ok(())
}

/// The notes on GNU Go for a text, one a line: for each fault, and for each place in the entries that are taken.
fn ported(alloc: Global, text: &[u8]) -> Result<String, NoMemory> {
    let report: Report = report_on(alloc, text, &[])?;
    let mut lines = String::new(alloc);
    for fault in report.first.iter().chain(report.others.iter()) {
        write_port(&mut lines, fault)?;
    }
    for part in &report.entries {
        write_notes(alloc, &mut lines, *part)?;
    }
    Ok(lines)
}

/// Whether `want` has exactly the notes on GNU Go for a text.
fn is_ported(alloc: Global, text: &[u8], want: &str) -> bool {
    match ported(alloc, text) {
        Ok(lines) => lines.as_str() == want,
        Err(NoMemory) => false,
    }
}

/// Texts with the notes on GNU Go that they get.
static TEXTS: [(&str, &[u8], &str); 17] = [
    (
        "a letter of another diagram of GNU Go's",
        b"Pattern A\nOY*\n:8,s\n",
        "2: GNU Go has the letter 'Y' in diagrams; gopat has not\n",
    ),
    (
        "a label's letter in a diagram",
        b"Pattern A\n.*\n.a\n:8,s\n",
        "3: GNU Go has the letter 'a' in diagrams; gopat has not\n",
    ),
    (
        "a letter of eye shapes",
        b"Pattern 1\n.$*\n:0112\n",
        "2: GNU Go has the letter '$' in eye shapes; gopat has no eye shapes\n",
    ),
    (
        "a vital point of eye shapes",
        b"Pattern 1\n...\n :0112\n",
        "3: in GNU Go's eye shapes '*' is a vital point, of which there may be none or several; gopat has no \
         eye shapes\n",
    ),
    (
        "the letter of a point without a move, and a diagram without one",
        b"Pattern A\n.Q\n:8,s\nPattern B\n...\n:8,t\n",
        "2: GNU Go has the letter 'Q' in diagrams; gopat has not\n\
         6: GNU Go has patterns without a move, as those of connections and of influence; gopat has not\n",
    ),
    (
        "two stars are nothing of GNU Go's own",
        b"Pattern 1\n**.\n:8,s\n",
        "",
    ),
    (
        "a label that stands twice",
        b"Pattern A\nOO*\n:8,s\nAA*\n",
        "4: in GNU Go the first 'A' counts where several stand; here a label stands once\n",
    ),
    (
        "the eyes of an eye shape",
        b"Pattern 1\n.*.\n:0112\n",
        "3: GNU Go has the eyes of an eye shape, as 0112, in place of a mark; gopat has no eye shapes\n",
    ),
    (
        "a weight of its playouts",
        b"Pattern 1\nO*O\n:40,x\n",
        "3: GNU Go has a weight of its playouts, as 40, in place of a mark; gopat has no weights\n",
    ),
    (
        "no mark at all is nothing of GNU Go's own",
        b"Pattern 1\nO*O\n:,s\n",
        "",
    ),
    (
        "a function that gopat lacks",
        b"Pattern A\nO*\n:8,s\nA*\n;dead(A)\n",
        "5: GNU Go has the function dead; gopat has not\n",
    ),
    (
        "an unknown function is nothing of GNU Go's own",
        b"Pattern A\nO*\n:8,s\nA*\n;libs(A)\n",
        "",
    ),
    (
        "a word in place of a number",
        b"Pattern A\nO*\n:8,s\nA*\n;lib(A)==DEAD\n",
        "5: GNU Go compares with words such as DEAD; gopat has numbers alone\n",
    ),
    (
        "a helper of GNU Go's",
        b"Pattern A\nO*\n:8,s,jump_out_helper\n",
        "3: GNU Go calls its function jump_out_helper here; a helper of this name can be handed to gopat's \
         library\n",
    ),
    (
        "a play behind whose moves the last argument is taken",
        b"Pattern A\nO*\n:8,s\nA*\n;xplay_attack(*,A)\n",
        "5:2: where the moves take the last argument, xplay_attack is 3 in GNU Go and 0 here\n",
    ),
    (
        "does_attack of a lost target",
        b"Pattern A\nO*\n:8,s\nA*\n;does_attack(*,A)\n",
        "5:2: does_attack is 0 in GNU Go where the target is lost anyway, and looks at its best defence too; \
         here it is 3 less the defend code behind the play\n",
    ),
    (
        "ko of a stone",
        b"Pattern A\nO*\n:8,s\nA*\n;1 + ko(A)\n",
        "5:6: ko of a stone is 1 in GNU Go where the stone can be retaken; here it is 0\n",
    ),
];

#[test]
fn what_is_gnu_gos_own_has_its_words(rt: HostRuntime) {
    for &(what, text, want) in &TEXTS {
        assert!(rt; is_ported(rt.alloc(), text, want), "{what}");
    }
}
