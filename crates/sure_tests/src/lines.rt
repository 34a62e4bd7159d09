//! Sessions of `gopat_sure` over a source, a sink and files in memory.

use gtp_io::{Feed, Page, Shelf};
use std::alloc::Global;
use sure_lines::{Depths, End, SureMachine, serve};

/// How many bytes the source gives at once, at most.
const PIECE: usize = 7;

/// How many bytes the sink takes at most, in all and at once.
const ROOM: usize = 1000;

/// A file that can be loaded.
struct File {
    /// Its name.
    name: &'static str,
    /// Its bytes.
    bytes: &'static [u8],
}

/// All files that can be loaded: the record of a stone in the corner, black A1 and white B2, and texts. The texts of
/// `line` and `many lines` are a proof that A1 is captured in three plies; the other texts are none.
static FILES: [File; 6] = [
    File {
        name: "corner.sgf",
        bytes: b"(;SZ[5]AB[ae]AW[bd])",
    },
    File {
        name: "line",
        bytes: b"A2 * B1 . B1 C1 . C1 B1 . ;",
    },
    File {
        name: "many lines",
        bytes: b"A2 *\nB1 .\r\n\tB1 C1 .\n\nC1\nB1 .\n;\n",
    },
    File {
        name: "joined",
        bytes: b"A2*\nB1 . B1 C1 . C1 B1 . ;\n",
    },
    File {
        name: "changed",
        bytes: b"A2 * B1 . B1 C1 . C1 C1 . ;\n",
    },
    File {
        name: "empty",
        bytes: b"",
    },
];

/// A session: its lines, the calls of source and sink that fail, the bytes that are written, and how the session ends.
struct Row {
    /// What the session shows.
    name: &'static str,
    /// The bytes of the lines.
    lines: &'static [u8],
    /// The numbers of the calls of the source that fail.
    input_fails: &'static [u64],
    /// The numbers of the calls of the sink that fail.
    output_fails: &'static [u64],
    /// The bytes that are written to the sink.
    put: &'static [u8],
    /// How the session ends.
    end: End,
}

/// Sessions, each named by what it shows.
static ROWS: [Row; 12] = [
    Row {
        name: "a last line without a line feed is answered",
        lines: b"boardsize 5\nplay b A1\nplay w B2\n\n# a comment\ndepths 3 0\n1 attack a1",
        input_fails: &[],
        output_fails: &[],
        put: b"=\n\n=\n\n=\n\n=\n\n=1 3 A2\n\n",
        end: End::Done,
    },
    Row {
        name: "a game record is loaded, and its position is asked about",
        lines: b"2 loadsgf corner.sgf\n3 undo\ndepths 4 0\n4 defend A1\n",
        input_fails: &[],
        output_fails: &[],
        put: b"=2\n\n?3 cannot undo\n\n=\n\n=4 0\n\n",
        end: End::Done,
    },
    Row {
        name: "another record is not there",
        lines: b"loadsgf edge.sgf\nattack A1\n",
        input_fails: &[],
        output_fails: &[],
        put: b"? cannot load file\n\n? vertex must not be empty\n\n",
        end: End::Done,
    },
    Row {
        name: "a command of gopat alone is unknown, whatever its arguments are",
        lines: b"5 genmove b\n6 genmove\n7 findlib A1\n8 known_command genmove\n9 known_command\n10\n",
        input_fails: &[],
        output_fails: &[],
        put: b"?5 unknown command\n\n?6 unknown command\n\n?7 unknown command\n\n=8 false\n\n\
            ?9 syntax error\n\n?10 unknown command\n\n",
        end: End::Done,
    },
    Row {
        name: "depths are kept with the board, and a refused line changes nothing",
        lines: b"loadsgf corner.sgf\ndepths 2 0\nattack A1\ndepths 0 0\ndepths 3 13\nboardsize 26\nattack A1\n",
        input_fails: &[],
        output_fails: &[],
        put: b"=\n\n=\n\n= 0\n\n? syntax error\n\n? syntax error\n\n? unacceptable size\n\n= 0\n\n",
        end: End::Done,
    },
    Row {
        name: "a proof is told of a sure capture alone, and is checked",
        lines: b"loadsgf corner.sgf\ndepths 3 0\nattack_proof A1\ndefend_proof A1\ndepths 2 0\nattack_proof A1\n\
            check_proof attack A1 3 A2 * B1 . ;\nattack_proof E5\n",
        input_fails: &[],
        output_fails: &[],
        put: b"=\n\n=\n\n= 3 A2 * B1 . B1 C1 . C1 B1 . ;\n\n= 3\n\n=\n\n= 0\n\n= false\n\n\
            ? vertex must not be empty\n\n",
        end: End::Done,
    },
    Row {
        name: "a file that is named behind @ holds the words of a proof, on one line or on many",
        lines: b"loadsgf corner.sgf\ndepths 3 0\n1 check_proof attack A1 3 @line\n\
            2 check_proof attack A1 3 \t@many lines # a name with a blank\n3 check_proof attack A1 3 @joined\n\
            4 check_proof attack A1 3 @changed\n5 check_proof attack A1 0 @line\n6 check_proof defend A1 2 @line\n\
            7 check_proof attack A1 3 @empty\ndepths 2 0\n8 check_proof attack A1 3 @line\n",
        input_fails: &[],
        output_fails: &[],
        put: b"=\n\n=\n\n=1 true\n\n=2 true\n\n=3 false\n\n=4 false\n\n=5 false\n\n=6 false\n\n=7 false\n\n\
            =\n\n=8 false\n\n",
        end: End::Done,
    },
    Row {
        name: "the file of a proof that is not there is refused, and a name that is not UTF-8 is none",
        lines: b"loadsgf corner.sgf\ndepths 3 0\n1 check_proof attack A1 3 @lines\n2 check_proof attack A1 3 @\n\
            3 check_proof attack A1 3 @ line\n4 check_proof attack A1 3 @l\xffine\n5 check_proof attack E5 3 @lines\n\
            6 check_proof attack E5 3 @l\xffine\n7 attack_proof A1\n",
        input_fails: &[],
        output_fails: &[],
        put: b"=\n\n=\n\n?1 cannot load file\n\n?2 cannot load file\n\n?3 cannot load file\n\n?4 syntax error\n\n\
            ?5 vertex must not be empty\n\n?6 vertex must not be empty\n\n=7 3 A2 * B1 . B1 C1 . C1 B1 . ;\n\n",
        end: End::Done,
    },
    Row {
        name: "only the first byte of the words names a file",
        lines: b"loadsgf corner.sgf\ndepths 3 0\n1 check_proof attack A1 3 A2 @line\n2 check_proof attack A1 3 line\n\
            3 check_proof attack A1 3\n4 check_proof attack A1 @line\n",
        input_fails: &[],
        output_fails: &[],
        put: b"=\n\n=\n\n=1 false\n\n=2 false\n\n=3 false\n\n?4 syntax error\n\n",
        end: End::Done,
    },
    Row {
        name: "behind quit nothing is answered",
        lines: b"name\nquit\nname\n",
        input_fails: &[],
        output_fails: &[],
        put: b"= gopat_sure\n\n=\n\n",
        end: End::Done,
    },
    Row {
        name: "the source fails",
        lines: b"name\nname\n",
        input_fails: &[2],
        output_fails: &[],
        put: b"= gopat_sure\n\n",
        end: End::InputFault,
    },
    Row {
        name: "the sink fails",
        lines: b"name\nname\n",
        input_fails: &[],
        output_fails: &[2],
        put: b"= gopat_sure\n\n",
        end: End::OutputFault,
    },
];

/// The loader in memory, with all files.
fn shelf(alloc: Global) -> Option<Shelf> {
    let mut names = Vec::new(alloc);
    let mut contents = Vec::new(alloc);
    for file in &FILES {
        names.push(String::from_str(alloc, file.name).ok()?).ok()?;
        contents
            .push(Vec::from_slice(alloc, file.bytes).ok()?)
            .ok()?;
    }
    if names.len() != contents.len() {
        return None;
    }
    Some(Shelf::new(names, contents, Vec::new(alloc)))
}

/// Whether the session of a row writes the bytes and has the end that the row says.
fn is_right(alloc: Global, row: &Row) -> Option<bool> {
    let mut machine = SureMachine::new(alloc, Depths::new(10, 2)?).ok()?;
    let mut feed = Feed::new(
        Vec::from_slice(alloc, row.lines).ok()?,
        PIECE,
        Vec::from_slice(alloc, row.input_fails).ok()?,
    );
    let fails = Vec::from_slice(alloc, row.output_fails).ok()?;
    let mut page = Page::new(alloc, ROOM, ROOM, fails).ok()?;
    let end = serve(
        alloc,
        &mut machine,
        &mut shelf(alloc)?,
        &mut feed,
        &mut page,
    );
    Some(end == row.end && page.bytes() == row.put)
}

#[test]
fn sessions_of_sure_questions(rt: HostRuntime) {
    for row in &ROWS {
        let right = is_right(rt.alloc(), row);
        assert!(rt; right == Some(true), "{}", row.name);
    }
}
