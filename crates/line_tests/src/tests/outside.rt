//! What no contract says: that calls find memory, and what the streams and files of the system do.
use gtp_io::{
    Failed, Feed, FileLoader, LoadError, Loader, Page, Shelf, Sink, Source, StdSink, StdSource,
    SureFeed, SurePage, SureShelf,
};
use std::alloc::{AllocError, Global};
use std::io::{Read, Write};
use std::process::Abort;
use std::rt::Files;
use std::test::Fail;
use std::{fs, io};

/// A reader and writer that always fails.
#[derive(Drop)]
struct Broken;

impl Read for Broken {
    fn read(&mut self, _buf: &mut [u8]) -> io::Result<usize> {
        Err(io::Error::from(io::ErrorKind::BrokenPipe))
    }
}

impl Write for Broken {
    fn write(&mut self, _buf: &[u8]) -> io::Result<usize> {
        Err(io::Error::from(io::ErrorKind::BrokenPipe))
    }

    fn flush(&mut self) -> io::Result<()> {
        Ok(())
    }
}

/// A writer that takes one byte a call, and counts how often it was flushed.
#[derive(Drop)]
struct OneByOne {
    bytes: Vec<u8>,
    flushes: u8,
}

impl Write for OneByOne {
    fn write(&mut self, buf: &[u8]) -> io::Result<usize> {
        let Some(first) = buf.first() else {
            return Ok(0);
        };
        self.bytes.push(*first)?;
        Ok(1)
    }

    fn flush(&mut self) -> io::Result<()> {
        self.flushes = self.flushes.saturating_add(1);
        Ok(())
    }
}

/// What is special about a call of a source with a buffer of eight bytes, and what the call gives. Calls come in order.
type Given = (&'static str, Result<usize, Failed>);

/// Calls of a feed of five bytes that gives at most three a call, and whose second call fails.
static FEED: [Given; 4] = [
    ("a piece", Ok(3)),
    ("the call that is listed", Err(Failed)),
    ("the rest of the bytes", Ok(2)),
    ("the end of the bytes", Ok(0)),
];

/// Calls of a feed of five bytes that gives at most four a call, and never fails.
static SURE_FEED: [Given; 1] = [("a piece of a feed that never fails", Ok(4))];

/// Calls of the standard source over a reader of four bytes.
static READER: [Given; 2] = [("all bytes of a reader", Ok(4)), ("its end", Ok(0))];

/// Calls of the standard source over a reader that fails.
static BROKEN_READER: [Given; 1] = [("a reader that fails", Err(Failed))];

/// Compares what the calls of a source give, one call after another.
fn compare_given(rt: &impl Abort, source: &mut impl Source, calls: &[Given]) {
    let mut buf = [0u8; 8];
    for &(name, want) in calls {
        assert!(rt; source.next(&mut buf) == want, "{name}");
    }
}

/// What is special about a call of a sink, what is put, and how many bytes the call takes. Calls come in order.
type Taken = (&'static str, &'static [u8], Result<usize, Failed>);

/// Calls of a page with room for five bytes that takes at most three a call, and whose second call fails.
static PAGE: [Taken; 4] = [
    ("a piece", b"name", Ok(3)),
    ("the call that is listed", b"name", Err(Failed)),
    ("the room left", b"name", Ok(2)),
    ("no room left", b"name", Err(Failed)),
];

/// Calls of the page that never fails.
static SURE_PAGE: [Taken; 1] = [("a page that never fails", b"name", Ok(4))];

/// Calls of the standard sink over a list of bytes.
static WRITER: [Taken; 1] = [("all bytes of a piece", b"name", Ok(4))];

/// Calls of the standard sink over a writer that fails.
static BROKEN_WRITER: [Taken; 1] = [("a writer that fails", b"name", Err(Failed))];

/// Calls of the standard sink over a writer that takes one byte a call.
static ONE_BY_ONE: [Taken; 2] = [
    ("a sink tells how many bytes were taken", b"name", Ok(1)),
    ("the next byte", b"ame", Ok(1)),
];

/// Compares how many bytes the calls of a sink take, one call after another.
fn compare_taken(rt: &impl Abort, sink: &mut impl Sink, calls: &[Taken]) {
    for &(name, piece, want) in calls {
        assert!(rt; sink.put(piece) == want, "{name}");
    }
}

/// A feed of five bytes that gives at most three a call, and whose second call fails.
fn feed(alloc: Global) -> Result<Feed, AllocError> {
    let fails = Vec::from_slice(alloc, &[2])?;
    Ok(Feed::new(Vec::from_slice(alloc, b"name\n")?, 3, fails))
}

#[test]
fn feeds_go_by_pieces_and_fail_where_told(rt: HostRuntime) -> Result<(), Fail> {
    let mut feed = feed(rt.alloc())?;
    compare_given(&rt, &mut feed, &FEED);
    assert!(rt; feed.left() == b"".as_slice());
    let mut sure = SureFeed::new(Vec::from_slice(rt.alloc(), b"name\n")?, 4);
    compare_given(&rt, &mut sure, &SURE_FEED);
    Ok(())
}

#[test]
fn pages_go_by_pieces_and_fail_where_told(rt: HostRuntime) -> Result<(), Fail> {
    let fails = Vec::from_slice(rt.alloc(), &[2])?;
    let mut page = Page::new(rt.alloc(), 5, 3, fails)?;
    compare_taken(&rt, &mut page, &PAGE);
    assert!(rt; page.bytes() == b"namna".as_slice());
    compare_taken(&rt, &mut SurePage::new(), &SURE_PAGE);
    Ok(())
}

#[test]
fn standard_streams_pass_bytes_on(rt: HostRuntime) {
    compare_given(&rt, &mut StdSource::new(b"name".as_slice()), &READER);
    compare_given(&rt, &mut StdSource::new(Broken), &BROKEN_READER);
    compare_taken(&rt, &mut StdSink::new(Vec::new(rt.alloc())), &WRITER);
    compare_taken(&rt, &mut StdSink::new(Broken), &BROKEN_WRITER);
}

#[test]
fn standard_sinks_flush_each_time(rt: HostRuntime) {
    let mut writer = OneByOne {
        bytes: Vec::new(rt.alloc()),
        flushes: 0,
    };
    compare_taken(&rt, &mut StdSink::new(&mut writer), &ONE_BY_ONE);
    assert!(rt; writer.bytes.as_slice() == b"na".as_slice());
    assert!(rt; writer.flushes == 2);
}

/// The names of this list, and the contents under them.
fn shelved(alloc: Global, list: &[(&str, &[u8])]) -> Result<(Vec<String>, Vec<Vec<u8>>), Fail> {
    let mut names = Vec::new(alloc);
    let mut contents = Vec::new(alloc);
    for (name, content) in list {
        names.push(String::from_str(alloc, name)?)?;
        contents.push(Vec::from_slice(alloc, content)?)?;
    }
    Ok((names, contents))
}

/// The names and contents on the shelves.
static SHELVED: [(&str, &[u8]); 3] = [("a", b"one"), ("b", b"two"), ("a", b"three")];

/// A name to load, the bytes before its contents, and all bytes that come, or `None` if the load fails.
struct Load {
    what: &'static str,
    name: &'static str,
    front: &'static [u8],
    want: Option<&'static [u8]>,
}

/// Loads from a shelf whose third call fails, one after another.
static FROM_SHELF: [Load; 3] = [
    Load {
        what: "the first of equal names, behind others",
        name: "a",
        front: b"zero ",
        want: Some(b"zero one"),
    },
    Load {
        what: "a name that is not there",
        name: "c",
        front: b"",
        want: None,
    },
    Load {
        what: "the call that is listed",
        name: "b",
        front: b"",
        want: None,
    },
];

/// Loads from a shelf that never fails.
static FROM_SURE_SHELF: [Load; 2] = [
    Load {
        what: "the first of equal names",
        name: "a",
        front: b"",
        want: Some(b"one"),
    },
    Load {
        what: "nothing for a name that is not there",
        name: "c",
        front: b"",
        want: Some(b""),
    },
];

/// Whether a load gives the bytes that it should, or fails as it should.
fn is_wanted(loaded: &Result<Vec<u8>, LoadError>, want: Option<&[u8]>) -> bool {
    match loaded {
        Ok(bytes) => want == Some(bytes.as_slice()),
        Err(error) => want.is_none() && *error == LoadError::Failed,
    }
}

/// Loads a name, and compares what comes.
fn compare_loaded(
    rt: &impl Abort,
    alloc: Global,
    loader: &mut impl Loader,
    load: &Load,
) -> Result<(), AllocError> {
    let what = load.what;
    let loaded = loader.load(load.name, Vec::from_slice(alloc, load.front)?);
    assert!(rt; is_wanted(&loaded, load.want), "{what}");
    Ok(())
}

#[test]
fn shelf_gives_the_first_of_equal_names(rt: HostRuntime) -> Result<(), Fail> {
    let fails = Vec::from_slice(rt.alloc(), &[3])?;
    let (names, contents) = shelved(rt.alloc(), &SHELVED)?;
    assert!(rt; names.len() == contents.len());
    let mut shelf = Shelf::new(names, contents, fails);
    for load in &FROM_SHELF {
        compare_loaded(&rt, rt.alloc(), &mut shelf, load)?;
    }
    Ok(())
}

#[test]
fn sure_shelf_is_empty_for_other_names(rt: HostRuntime) -> Result<(), Fail> {
    let (names, contents) = shelved(rt.alloc(), &SHELVED)?;
    assert!(rt; names.len() == contents.len());
    let mut shelf = SureShelf::new(names, contents);
    for load in &FROM_SURE_SHELF {
        compare_loaded(&rt, rt.alloc(), &mut shelf, load)?;
    }
    Ok(())
}

/// The text of a file that is written, the most bytes that the loader takes of a file, and a load.
struct Written {
    text: &'static str,
    most: Option<usize>,
    load: Load,
}

static WRITTEN: [Written; 7] = [
    Written {
        text: "text",
        most: None,
        load: Load {
            what: "a file by its path",
            name: "gtp_io_sample.txt",
            front: b"some ",
            want: Some(b"some text"),
        },
    },
    Written {
        text: "text",
        most: None,
        load: Load {
            what: "no file by another path",
            name: "no_such_file",
            front: b"",
            want: None,
        },
    },
    Written {
        text: "text",
        most: Some(4),
        load: Load {
            what: "a file of the greatest length",
            name: "gtp_io_sample.txt",
            front: b"",
            want: Some(b"text"),
        },
    },
    Written {
        text: "text",
        most: Some(3),
        load: Load {
            what: "a file that is longer by a byte",
            name: "gtp_io_sample.txt",
            front: b"",
            want: None,
        },
    },
    Written {
        text: "abc",
        most: Some(4),
        load: Load {
            what: "a byte less than the greatest length, behind others",
            name: "gtp_io_sample.txt",
            front: b"# ",
            want: Some(b"# abc"),
        },
    },
    Written {
        text: "abcd",
        most: Some(4),
        load: Load {
            what: "all bytes of the greatest length, behind others",
            name: "gtp_io_sample.txt",
            front: b"# ",
            want: Some(b"# abcd"),
        },
    },
    Written {
        text: "abcde",
        most: Some(4),
        load: Load {
            what: "a byte more than the greatest length",
            name: "gtp_io_sample.txt",
            front: b"# ",
            want: None,
        },
    },
];

/// A loader of files that takes at most `most` bytes of a file, or as many as it may if that is `None`.
fn file_loader<'a, R: Files + Abort>(
    rt: &'a R,
    alloc: Global,
    most: Option<usize>,
) -> FileLoader<'a, R> {
    match most {
        Some(most) => {
            assert!(rt; most <= 4);
            FileLoader::up_to(alloc, rt, most)
        }
        None => FileLoader::new(alloc, rt),
    }
}

#[test]
fn files_are_loaded_by_their_paths_up_to_the_greatest_length(rt: HostRuntime) -> Result<(), Fail> {
    for written in &WRITTEN {
        fs::write(&rt, "gtp_io_sample.txt", written.text)?;
        let mut files = file_loader(&rt, rt.alloc(), written.most);
        compare_loaded(&rt, rt.alloc(), &mut files, &written.load)?;
    }
    fs::remove_file(&rt, "gtp_io_sample.txt")?;
    Ok(())
}
