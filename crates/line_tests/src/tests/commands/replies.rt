//! The bytes of replies.

use go_base::Bytes;
use gtp_cmd::{RefuseText, refusal, short, success};
use std::test::Fail;

/// What is special about a reply, its id, its result or refusal, and its bytes.
struct Reply<T> {
    name: &'static str,
    id: Option<u32>,
    tells: T,
    want: &'static [u8],
}

static SUCCESSES: [Reply<&[u8]>; 3] = [
    Reply {
        name: "nothing follows the id",
        id: Some(1),
        tells: b"",
        want: b"=1\n\n",
    },
    Reply {
        name: "no blank before nothing",
        id: None,
        tells: b"",
        want: b"=\n\n",
    },
    Reply {
        name: "a result",
        id: Some(2_147_483_647),
        tells: b"gopat",
        want: b"=2147483647 gopat\n\n",
    },
];

static REFUSALS: [Reply<RefuseText>; 8] = [
    Reply {
        name: "an unknown command",
        id: Some(5),
        tells: RefuseText::UnknownCommand,
        want: b"?5 unknown command\n\n",
    },
    Reply {
        name: "the longest refusal",
        id: Some(u32::MAX),
        tells: RefuseText::VertexEmpty,
        want: b"?4294967295 vertex must not be empty\n\n",
    },
    Reply {
        name: "a file",
        id: None,
        tells: RefuseText::CannotLoadFile,
        want: b"? cannot load file\n\n",
    },
    Reply {
        name: "the first kind",
        id: None,
        tells: RefuseText::BadSgf(1),
        want: b"? bad sgf kind 1\n\n",
    },
    Reply {
        name: "the last kind",
        id: None,
        tells: RefuseText::BadSgf(5),
        want: b"? bad sgf kind 5\n\n",
    },
    Reply {
        name: "a long proof",
        id: None,
        tells: RefuseText::ProofTooLong,
        want: b"? proof too long\n\n",
    },
    Reply {
        name: "two colours",
        id: None,
        tells: RefuseText::ColoursDiffer,
        want: b"? colours differ\n\n",
    },
    Reply {
        name: "a helper",
        id: None,
        tells: RefuseText::NoSuchHelper,
        want: b"? no such helper\n\n",
    },
];

#[test]
fn replies_repeat_the_id(rt: HostRuntime) -> Result<(), Fail> {
    for row in &SUCCESSES {
        let name = row.name;
        let reply = success(row.id, row.tells, Bytes::new(rt.alloc()))?;
        assert!(rt; reply.as_slice() == row.want, "{name}");
        assert!(rt; row.tells.len() <= 32);
        assert!(rt; short(row.id, row.tells).as_slice() == row.want, "{name}");
    }
    for row in &REFUSALS {
        let name = row.name;
        assert!(rt; refusal(row.id, row.tells).as_slice() == row.want, "{name}");
    }
    Ok(())
}
