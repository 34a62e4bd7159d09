//! Rows as objects of JSON, and with proofs.

use super::{Fail, usual};
use problem_rows::{print_object, print_row, row_of};
use problem_verdicts::{Replies, Scope};

/// A name, the replies against which an answer holds, the moves that are judged, a record, and its object without a
/// proof. In the fourth record White captures Black D1 at D2, and by the nets at D3 and E2, which the tree does not
/// try.
static OBJECTS: [(&str, Replies, Scope, &str, &str); 5] = [
    (
        "a.sgf",
        Replies::Tried,
        Scope::Tried,
        "(;SZ[9]AB[bh]AW[ai]C[gopat: attack A1 answer B1 A2 only])",
        "{\"record\":\"a.sgf\",\"kind\":\"attack\",\"target\":\"A1\",\"plies\":3,\"wide\":2,\"tree\":\"stated\",\
         \"scope\":\"tried\",\"expected\":[\"A2\",\"B1\"],\"code\":3,\"moves\":[\"A2\",\"B1\"],\"fewest\":3,\
         \"verdict\":\"as expected\"}\n",
    ),
    (
        "b\"\\\t.sgf",
        Replies::Tried,
        Scope::Tried,
        "(;SZ[9]AB[bh]AW[ai]C[gopat: attack A1 depths 2 0])",
        "{\"record\":\"b\\\"\\\\\\u0009.sgf\",\"kind\":\"attack\",\"target\":\"A1\",\"plies\":2,\"wide\":0,\
         \"tree\":\"stated\",\"scope\":\"tried\",\"expected\":null,\"code\":0,\"moves\":[],\"fewest\":null,\
         \"verdict\":\"not told\",\"why\":\"no answer\"}\n",
    ),
    (
        "c.sgf",
        Replies::Tried,
        Scope::Anywhere,
        "(;SZ[9]AB[bh]AW[ai])",
        "{\"record\":\"c.sgf\",\"kind\":null,\"target\":null,\"plies\":null,\"wide\":null,\"tree\":null,\
         \"scope\":null,\"expected\":null,\"code\":null,\"moves\":null,\"fewest\":null,\
         \"verdict\":\"not told\",\"why\":\"no line gopat: and no marked stone\"}\n",
    ),
    (
        "d.sgf",
        Replies::Tried,
        Scope::Anywhere,
        "(;SZ[9]AB[di]AW[ci][ei][ch]C[gopat: attack D1 depths 3 0 answer D2 only])",
        "{\"record\":\"d.sgf\",\"kind\":\"attack\",\"target\":\"D1\",\"plies\":3,\"wide\":0,\"tree\":\"stated\",\
         \"scope\":\"anywhere\",\"expected\":[\"D2\"],\"code\":3,\"moves\":[\"D3\",\"D2\",\"E2\"],\"fewest\":1,\
         \"verdict\":\"other answers too\"}\n",
    ),
    (
        "e.sgf",
        Replies::Every,
        Scope::Tried,
        "(;SZ[5]AB[ae]AW[bd]C[gopat: attack A1 answer A2 B1 only])",
        "{\"record\":\"e.sgf\",\"kind\":\"attack\",\"target\":\"A1\",\"plies\":3,\"wide\":2,\"tree\":\"sure\",\
         \"scope\":\"tried\",\"expected\":[\"A2\",\"B1\"],\"code\":3,\"moves\":[\"A2\",\"B1\"],\"fewest\":3,\
         \"verdict\":\"as expected\"}\n",
    ),
];

#[test]
fn rows_as_objects(rt: HostRuntime) -> Result<(), Fail> {
    for (name, replies, scope, record, object) in OBJECTS {
        let row = row_of(
            rt.alloc(),
            record.as_bytes(),
            usual()?,
            replies,
            scope,
            false,
        )?;
        let mut line = String::new(rt.alloc());
        print_object(&mut line, name, &row)?;
        assert!(rt; line.as_str() == object, "{name}: {line}");
    }
    Ok(())
}

#[test]
fn rows_with_proofs(rt: HostRuntime) -> Result<(), Fail> {
    let record = "(;SZ[9]AB[df]AW[cf][ef][de]C[gopat: attack D4 depths 1 0 answer D3])";
    let row = row_of(
        rt.alloc(),
        record.as_bytes(),
        usual()?,
        Replies::Tried,
        Scope::Tried,
        true,
    )?;
    let mut line = String::new(rt.alloc());
    print_row(&mut line, "r", &row)?;
    assert!(rt;
        line.as_str() == "r\tattack D4 depths 1 0\t3\tD3\t1\tas expected\tW D3 .\n",
        "{line}"
    );
    let mut object = String::new(rt.alloc());
    print_object(&mut object, "r", &row)?;
    assert!(rt;
        object.as_str().ends_with(",\"proof\":\"W D3 .\"}\n"),
        "{object}"
    );
    Ok(())
}
