//! The first and the last indices of the spiral, worked by hand.
use spiral::{OFFSETS, index, offset};
use std::test::Fail;

/// Places on the spiral, whose rings begin above left and go right: the index and its offset.
static PLACES: [(&str, u16, (i8, i8)); 13] = [
    ("the anchor", 0, (0, 0)),
    ("the first ring begins", 1, (-1, -1)),
    ("right along its top", 2, (-1, 0)),
    ("its upper right corner", 3, (-1, 1)),
    ("down along its right", 4, (0, 1)),
    ("its lower right corner", 5, (1, 1)),
    ("left along its bottom", 6, (1, 0)),
    ("its lower left corner", 7, (1, -1)),
    ("the first ring ends", 8, (0, -1)),
    ("the second ring begins", 9, (-2, -2)),
    ("two to the right of the anchor", 15, (0, 2)),
    ("the last ring begins", 2209, (-24, -24)),
    ("the last offset", 2400, (-23, -24)),
];

#[test]
fn rings_begin_above_left_and_go_right(rt: HostRuntime) -> Result<(), Fail> {
    assert!(rt; OFFSETS == 2401, "all offsets within the largest board");
    for &(place, number, want) in &PLACES {
        if number >= OFFSETS {
            return Err("the index has an offset")?;
        }
        let (dr, dc) = offset(number);
        assert!(rt; ((dr, dc), index(dr, dc)) == (want, number), "{place}");
    }
    Ok(())
}
