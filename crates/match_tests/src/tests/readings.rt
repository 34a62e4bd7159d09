//! The trial plays that readings report: a fresh reading has some, a cached answer has none.
use super::{new_readings, with_both};
use go_base::{Cell, Point, Position};
use match_engine::Readings;
use read_rules::{Kind, Spot};
use std::test::Fail;

/// Black D4, which has one liberty, D3.
const IN_ATARI: Point = 48;

/// The black stone, which is in atari.
static BLACK: [Point; 1] = [IN_ATARI];

/// The white stones around the black one.
static WHITE: [Point; 3] = [47, 49, 39];

/// How many plays an attack on the black stone tries, three plies deep, two of them wide: D3, which captures it, and
/// C3, which comes before D3 in reading order and does not.
const TRIED: u64 = 2;

/// Two readings of the attack, one after the other, and how many trial plays each reports.
static ATTACKS: [(&str, Option<u64>); 2] = [("a fresh one", Some(TRIED)), ("a kept one", None)];

/// Whether an attack captures the black stone at D3.
fn is_captured(readings: &mut Readings, position: &Position) -> bool {
    if IN_ATARI >= position.size().points() || position.cell(IN_ATARI) == Cell::Empty {
        return false;
    }
    let answer = readings.read(Kind::Attack, position, IN_ATARI);
    answer.code == 3 && answer.at == Some(Spot::At(57))
}

#[test]
fn trial_plays_of_a_reading_are_told(rt: HostRuntime) -> Result<(), Fail> {
    let position = with_both(9, &BLACK, &WHITE).ok_or("the stones are on the board")?;
    let mut readings = new_readings(rt.alloc()).ok_or("there is memory")?;
    for &(what, last) in &ATTACKS {
        assert!(rt; is_captured(&mut readings, &position), "{what}");
        assert!(rt; readings.last() == last, "{what}");
        assert!(rt;
            readings.trials() == TRIED && readings.fresh() == 1,
            "{what}"
        );
    }
    Ok(())
}
