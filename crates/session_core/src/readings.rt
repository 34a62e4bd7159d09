//! Answers of readings as short texts.
ghost use Rattle.std.specs.Prelude.{◌≡◌, ◌*◌, ◌<◌, ◌≤◌, length, IfSome};
ghost use Rattle.read_rules.specs.GoodMoves.{IsOnBoard};
ghost use Rattle.machine_rules.specs.ChoiceCommands.{move_or_pass};
ghost use Rattle.machine_rules.specs.LinkCommands.{linkage_text};
ghost use Rattle.machine_rules.specs.ReadingCommands.{spot_text, answer_text};

use connect_rules::Linkage;
use go_base::{Point, Size};
use gtp_cmd::{Short, vertex_text};
use itoa::Buffer;
use read_rules::{Answer, Spot};

/// A move as it is printed.
fn spot_text(size: Size, spot: Spot) -> Short
    requires { IsOnBoard size spot }
    ensures text { result ≡ spot_text size spot }
    ensures short { length result ≤ 4 }
{
    match spot {
        Spot::At(p) => vertex_text(size, p),
        Spot::Pass => {
            let mut text = Short::new();
            text.extend(b"PASS");
            text
        }
    }
}

/// A point as it is printed; `PASS` if there is none.
pub(crate) fn move_text(size: Size, at: Option<Point>) -> Short
    requires { IfSome at (λ p. p < size * size) }
    ensures text { result ≡ move_or_pass size at }
    ensures short { length result ≤ 4 }
{
    match at {
        Some(p) => vertex_text(size, p),
        None => Short::of(b"PASS"),
    }
}

/// An answer about two strings as it is printed: `1` or `0`, and the move if there is one.
pub(crate) fn linkage_text(size: Size, linkage: Linkage) -> Short
    requires { IfSome linkage.at (IsOnBoard size) }
    ensures text { result ≡ linkage_text size linkage }
    ensures short { length result ≤ 32 }
{
    let mut text = Short::of(if linkage.yes { b"1" } else { b"0" });
    if let Some(spot) = linkage.at {
        text.extend(b" ");
        text.extend(spot_text(size, spot).as_slice());
    }
    text
}

/// An answer as it is printed: the code, and the move if there is one.
pub(crate) fn answer_text(size: Size, answer: Answer) -> Short
    requires { IfSome answer.at (IsOnBoard size) }
    ensures text { result ≡ answer_text size answer }
    ensures short { length result ≤ 32 }
{
    let mut buffer = Buffer::new();
    let mut text = Short::new();
    text.extend(buffer.format(answer.code).as_bytes());
    if let Some(spot) = answer.at {
        text.extend(b" ");
        text.extend(spot_text(size, spot).as_slice());
    }
    text
}
