//! How the answer to a question is printed.

ghost use Rattle.std.specs.Prelude.{◌≡◌, ◌≤◌, length, IfSome};
ghost use Rattle.read_rules.specs.GoodMoves.{IsOnBoard};
ghost use Rattle.sure_lines.specs.AnswerText.{spot_text, answer_text};

use go_base::Size;
use gtp_cmd::{Short, vertex_text};
use itoa::Buffer;
use read_rules::{Answer, Spot};

/// The printed text of a move: a vertex or `PASS`.
fn spot_text(size: Size, spot: Spot) -> Short
    requires { IsOnBoard size spot }
    ensures text { result ≡ spot_text size spot }
    ensures short { length result ≤ 4 }
{
    match spot {
        Spot::At(p) => vertex_text(size, p),
        Spot::Pass => {
            let mut text = Short::new();
            text.extend(b"PASS");
            text
        }
    }
}

/// The printed text of an answer: the code, and after a blank the move if there is one.
pub(crate) fn answer_text(size: Size, answer: Answer) -> Short
    requires { IfSome answer.at (IsOnBoard size) }
    ensures text { result ≡ answer_text size answer }
    ensures short { length result ≤ 32 }
{
    let mut buffer = Buffer::new();
    let mut text = Short::new();
    text.extend(buffer.format(answer.code).as_bytes());
    if let Some(spot) = answer.at {
        text.extend(b" ");
        text.extend(spot_text(size, spot).as_slice());
    }
    text
}
