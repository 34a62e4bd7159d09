//! The functions of constraints by their names.

ghost use Rattle.std.specs.Prelude.{◌≡◌, map, option_map, find};
ghost use Rattle.std.specs.Str.{bytes_eq};
ghost use Rattle.cons_parse.specs.CodeRows.{row_seen};
ghost use Rattle.cons_parse.specs.FunctionNames.{function_in, function_named as function_of};

use pat_types::Function::{OfMoves, OfPair, OfPoint, OfPoints};
use pat_types::{Function, MovesFunction, PairFunction, PointFunction, PointsFunction};

/// A name, and the function that it names.
type Row = (&'static [u8], Function);

/// The functions, grouped by the arguments that they take.
const TABLE: [Row; 21] = [
    (b"lib", OfPoint(PointFunction::Lib)),
    (b"xlib", OfPoint(PointFunction::Xlib)),
    (b"olib", OfPoint(PointFunction::Olib)),
    (b"attack", OfPoint(PointFunction::Attack)),
    (b"defend", OfPoint(PointFunction::Defend)),
    (b"ko", OfPoint(PointFunction::Ko)),
    (b"safe_xmove", OfPoint(PointFunction::SafeXmove)),
    (b"safe_omove", OfPoint(PointFunction::SafeOmove)),
    (b"legal_xmove", OfPoint(PointFunction::LegalXmove)),
    (b"legal_omove", OfPoint(PointFunction::LegalOmove)),
    (b"same_worm", OfPair(PairFunction::SameWorm)),
    (b"does_attack", OfPair(PairFunction::DoesAttack)),
    (b"does_defend", OfPair(PairFunction::DoesDefend)),
    (b"odefend_against", OfPair(PairFunction::OdefendAgainst)),
    (b"xdefend_against", OfPair(PairFunction::XdefendAgainst)),
    (b"o_somewhere", OfPoints(PointsFunction::OSomewhere)),
    (b"x_somewhere", OfPoints(PointsFunction::XSomewhere)),
    (b"oplay_attack", OfMoves(MovesFunction::OplayAttack)),
    (b"oplay_defend", OfMoves(MovesFunction::OplayDefend)),
    (b"xplay_attack", OfMoves(MovesFunction::XplayAttack)),
    (b"xplay_defend", OfMoves(MovesFunction::XplayDefend)),
];

/// The function of the first row with this name, if there is one.
fn first_function(rows: &[Row], name: &[u8]) -> Option<Function>
    ensures { result ≡ option_map (λ r. r.1) (find (λ r. bytes_eq name.now r.0.now) rows.now) }
{
    let row = rows.iter().find(|row| name == row.0)?;
    Some(row.1)
}

/// The function of the first row with this name, if there is one, by the rows that the definitions have.
fn function_in(rows: &[Row], name: &[u8]) -> Option<Function>
    ensures { result ≡ function_in (map row_seen rows.now) name.now }
{
    first_function(rows, name)
}

/// The function called `name`, if there is one.
pub fn function_named(name: &[u8]) -> Option<Function>
    ensures { result ≡ function_of name.now }
{
    function_in(&TABLE, name)
}
