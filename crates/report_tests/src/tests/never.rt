//! Expressions that are 0 whenever their diagram fits, and similar ones that are not.

use pattern_report::{Caution, NoMemory, Report, parts, report_on, warnings};
use std::alloc::{AllocError, Global};
use std::process::Abort;

/// The part of an entry before its expression. Its labels stand at a friend's stone, an enemy's stone, an empty point,
/// a point without an enemy's stone, one without a friend's stone, and any point.
const FRONT: &[u8] = b"Pattern A\nOX.ox?*\n:-,s\nABCDEF*\n;";

/// Expressions that are 0 whenever the diagram fits.
static NEVER_MET: [&str; 39] = [
    "lib(C)",
    "lib(A)==0",
    "lib(A)<=0",
    "attack(C)",
    "defend(*)",
    "attack(A)>3",
    "xlib(A)",
    "olib(B)",
    "ko(A)",
    "legal_xmove(B)",
    "legal_omove(A)",
    "safe_xmove(A)",
    "safe_omove(B)",
    "o_somewhere(B,C,E)",
    "!o_somewhere(B,A)",
    "x_somewhere(*)",
    "!x_somewhere(B)",
    "same_worm(A,B)",
    "same_worm(D,E)",
    "does_attack(*,C)",
    "does_defend(A,B)",
    "odefend_against(A,*)",
    "xdefend_against(B,*)",
    "oplay_attack(*,C)",
    "xplay_defend(?,A,C)",
    "0",
    "1-1",
    "2!=2",
    "3<=2",
    "2>=3",
    "3<3",
    "3>3",
    "-lib(A)>=0",
    "lib(C)>=lib(A)",
    "lib(A)&&lib(C)",
    "lib(C)||x_somewhere(A)",
    "attack(A)+attack(B)==7",
    "attack(A)-attack(B)<-3",
    "!lib(A)",
];

/// Expressions that may have a value other than 0.
static MAY_BE_MET: [&str; 33] = [
    "lib(A)",
    "lib(D)==0",
    "lib(F)",
    "lib(A)==1",
    "attack(E)",
    "attack(A)==3",
    "xlib(C)",
    "olib(*)",
    "ko(C)",
    "legal_xmove(*)",
    "safe_omove(E)",
    "o_somewhere(B,D)",
    "!o_somewhere(D)",
    "x_somewhere(*,F)",
    "!x_somewhere(A)",
    "same_worm(A,D)",
    "same_worm(E,F)",
    "does_attack(*,B)",
    "does_defend(C,D)",
    "odefend_against(*,A)",
    "oplay_attack(C,C)",
    "xplay_defend(?,*,A)",
    "1",
    "2==2",
    "3<=3",
    "2<3",
    "-lib(C)>=0",
    "lib(C)||lib(A)",
    "lib(D)&&lib(E)",
    "attack(A)+attack(B)==6",
    "attack(A)-attack(B)==-3",
    "!lib(C)",
    "!lib(D)",
];

/// The text of an entry with this `expression`.
fn entry(alloc: Global, expression: &str) -> Result<Vec<u8>, AllocError> {
    let mut text = Vec::new(alloc);
    text.extend_from_slice(FRONT)?;
    text.extend_from_slice(expression.as_bytes())?;
    Ok(text)
}

/// How many entries of a text are taken, and how many warnings say that an expression is never met.
fn counted(alloc: Global, text: &[u8]) -> Result<(usize, usize), NoMemory> {
    let parts = parts(alloc, text)?;
    let report: Report = report_on(alloc, text, &[])?;
    let mut never: usize = 0;
    for warning in &warnings(alloc, text, parts.as_slice(), &report)? {
        if matches!(warning.caution, Caution::NeverMet) {
            never = never.saturating_add(1);
        }
    }
    Ok((report.entries.len(), never))
}

/// For the entry with this `expression`: how many entries are taken, and how many never-met warnings there are.
fn told(alloc: Global, expression: &str) -> Result<(usize, usize), NoMemory> {
    let text = entry(alloc, expression)?;
    counted(alloc, text.as_slice())
}

/// Checks that each of `expressions` has this many never-met warnings.
fn compare(rt: &impl Abort, alloc: Global, expressions: &[&str], times: usize) {
    for expression in expressions {
        assert!(rt; told(alloc, expression) == Ok((1, times)), "{expression}");
    }
}

#[test]
fn an_expression_that_is_never_met_is_told(rt: HostRuntime) {
    compare(&rt, rt.alloc(), &NEVER_MET, 1);
    compare(&rt, rt.alloc(), &MAY_BE_MET, 0);
}
