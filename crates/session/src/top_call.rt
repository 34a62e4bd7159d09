//! The top call of the program.
ghost use Rattle.std.specs.Prelude.{◌≡◌, ◌↔◌, MatchOption, Option, None, Some, true, if◌then◌else◌, option_map, map};
ghost use Rattle.std.specs.Prelude.{string_bytes};
ghost use Rattle.session.specs.CountedRuns.{ReachesPhaseCounted, RunsCounted, RunsCountedIn, RunsHadCounted};
ghost use Rattle.session.specs.Headline.{IsCauseOf, MissedAfter, Runs, RunsHad, RunsIn};
ghost use Rattle.session.specs.Headline.{files_in, outside};
ghost use Rattle.session.specs.Ends.{streams};
ghost use Rattle.read_rules.specs.declared.tree.Tree.TheVariants.{Stated};
ghost use Rattle.session.specs.FirstSession.{ReachesPhaseBy, EndsCounting};
ghost use Rattle.session.specs.Waiting.{none_wait};
ghost use Rattle.go_options.specs.Found.{AreInRange, IsIn};
ghost use Rattle.go_options.specs.NumberOptions.{generate_option};
ghost use Rattle.session_core.specs.SessionView.{kept_of, step_of};
ghost use Rattle.session_core.specs.Handed.{handed};
ghost use Rattle.session.specs.Notes.{note_of};
ghost use Rattle.session.specs.Outcomes.{Served, phase_of};
ghost use Rattle.gtp_lex.specs.Lines.{no_line};
ghost use Rattle.run_notes.specs.Notes.{notes_text};
ghost use Rattle.run_notes.specs.Putting.{IsNoted};

use crate::outcome::{End, Outcome, WordsError, note};
use crate::pattern_files::{Opened, Setting, open_with};
use crate::serve::{Ended, serve};
use go_options::{Options, OptionsError, read_options};
use gtp_io::{Loader, Sink, Source};
use helpers::Helper;
use read_rules::Tree;
use run_notes::{Counts, Sent, put_notes};
use std::alloc::Global;
use workload::Workload;

// How a run ended, and what it notes of that.
#[derive(Clone, Copy)]
struct RunReport {
    outcome: Outcome,
    counts: Option<Counts>,
    sent: Option<Sent>,
}

// A run that read no line.
fn unserved(outcome: Outcome) -> RunReport
    ensures { result ≡ record { outcome = outcome; counts = None; sent = None } }
{
    RunReport {
        outcome,
        counts: None,
        sent: None,
    }
}

// A run that served lines until this end, with its counts and what it sent if `options` asks for them.
fn served(ended: Ended, options: &Options, sent: Sent) -> RunReport
    ensures phase { phase_of result.outcome ≡ Served ended.end }
    ensures input { (result.outcome ≡ Outcome.InputFault) ↔ (ended.end ≡ End.InputFault) }
    ensures output { (result.outcome ≡ Outcome.OutputFault) ↔ (ended.end ≡ End.OutputFault) }
    ensures counts { result.counts ≡ (if options.now.stats then Some ended.counts else None) }
    ensures sent { result.sent ≡ option_map (λ _. sent) options.now.generate }
{
    RunReport {
        outcome: ended.end.outcome(),
        counts: if options.stats {
            Some(ended.counts)
        } else {
            None
        },
        sent: match options.generate {
            Some(_) => Some(sent),
            None => None,
        },
    }
}

// Serves the lines of the input, or generated lines instead if `generate` says how many.
fn serve_lines<L: Loader, S: Source, K: Sink>(
    generate: Option<u32>,
    opened: &mut Opened,
    files: &mut L,
    input: &mut S,
    output: &mut K,
) -> Ended
    requires none { opened.old.lines ≡ no_line }
    requires none_waits { opened.old.server.outbox.waiting ≡ none_wait }
    requires few { MatchOption generate (Unit {0}) (IsIn generate_option) }
    ensures serves { EndsCounting generate (step_of opened.old.server.session (L.contents files.old))
        (kept_of state opened.old.server.session (L.missed files.old)) opened.old.server.outbox.sent
        (streams (S.left input.old) (S.piece input.old) (S.faults input.old) (K.written output.old)
        (K.faults output.old))
        (streams (S.left input.new) (S.piece input.new) (S.faults input.new) (K.written output.new)
        (K.faults output.new)) result (L.missed files.new) opened.new.server.outbox.sent }
    ensures contents { L.contents files.new ≡ L.contents files.old }
    ensures input { IsCauseOf (result.end ≡ End.InputFault) (S.faults input.old) (S.faults input.new) }
    ensures output { IsCauseOf (result.end ≡ End.OutputFault) (K.faults output.old) (K.faults output.new) }
    ensures last_read { result.end ≡ End.InputFault → S.failed input.new ≡ true }
    ensures last { result.end ≡ End.OutputFault → K.failed output.new ≡ true }
{
    let Opened { server, lines } = opened;
    match generate {
        Some(n) => serve(server, lines, files, &mut Workload::new(n), output),
        None => serve(server, lines, files, input, output),
    }
}

// Opens the files of the options and serves the lines.
fn run_options<L: Loader, S: Source, K: Sink>(
    setting: Setting,
    options: &Options,
    files: &mut L,
    input: &mut S,
    output: &mut K,
) -> RunReport
    requires { AreInRange options.now }
    ensures came { ReachesPhaseBy setting.tree (handed state setting.helpers.items) options.now (L.contents files.old)
        (L.missed files.old) (L.missed files.new)
        (streams (S.left input.old) (S.piece input.old) (S.faults input.old) (K.written output.old)
        (K.faults output.old))
        (streams (S.left input.new) (S.piece input.new) (S.faults input.new) (K.written output.new)
        (K.faults output.new))
        result.counts result.sent (phase_of result.outcome) }
    ensures missed { MissedAfter options.now.files (L.missed files.old) (L.missed files.new)
        (phase_of result.outcome) }
    ensures same { L.contents files.new ≡ L.contents files.old }
    ensures input { IsCauseOf (result.outcome ≡ Outcome.InputFault) (S.faults input.old) (S.faults input.new) }
    ensures output { IsCauseOf (result.outcome ≡ Outcome.OutputFault) (K.faults output.old) (K.faults output.new) }
    ensures last_read { result.outcome ≡ Outcome.InputFault → S.failed input.new ≡ true }
    ensures last { result.outcome ≡ Outcome.OutputFault → K.failed output.new ≡ true }
{
    let mut opened = match open_with(setting, options, files) {
        Ok(opened) => opened,
        Err(error) => return unserved(error.outcome()),
    };
    let ended = serve_lines(options.generate, &mut opened, files, input, output);
    served(ended, options, opened.server.outbox.sent())
}

// Does all of the run but its notes.
fn run_unnoted<L: Loader, S: Source, K: Sink>(
    setting: Setting,
    words: &[String],
    files: &mut L,
    input: &mut S,
    output: &mut K,
) -> RunReport
    ensures came { ReachesPhaseCounted setting.tree (handed state setting.helpers.items) (map string_bytes words.now)
        (L.contents files.old) (L.missed files.old) (L.missed files.new)
        (streams (S.left input.old) (S.piece input.old) (S.faults input.old) (K.written output.old)
        (K.faults output.old))
        (streams (S.left input.new) (S.piece input.new) (S.faults input.new) (K.written output.new)
        (K.faults output.new))
        result.counts result.sent (phase_of result.outcome) }
    ensures missed { MissedAfter (files_in (map string_bytes words.now)) (L.missed files.old) (L.missed files.new)
        (phase_of result.outcome) }
    ensures same { L.contents files.new ≡ L.contents files.old }
    ensures input { IsCauseOf (result.outcome ≡ Outcome.InputFault) (S.faults input.old) (S.faults input.new) }
    ensures output { IsCauseOf (result.outcome ≡ Outcome.OutputFault) (K.faults output.old) (K.faults output.new) }
    ensures last_read { result.outcome ≡ Outcome.InputFault → S.failed input.new ≡ true }
    ensures last { result.outcome ≡ Outcome.OutputFault → K.failed output.new ≡ true }
{
    match read_options(setting.alloc, words) {
        Ok(options) => run_options(setting, &options, files, input, output),
        Err(OptionsError::Usage) => unserved(Outcome::Usage),
        Err(OptionsError::NoMemory) => unserved(Outcome::NoMemory),
    }
}

// Puts the notes of a run.
fn put_report<D: Sink>(notes: &mut D, ran: RunReport)
    ensures { IsNoted (D.written notes.old) (D.written notes.new) (D.faults notes.old) (D.faults notes.new)
        (notes_text ran.counts ran.sent (note_of ran.outcome)) }
{
    let (front, rest) = note(ran.outcome);
    put_notes(notes, ran.counts, ran.sent, &[front, rest]);
}

/// Answers the lines of the input on the output with the patterns of some files, and notes how that ended.
///
/// `words` are the words of the command line without the program's name: options, as `read_options` takes them, and the
/// names of the pattern files. The patterns may name the `helpers`, and a pattern matches only if the helpers that it
/// names say yes. Before the first line is read, the files are loaded in their order and joined, their patterns are
/// made one automaton with at most as many states as the options allow, and memory is taken. The first file that fails,
/// the first fault of the joined files, or one state too many ends the run there. If the options ask for generated
/// lines, these go through the same loop and the input is not called.
///
/// The replies to the lines of one read wait together, up to some thousand bytes. None waits while a line is answered
/// that may take long, and the next read comes only when every line that has ended is answered and every reply is out.
/// The run ends after the first failure of the input or the output, after a line that ends the session, and after 2^32
/// bytes. The notes get the counts and what was sent, if the options ask for these, and how the run ended; a failure of
/// the notes changes no outcome.
pub fn run<L: Loader, S: Source, K: Sink, D: Sink>(
    alloc: Global,
    words: &[String],
    files: &mut L,
    input: &mut S,
    output: &mut K,
    notes: &mut D,
    helpers: Vec<Box<dyn Helper>>,
) -> Outcome
    // By the outcome: what the files are, what was taken, put and noted, which files were missed, and which stream's
    // count of faults rose.
    ensures runs { Runs (handed state helpers.items) (map string_bytes words.now)
        (outside (L.contents files.old) (L.missed files.old)
        (streams (S.left input.old) (S.piece input.old) (S.faults input.old) (K.written output.old)
        (K.faults output.old)) (D.written notes.old) (D.faults notes.old))
        (outside (L.contents files.new) (L.missed files.new)
        (streams (S.left input.new) (S.piece input.new) (S.faults input.new) (K.written output.new)
        (K.faults output.new)) (D.written notes.new) (D.faults notes.new))
        result }
    // The run did what `runs` says, and the notes hold the counts of its lines if the options ask for them.
    ensures counted { RunsCounted (handed state helpers.items) (map string_bytes words.now)
        (outside (L.contents files.old) (L.missed files.old)
        (streams (S.left input.old) (S.piece input.old) (S.faults input.old) (K.written output.old)
        (K.faults output.old)) (D.written notes.old) (D.faults notes.old))
        (outside (L.contents files.new) (L.missed files.new)
        (streams (S.left input.new) (S.piece input.new) (S.faults input.new) (K.written output.new)
        (K.faults output.new)) (D.written notes.new) (D.faults notes.new))
        result }
    // If the input failed, the failing call was the last one on it.
    ensures last_read { result ≡ Outcome.InputFault → S.failed input.new ≡ true }
    // If the output failed, the failing call was the last one on it.
    ensures last { result ≡ Outcome.OutputFault → K.failed output.new ≡ true }
{
    run_in(
        alloc,
        Tree::Stated,
        words,
        files,
        input,
        output,
        notes,
        helpers,
    )
}

/// Answers the lines of the input as `run` does, with readings in `tree`.
pub fn run_in<L: Loader, S: Source, K: Sink, D: Sink>(
    alloc: Global,
    tree: Tree,
    words: &[String],
    files: &mut L,
    input: &mut S,
    output: &mut K,
    notes: &mut D,
    helpers: Vec<Box<dyn Helper>>,
) -> Outcome
    // By the outcome: what the files are, what was taken, put and noted, which files were missed, and which stream's
    // count of faults rose.
    ensures runs { RunsIn tree (handed state helpers.items) (map string_bytes words.now)
        (outside (L.contents files.old) (L.missed files.old)
        (streams (S.left input.old) (S.piece input.old) (S.faults input.old) (K.written output.old)
        (K.faults output.old)) (D.written notes.old) (D.faults notes.old))
        (outside (L.contents files.new) (L.missed files.new)
        (streams (S.left input.new) (S.piece input.new) (S.faults input.new) (K.written output.new)
        (K.faults output.new)) (D.written notes.new) (D.faults notes.new))
        result }
    // The run did what `runs` says, and the notes hold the counts of its lines if the options ask for them.
    ensures counted { RunsCountedIn tree (handed state helpers.items) (map string_bytes words.now)
        (outside (L.contents files.old) (L.missed files.old)
        (streams (S.left input.old) (S.piece input.old) (S.faults input.old) (K.written output.old)
        (K.faults output.old)) (D.written notes.old) (D.faults notes.old))
        (outside (L.contents files.new) (L.missed files.new)
        (streams (S.left input.new) (S.piece input.new) (S.faults input.new) (K.written output.new)
        (K.faults output.new)) (D.written notes.new) (D.faults notes.new))
        result }
    // If the input failed, the failing call was the last one on it.
    ensures last_read { result ≡ Outcome.InputFault → S.failed input.new ≡ true }
    // If the output failed, the failing call was the last one on it.
    ensures last { result ≡ Outcome.OutputFault → K.failed output.new ≡ true }
{
    let setting = Setting {
        alloc,
        tree,
        helpers,
    };
    let ran = run_unnoted(setting, words, files, input, output);
    put_report(notes, ran);
    ran.outcome
}

/// Answers the lines of the input as `run` does, with `words` that may be missing: then nothing is loaded, taken or
/// put, and the notes say why.
pub fn run_words<L: Loader, S: Source, K: Sink, D: Sink>(
    alloc: Global,
    words: Result<Vec<String>, WordsError>,
    files: &mut L,
    input: &mut S,
    output: &mut K,
    notes: &mut D,
    helpers: Vec<Box<dyn Helper>>,
) -> Outcome
    ensures runs { RunsHad Stated (handed state helpers.items) (λ words. map string_bytes words.items) words
        (outside (L.contents files.old) (L.missed files.old)
        (streams (S.left input.old) (S.piece input.old) (S.faults input.old) (K.written output.old)
        (K.faults output.old)) (D.written notes.old) (D.faults notes.old))
        (outside (L.contents files.new) (L.missed files.new)
        (streams (S.left input.new) (S.piece input.new) (S.faults input.new) (K.written output.new)
        (K.faults output.new)) (D.written notes.new) (D.faults notes.new))
        result }
    // The run did what `runs` says, and the notes hold the counts of its lines if the options ask for them.
    ensures counted { RunsHadCounted Stated (handed state helpers.items) (λ words. map string_bytes words.items) words
        (outside (L.contents files.old) (L.missed files.old)
        (streams (S.left input.old) (S.piece input.old) (S.faults input.old) (K.written output.old)
        (K.faults output.old)) (D.written notes.old) (D.faults notes.old))
        (outside (L.contents files.new) (L.missed files.new)
        (streams (S.left input.new) (S.piece input.new) (S.faults input.new) (K.written output.new)
        (K.faults output.new)) (D.written notes.new) (D.faults notes.new))
        result }
    // If the input failed, the failing call was the last one on it.
    ensures last_read { result ≡ Outcome.InputFault → S.failed input.new ≡ true }
    // If the output failed, the failing call was the last one on it.
    ensures last { result ≡ Outcome.OutputFault → K.failed output.new ≡ true }
{
    run_words_in(
        alloc,
        Tree::Stated,
        words,
        files,
        input,
        output,
        notes,
        helpers,
    )
}

/// Answers the lines of the input as `run_words` does, with readings in `tree`.
pub fn run_words_in<L: Loader, S: Source, K: Sink, D: Sink>(
    alloc: Global,
    tree: Tree,
    words: Result<Vec<String>, WordsError>,
    files: &mut L,
    input: &mut S,
    output: &mut K,
    notes: &mut D,
    helpers: Vec<Box<dyn Helper>>,
) -> Outcome
    ensures runs { RunsHad tree (handed state helpers.items) (λ words. map string_bytes words.items) words
        (outside (L.contents files.old) (L.missed files.old)
        (streams (S.left input.old) (S.piece input.old) (S.faults input.old) (K.written output.old)
        (K.faults output.old)) (D.written notes.old) (D.faults notes.old))
        (outside (L.contents files.new) (L.missed files.new)
        (streams (S.left input.new) (S.piece input.new) (S.faults input.new) (K.written output.new)
        (K.faults output.new)) (D.written notes.new) (D.faults notes.new))
        result }
    // The run did what `runs` says, and the notes hold the counts of its lines if the options ask for them.
    ensures counted { RunsHadCounted tree (handed state helpers.items) (λ words. map string_bytes words.items) words
        (outside (L.contents files.old) (L.missed files.old)
        (streams (S.left input.old) (S.piece input.old) (S.faults input.old) (K.written output.old)
        (K.faults output.old)) (D.written notes.old) (D.faults notes.old))
        (outside (L.contents files.new) (L.missed files.new)
        (streams (S.left input.new) (S.piece input.new) (S.faults input.new) (K.written output.new)
        (K.faults output.new)) (D.written notes.new) (D.faults notes.new))
        result }
    // If the input failed, the failing call was the last one on it.
    ensures last_read { result ≡ Outcome.InputFault → S.failed input.new ≡ true }
    // If the output failed, the failing call was the last one on it.
    ensures last { result ≡ Outcome.OutputFault → K.failed output.new ≡ true }
{
    match words {
        Ok(words) => run_in(alloc, tree, &words, files, input, output, notes, helpers),
        Err(error) => {
            let ran = unserved(error.outcome());
            put_report(notes, ran);
            ran.outcome
        }
    }
}
