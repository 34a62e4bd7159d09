//! The law of a session's answers. The function is a law, which is its contract, and does nothing.

ghost use Rattle.session_doors.specs.Transcripts.{AnswersAreTranscripts};

/// What a session answers to lines, one after another from its beginning, is a transcript of the plain machine, like
/// the output of the program for these lines.
pub fn answers_are_transcripts()
    ensures { AnswersAreTranscripts }
{}
