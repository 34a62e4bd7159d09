//! The main law of the definitions: a pattern draws what the reader of its diagram sees.

ghost use Rattle.pat_types.specs.declared.pattern.Pattern.{Pattern};
ghost use Rattle.pat_types.specs.Edges.{IsDrawnAsSeen};

/// The letters and edge cells that a pattern draws are those that a reader of its diagram sees.
pub fn cells_are_drawn_as_seen()
    ensures { (p : Pattern) → IsDrawnAsSeen p }
{}
