//! Laws of the lines that are taken. Each function is a law: its contract says it, and its body does nothing.

ghost use Rattle.std.specs.Prelude.{◌≡◌, List, ℕ, [], ◌++◌};
ghost use Rattle.std.specs.List.{concat};
ghost use Rattle.gtp_rules.specs.Lines.{RawLine, Line, lines_of, lines_with_rest};
ghost use Rattle.gtp_lex.specs.Held.{lines_from, held_from, held_line, lines_in_turn, held_after};

/// Lines that are taken piece by piece are the lines of the stream, however the stream is cut.
pub fn pieces_give_the_lines_of_the_stream()
    ensures lines { (pieces : List (List ℕ)) → lines_in_turn (Line []) pieces ≡ lines_of (concat pieces) }
    ensures with_rest { (pieces : List (List ℕ)) →
        lines_in_turn (Line []) pieces ++ held_line (held_after (Line []) pieces) ≡ lines_with_rest (concat pieces) }
    ensures two_pieces { (held : RawLine) (first second : List ℕ) →
        lines_from held (first ++ second) ≡ lines_from held first ++ lines_from (held_from held first) second }
{}
