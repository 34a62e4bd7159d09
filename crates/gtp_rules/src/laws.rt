//! Laws of the lines of a stream. Each function is a law: its contract says it, and its body does nothing.

ghost use Rattle.std.specs.Prelude.{◌≡◌, ℕ, List, [], ◌∷◌, ◌++◌};
ghost use Rattle.std.specs.List.{join_with_byte};
ghost use Rattle.gtp_rules.specs.Lines.{line_feed, texts_of, ended_texts, rest_of, lines_of, lines_with_rest};

/// The cut at line feeds loses nothing: joined by line feeds, the texts give the bytes back.
pub fn lines_lose_nothing()
    ensures joined { (bytes : List ℕ) → join_with_byte line_feed (texts_of bytes) ≡ bytes }
    ensures rest_is_last { (bytes : List ℕ) → texts_of bytes ≡ ended_texts bytes ++ rest_of bytes ∷ [] }
    ensures none_of_no_bytes { (lines_of [] ≡ []) × (lines_with_rest [] ≡ []) }
{}
