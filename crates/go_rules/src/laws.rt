//! What the definitions of specs/ mean, in Go's own words. Each function here is a law: its contract is what is proved,
//! and it does nothing. The definitions that compute (`play`, `is_in_string`, `liberties`) stand in the contracts of
//! the crates above; the laws tie them to paths, places and the rules as a Go book has them.

ghost use Rattle.std.specs.Prelude.{◌≡◌, ◌≢◌, ◌⊎◌, ℕ, Ok, Err, Some, None, ◌+◌, ◌*◌, ◌<◌, ◌↔◌, Bool, IsTrue, true};
ghost use Rattle.std.specs.Prelude.{List, [], ◌∷◌, ◌++◌, length, slice_set};
ghost use Rattle.go_rules.specs.declared.Cell.{Cell};
ghost use Rattle.go_rules.specs.declared.Colour.{Colour};
ghost use Rattle.go_rules.specs.declared.Illegal.{Illegal};
ghost use Rattle.go_rules.specs.declared.Move.{Move};
ghost use Rattle.go_rules.specs.Board.{IsSize, Place, IsOnBoard, point_at, place_of, are_neighbours, AreNeighbours};
ghost use Rattle.go_rules.specs.Transform.{Offset, transformations, transformed, IsNear, AreOneStepApart};
ghost use Rattle.go_rules.specs.Strings.{cell_at, is_stone, is_in_string, IsInString, is_liberty, IsLiberty};
ghost use Rattle.go_rules.specs.Neighbourhood.{neighbourhood_of, InNeighbourhood};
ghost use Rattle.go_rules.specs.Position.{BoardState, IsPosition, other, stone_of};
ghost use Rattle.go_rules.specs.Play.{play, play_free, pass};
ghost use Rattle.go_rules.specs.Rules.{IsCaptured, IsOnlyLiberty, Follows, IsSuicide, LeavesBan, IsPositionInWords};
ghost use Rattle.go_rules.specs.Replay.{empty_board, moved, replay_from, replay, captures, stones_gone, IsLegalMove};
ghost use Rattle.go_rules.specs.Replay.{IsLegalGame};

/// The points of a board are its places, numbered in reading order.
pub fn points_are_places()
    ensures of_point { (s p : ℕ) → p < s * s → IsOnBoard s (place_of s p) × (point_at s (place_of s p) ≡ p) }
    ensures of_place { (s : ℕ) (a : Place) → IsOnBoard s a → (point_at s a < s * s) × (place_of s (point_at s a) ≡ a) }
{}

/// Neighbours are neighbours in both directions, and never off the board.
pub fn neighbours_are_symmetric()
    ensures places { (s p q : ℕ) → p < s * s → q < s * s
        → IsTrue (are_neighbours s p q) ↔ AreNeighbours s (place_of s p) (place_of s q) }
    ensures points { (s p q : ℕ) → are_neighbours s p q ≡ are_neighbours s q p }
    ensures both_ways { (s : ℕ) (a b : Place) → AreNeighbours s a b → AreNeighbours s b a }
    ensures on_board { (s : ℕ) (a b : Place) → AreNeighbours s a b → IsOnBoard s a × IsOnBoard s b }
{}

/// The eight transformations are the symmetries of the board: each is undone by one of the eight, takes neighbours to
/// neighbours, and takes an offset that fits the largest board to one that fits it too.
pub fn transformations_are_symmetries()
    ensures undone { (t : ℕ) → t < transformations
        → (u : ℕ) × (u < transformations) × ((d : Offset) → transformed u (transformed t d) ≡ d) }
    ensures steps { (t : ℕ) (d e : Offset) → t < transformations → AreOneStepApart d e
        → AreOneStepApart (transformed t d) (transformed t e) }
    ensures near { (t : ℕ) (d : Offset) → t < transformations → IsNear d → IsNear (transformed t d) }
{}

/// The computing tests of strings and liberties agree with the definitions by paths.
pub fn strings_are_by_paths()
    ensures string { (s : ℕ) (cells : List Cell) (p q : ℕ) → p < s * s
        → IsTrue (is_in_string s cells p q) ↔ IsInString s cells p q }
    ensures liberty { (s : ℕ) (cells : List Cell) (p l : ℕ) → p < s * s
        → IsTrue (is_liberty s cells p l) ↔ IsLiberty s cells p l }
{}

/// Being in one string is an equivalence on the stones of a board. Stones of one string have one colour and the same
/// liberties.
pub fn strings_are_classes()
    ensures itself { (s : ℕ) (cells : List Cell) (p : ℕ) → is_stone (cell_at cells p) ≡ true → IsInString s cells p p }
    ensures back { (s : ℕ) (cells : List Cell) (p q : ℕ) → p < s * s → IsInString s cells p q → IsInString s cells q p }
    ensures onward { (s : ℕ) (cells : List Cell) (p q r : ℕ) → IsInString s cells p q → IsInString s cells q r
        → IsInString s cells p r }
    ensures one_colour { (s : ℕ) (cells : List Cell) (p q : ℕ) → IsInString s cells p q
        → cell_at cells q ≡ cell_at cells p }
    ensures same_liberties { (s : ℕ) (cells : List Cell) (p q l : ℕ) → p < s * s → IsInString s cells p q
        → IsLiberty s cells q l → IsLiberty s cells p l }
{}

/// The computing test of the neighbourhood of a set of points agrees with its definition in words, and a neighbourhood
/// lies on the board.
pub fn neighbourhoods_are_in_words()
    ensures neighbourhood { (s : ℕ) (cells : List Cell) (S : ℕ → Bool) (q : ℕ)
        → IsTrue (neighbourhood_of s cells S q) ↔ InNeighbourhood s cells S q }
    ensures on_board { (s : ℕ) (cells : List Cell) (S : ℕ → Bool) (q : ℕ) → InNeighbourhood s cells S q → q < s * s }
{}

/// The computing definition of a play agrees with the rules: it gives the position that follows, or the reason why none
/// follows.
pub fn plays_are_by_rules()
    ensures follows { (pos : BoardState) (c : Colour) (p : ℕ) (new : BoardState) → p < pos.size * pos.size
        → play_free pos c p ≡ Ok new → Follows pos c p new }
    ensures answered { (pos : BoardState) (c : Colour) (p : ℕ) (next : BoardState) → p < pos.size * pos.size
        → Follows pos c p next → (new : BoardState) × (play_free pos c p ≡ Ok new) }
    ensures determined { (pos : BoardState) (c : Colour) (p : ℕ) (a b : BoardState) → Follows pos c p a
        → Follows pos c p b
        → (q : ℕ) → q < pos.size * pos.size → cell_at a.cells q ≡ cell_at b.cells q }
    ensures occupied { (pos : BoardState) (c : Colour) (p : ℕ)
        → (play_free pos c p ≡ Err Illegal.Occupied) ↔ (cell_at pos.cells p ≢ Cell.Empty) }
    ensures suicide { (pos : BoardState) (c : Colour) (p : ℕ) → p < pos.size * pos.size
        → (play_free pos c p ≡ Err Illegal.Suicide) ↔ IsSuicide pos c p }
    ensures never_ko { (pos : BoardState) (c : Colour) (p : ℕ) → play_free pos c p ≢ Err Illegal.Ko }
{}

/// A play that is not refused changes only its own point, where its stone stands afterwards, and the points of the
/// captured enemy stones, which are empty afterwards.
pub fn plays_change_little()
    ensures stone { (pos : BoardState) (c : Colour) (p : ℕ) (new : BoardState) → IsPosition pos
        → p < pos.size * pos.size
        → play_free pos c p ≡ Ok new → cell_at new.cells p ≡ stone_of c }
    ensures others { (pos : BoardState) (c : Colour) (p : ℕ) (new : BoardState) (q : ℕ) → play_free pos c p ≡ Ok new
        → q < pos.size * pos.size → q ≢ p → (cell_at new.cells q ≡ cell_at pos.cells q)
        ⊎ ((cell_at pos.cells q ≡ stone_of (other c)) × (cell_at new.cells q ≡ Cell.Empty)
        × IsCaptured pos.size (slice_set pos.cells p (stone_of c)) c q) }
{}

/// A stone put at the only liberty of an enemy string captures the string.
pub fn an_only_liberty_captures()
    ensures { (s : ℕ) (cells : List Cell) (c : Colour) (l q : ℕ) → length cells ≡ s * s → IsOnlyLiberty s cells q l
        → cell_at cells q ≡ stone_of (other c) → IsCaptured s (slice_set cells l (stone_of c)) c q }
{}

/// The ban that a play leaves is the one that `LeavesBan` describes, and it is always on the other colour.
pub fn bans_are_by_rules()
    ensures left { (pos : BoardState) (c : Colour) (p : ℕ) (new : BoardState) (q : ℕ) → p < pos.size * pos.size
        → play_free pos c p ≡ Ok new → (new.ban ≡ Some (q, other c)) ↔ LeavesBan pos c p new.cells q }
    ensures colour { (pos : BoardState) (c : Colour) (p : ℕ) (new : BoardState) (q : ℕ) (k : Colour)
        → p < pos.size * pos.size
        → play_free pos c p ≡ Ok new → new.ban ≡ Some (q, k) → k ≡ other c }
{}

/// A play is refused exactly if a reason applies: the point is occupied, the ko ban forbids the play, or it is suicide.
/// The first reason in this order is given. If neither of the first two applies, the outcome is that of `play_free`.
pub fn reasons_are_in_order()
    ensures occupied { (pos : BoardState) (c : Colour) (p : ℕ)
        → (play pos c p ≡ Err Illegal.Occupied) ↔ (cell_at pos.cells p ≢ Cell.Empty) }
    ensures ko { (pos : BoardState) (c : Colour) (p : ℕ)
        → (play pos c p ≡ Err Illegal.Ko) ↔ ((cell_at pos.cells p ≡ Cell.Empty) × (pos.ban ≡ Some (p, c))) }
    ensures suicide { (pos : BoardState) (c : Colour) (p : ℕ) → p < pos.size * pos.size
        → (play pos c p ≡ Err Illegal.Suicide) ↔ ((pos.ban ≢ Some (p, c)) × IsSuicide pos c p) }
    ensures otherwise { (pos : BoardState) (c : Colour) (p : ℕ)
        → cell_at pos.cells p ≡ Cell.Empty → pos.ban ≢ Some (p, c) → play pos c p ≡ play_free pos c p }
{}

/// The empty board is a position, and every play that is not refused, every pass and every legal game leads to a
/// position: each string has a liberty, and the ban's point is empty and on the board.
pub fn games_keep_positions()
    ensures empty { (s : ℕ) → IsSize s → IsPosition (empty_board s) }
    ensures play { (pos : BoardState) (c : Colour) (p : ℕ) (new : BoardState) → IsPosition pos → p < pos.size * pos.size
        → play pos c p ≡ Ok new → IsPosition new }
    ensures play_free { (pos : BoardState) (c : Colour) (p : ℕ) (new : BoardState) → IsPosition pos
        → p < pos.size * pos.size
        → play_free pos c p ≡ Ok new → IsPosition new }
    ensures pass { (pos : BoardState) → IsPosition pos → IsPosition (pass pos) }
    ensures game { (pos : BoardState) (moves : List Move) → IsPosition pos → IsLegalGame pos moves
        → IsPosition (replay_from pos moves) }
{}

/// A position in words: each string has a liberty, and the ban's point is empty and on the board. Each legal game from
/// the empty board leads to a board of which these words are true.
pub fn positions_are_in_words()
    ensures words { (pos : BoardState) → IsPosition pos ↔ IsPositionInWords pos }
    ensures game { (s : ℕ) (moves : List Move) → IsSize s → IsLegalGame (empty_board s) moves
        → IsPositionInWords (replay s moves) }
{}

/// The captures of a colour grow only by its own moves: by the number of stones that stand before the move and not
/// after it. A pass takes none, and a game without moves has no captures.
pub fn captures_are_stones_gone()
    ensures nothing { (s : ℕ) (c : Colour) → captures s c [] ≡ 0 }
    ensures own { (s : ℕ) (moves : List Move) (m : Move) (next : BoardState) → IsSize s
        → IsLegalGame (empty_board s) moves
        → IsLegalMove (replay s moves) m → moved (replay s moves) m ≡ Ok next
        → captures s m.colour (moves ++ m ∷ []) ≡ captures s m.colour moves + stones_gone s
        (replay s moves).cells next.cells }
    ensures others { (s : ℕ) (moves : List Move) (m : Move)
        → captures s (other m.colour) (moves ++ m ∷ []) ≡ captures s (other m.colour) moves }
    ensures pass { (s : ℕ) (c k : Colour) (moves : List Move)
        → captures s c (moves ++ (record { colour = k; at = None }) ∷ []) ≡ captures s c moves }
{}
