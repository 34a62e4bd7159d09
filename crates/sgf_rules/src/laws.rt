//! What the definitions amount to, in the words of the grammar and of a board.

ghost use Rattle.std.specs.Prelude.{◌≡◌, ◌↔◌, ℕ, ◌*◌, ◌<◌, List, ◌∷◌, ◌++◌, Some, None, Ok, Err, true, false};
ghost use Rattle.std.specs.List.{list_all, list_any};
ghost use Rattle.go_rules.specs.declared.Cell.{Cell};
ghost use Rattle.go_rules.specs.Strings.{cell_at};
ghost use Rattle.go_rules.specs.Position.{BoardState};
ghost use Rattle.go_rules.specs.Replay.{empty_board};
ghost use Rattle.sgf_rules.specs.declared.kind.FaultKind.{FaultKind};
ghost use Rattle.sgf_rules.specs.declared.kind.FaultKind.TheVariants.{Grammar, BadSize, BadValue, NoLiberty, IllegalPlay};
ghost use Rattle.sgf_rules.specs.declared.meaning.Meaning.TheVariants.{Setup};
ghost use Rattle.sgf_rules.specs.Trees.{Node, Tree};
ghost use Rattle.sgf_rules.specs.Written.{IsFirstTree, IsMainLine};
ghost use Rattle.sgf_rules.specs.MainLine.{main_line};
ghost use Rattle.sgf_rules.specs.Uses.{Use, uses_in};
ghost use Rattle.sgf_rules.specs.Game.{size_of_nodes, is_readable, sets, cells_after_uses, HasDeadSetup, after_node};
ghost use Rattle.sgf_rules.specs.Game.{after_setup, after_nodes, game_of, and_then, HasRefusedPlay};
ghost use Rattle.sgf_rules.specs.FirstNode.{first_position_of};

/// The computed main line is the main line of the tree that the text begins with, as the bytes of the text write it. A
/// text that does not begin with a tree has no main line.
pub fn main_lines_are_of_first_trees()
    ensures { (text : List ℕ) (nodes : List Node) → main_line text ≡ Some nodes ↔ IsMainLine text nodes }
{}

/// A text begins with at most one tree, however its bytes are cut into blanks, names and values.
pub fn a_text_has_one_first_tree()
    ensures { (text : List ℕ) (t u : Tree) → IsFirstTree text t → IsFirstTree text u → t ≡ u }
{}

/// After the setup of a node a point holds what the last value says whose rectangle has the point. If no rectangle has
/// it, the point holds what it held before.
pub fn the_last_value_sets_a_point()
    ensures last { (s p : ℕ) (cells : List Cell) (before after : List Use) (cell : Cell) (value : List ℕ) → p < s * s
        → sets s p (Setup cell, value) ≡ true → list_any (sets s p) after ≡ false
        → cell_at (cells_after_uses s cells (before ++ (Setup cell, value) ∷ after)) p ≡ cell }
    ensures none { (s p : ℕ) (cells : List Cell) (uses : List Use) → p < s * s → list_any (sets s p) uses ≡ false
        → cell_at (cells_after_uses s cells uses) p ≡ cell_at cells p }
{}

/// A record has the fault of the first kind that applies: the grammar's exactly if the text begins with no tree, the
/// size's exactly if its main line says no size, and else the fault of the first node that has one. The fault of a node
/// is a value that cannot be read, else a string without a liberty after the node's setup, else a play that is refused
/// after the setup and the moves before it.
pub fn faults_are_by_kind()
    ensures grammar { (text : List ℕ) → (game_of text ≡ Err Grammar) ↔ ((t : Tree) → IsFirstTree text t → ⊥) }
    ensures size { (text : List ℕ) (nodes : List Node) → IsMainLine text nodes
        → (game_of text ≡ Err BadSize) ↔ (size_of_nodes nodes ≡ None) }
    ensures nodes { (text : List ℕ) (nodes : List Node) (s : ℕ) → IsMainLine text nodes
        → size_of_nodes nodes ≡ Some s → game_of text ≡ after_nodes (empty_board s) nodes }
    ensures first { (pos now : BoardState) (earlier later : List Node) (n : Node) (kind : FaultKind)
        → after_nodes pos earlier ≡ Ok now → after_node now (uses_in n) ≡ Err kind
        → after_nodes pos (earlier ++ n ∷ later) ≡ Err kind }
    ensures value { (pos : BoardState) (uses : List Use)
        → (after_node pos uses ≡ Err BadValue) ↔ (list_all (is_readable pos.size) uses ≡ false) }
    ensures liberty { (pos : BoardState) (uses : List Use) → list_all (is_readable pos.size) uses ≡ true
        → (after_node pos uses ≡ Err NoLiberty) ↔ HasDeadSetup pos uses }
    ensures refused { (pos now : BoardState) (uses : List Use) → list_all (is_readable pos.size) uses ≡ true
        → after_setup pos uses ≡ Ok now → (after_node pos uses ≡ Err IllegalPlay) ↔ HasRefusedPlay now uses }
{}

/// The game of a record goes on from the position of its first node, by the other nodes of its main line. So a fault up
/// to the first node is a fault of the record.
pub fn records_go_on_from_their_first_node()
    ensures { (text : List ℕ) (n : Node) (ns : List Node) → IsMainLine text (n ∷ ns)
        → game_of text ≡ and_then (first_position_of text) (λ now. after_nodes now ns) }
{}
