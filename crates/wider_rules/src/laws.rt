//! What the computing definitions of the further candidates mean, in Go's words. Each function here is a law: its
//! contract is what is proved, and it does nothing.

ghost use Rattle.std.specs.Prelude.{◌≡◌, ◌↔◌, ℕ, ◌*◌, ◌<◌, Bool, IsTrue, false, List};
ghost use Rattle.go_rules.specs.declared.Cell.{Cell};
ghost use Rattle.go_rules.specs.Strings.{cell_at, IsLiberty};
ghost use Rattle.wider_rules.specs.Further.{is_net, is_beside, is_rescue, is_linked, is_join, is_cut, is_cover};
ghost use Rattle.wider_rules.specs.Further.{is_approach};
ghost use Rattle.wider_rules.specs.Further.{is_further};
ghost use Rattle.wider_rules.specs.FurtherInWords.{IsNetAt, IsEnemyBeside, IsWeakEnemy, IsAlly, IsLinkedAt, IsLastAt};
ghost use Rattle.wider_rules.specs.FurtherInWords.{IsCoveredAt, IsApproachAt, IsFurther};
ghost use Rattle.wider_rules.specs.FurtherAreas.{second_area, third_area, fourth_area, near_further};

/// Each set by strings, liberties and neighbours. Net is the empty neighbours of the liberties of a target with exactly
/// three liberties. Beside is the liberties of an enemy string next to the target with at most `most` liberties. Rescue
/// is the last liberty of a string in atari that is next to a weak enemy string, which has at most two liberties and is
/// next to the target, and that is not the target's string. A linked string is another string of the target's colour
/// next to a liberty of the target. Join is the liberties of a linked string with at most `most` liberties. Cut is the
/// last liberty of an enemy string in atari next to a linked string with at most four liberties. Cover is the empty
/// neighbours of the liberties of an enemy string next to the target with two or three liberties. Approach is the
/// liberties of an enemy string with at most two liberties that is next to a point where a stone of the target's colour
/// would be cramped, if that point is a liberty of an enemy string next to the target with at most two liberties. Save
/// has the points of Rescue, and Link those of Join by strings with at most two liberties.
pub fn further_sets_are_by_strings()
    ensures net { (s : ℕ) (cells : List Cell) (target p : ℕ) → target < s * s →
        IsTrue (is_net s cells target p) ↔ ((l : ℕ) × IsNetAt s cells target l p) }
    ensures beside { (most s : ℕ) (cells : List Cell) (target p : ℕ) → target < s * s →
        IsTrue (is_beside most s cells target p)
        ↔ ((q : ℕ) × IsWeakEnemy most s cells target q × IsLiberty s cells q p) }
    ensures rescue { (s : ℕ) (cells : List Cell) (target p : ℕ) → target < s * s →
        IsTrue (is_rescue s cells target p)
        ↔ ((q : ℕ) × (r : ℕ) × IsAlly 2 s cells target q r × IsLastAt s cells r p) }
    ensures linked { (most s : ℕ) (cells : List Cell) (target q : ℕ) → target < s * s → q < s * s →
        IsTrue (is_linked most s cells target q) ↔ ((l : ℕ) × IsLinkedAt most s cells target l q) }
    ensures join { (most s : ℕ) (cells : List Cell) (target p : ℕ) → target < s * s →
        IsTrue (is_join most s cells target p)
        ↔ ((l : ℕ) × (q : ℕ) × IsLinkedAt most s cells target l q × IsLiberty s cells q p) }
    ensures cut { (s : ℕ) (cells : List Cell) (target p : ℕ) → target < s * s →
        IsTrue (is_cut s cells target p)
        ↔ ((l : ℕ) × (q : ℕ) × (r : ℕ) × IsLinkedAt 4 s cells target l q × IsEnemyBeside s cells q r
        × IsLastAt s cells r p) }
    ensures cover { (s : ℕ) (cells : List Cell) (target p : ℕ) → target < s * s →
        IsTrue (is_cover s cells target p) ↔ ((q : ℕ) × (l : ℕ) × IsCoveredAt s cells target q l p) }
    ensures approach { (s : ℕ) (cells : List Cell) (target p : ℕ) → target < s * s →
        IsTrue (is_approach s cells target p)
        ↔ ((q : ℕ) × (l : ℕ) × (r : ℕ) × IsApproachAt s cells target q l r p) }
{}

/// A further candidate of every ply is, at the attacker's turn, a point of Beside by strings with at most two liberties
/// or of Rescue, and at the defender's turn a point of Save or of Cut. If a wide ply is left, the points of Net and
/// Link come in at the attacker's turn, and at the defender's turn those of Beside by strings with at most four
/// liberties, of Join by strings with at most four liberties, of Cover and of Approach.
pub fn further_candidates_are_by_strings()
    ensures further { (wide attacker_to_play : Bool) (s : ℕ) (cells : List Cell) (target p : ℕ) → target < s * s →
        IsTrue (is_further wide attacker_to_play s cells target p)
        ↔ IsFurther wide attacker_to_play s cells target p }
{}

/// A further candidate is an empty point of the board. A target whose point is empty has no further candidates.
pub fn further_candidates_are_empty_points()
    ensures on_board { (wide attacker_to_play : Bool) (s : ℕ) (cells : List Cell) (target p : ℕ) → target < s * s
        → IsTrue (is_further wide attacker_to_play s cells target p) → p < s * s }
    ensures is_empty { (wide attacker_to_play : Bool) (s : ℕ) (cells : List Cell) (target p : ℕ) → target < s * s
        → IsTrue (is_further wide attacker_to_play s cells target p) → cell_at cells p ≡ Cell.Empty }
    ensures of_a_stone { (wide attacker_to_play : Bool) (s : ℕ) (cells : List Cell) (target p : ℕ) → target < s * s
        → cell_at cells target ≡ Cell.Empty → is_further wide attacker_to_play s cells target p ≡ false }
{}

/// Where the sets lie. Net and Beside lie in the neighbourhood of the target's point taken twice; Rescue, Join and
/// Cover in the neighbourhood taken three times, and so do Save and Link, which are sets of the same definitions; Cut
/// and Approach in the neighbourhood taken four times.
pub fn further_candidates_lie_near()
    ensures net { (s : ℕ) (cells : List Cell) (target p : ℕ) → target < s * s
        → IsTrue (is_net s cells target p) → IsTrue (second_area s cells target p) }
    ensures beside { (most s : ℕ) (cells : List Cell) (target p : ℕ) → target < s * s
        → IsTrue (is_beside most s cells target p) → IsTrue (second_area s cells target p) }
    ensures rescue { (s : ℕ) (cells : List Cell) (target p : ℕ) → target < s * s
        → IsTrue (is_rescue s cells target p) → IsTrue (third_area s cells target p) }
    ensures join { (most s : ℕ) (cells : List Cell) (target p : ℕ) → target < s * s
        → IsTrue (is_join most s cells target p) → IsTrue (third_area s cells target p) }
    ensures cover { (s : ℕ) (cells : List Cell) (target p : ℕ) → target < s * s
        → IsTrue (is_cover s cells target p) → IsTrue (third_area s cells target p) }
    ensures cut { (s : ℕ) (cells : List Cell) (target p : ℕ) → target < s * s
        → IsTrue (is_cut s cells target p) → IsTrue (fourth_area s cells target p) }
    ensures approach { (s : ℕ) (cells : List Cell) (target p : ℕ) → target < s * s
        → IsTrue (is_approach s cells target p) → IsTrue (fourth_area s cells target p) }
    ensures further { (wide attacker_to_play : Bool) (s : ℕ) (cells : List Cell) (target p : ℕ) → target < s * s
        → IsTrue (is_further wide attacker_to_play s cells target p)
        → IsTrue (near_further attacker_to_play s cells target p) }
{}
