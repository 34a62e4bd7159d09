//! A position with trial moves that can be taken back.

ghost use Rattle.std.specs.Prelude.{◌≡◌, ℕ, ◌+◌, ◌*◌, ◌-◌, ◌^◌, ◌<◌, min, not, ◌&&◌};
ghost use Rattle.std.specs.Prelude.{[], ◌∷◌, length, ◌↔◌, IsNone, IfSome};
ghost use Rattle.std.specs.FinSet as set;
ghost use Rattle.go_rules.specs.Strings.{cell_at, string_at, liberty_points};
ghost use Rattle.go_rules.specs.Neighbourhood.{neighbourhood_of};
ghost use Rattle.go_base.specs.Surroundings.{is_last_liberty_of_enemy};
ghost use Rattle.go_base.specs.Views.{alone};
ghost use Rattle.trial_board.specs.Overlays.{neighbourhood_twice};
ghost use Rattle.go_rules.specs.Position.{BoardState, IsPosition, is_banned};
ghost use Rattle.go_rules.specs.Play.{play_free};
ghost use Rattle.go_base.specs.Facts.{Agrees, Grows, AddsIn, AddsNoBan, AddsBanOf};
ghost use Rattle.go_base.specs.Floods.{enemy_points};
ghost use Rattle.trial_board.specs.declared.moves.TrialMove.{TrialMove};
ghost use Rattle.trial_board.specs.SomeLiberties.{FindsLiberties};
ghost use Rattle.trial_board.specs.Trials.{Trying, KeepsTrial, Moved, IsNoted, Put, most_moves, after, tried};
ghost use Rattle.trial_board.specs.Trials.{tried_free};
ghost use Rattle.trial_board.specs.Trials.{made_or_suicide, tail, is_some_move};
ghost use Rattle.trial_board.specs.Changed.{changed};
ghost use Rattle.trial_board.specs.Boundary.{boundary_points};

use crate::boundary::boundary_of;
use crate::captured::{MAX_CAPTURED, note, nothing_captured};
use crate::changes::{Changes, changes_of};
use crate::moves::{MAX_TRIAL_MOVES, TrialMove, TrialPlay, Tried};
use crate::overlay::Overlay;
use crate::undo::{Undo, nothing_kept};
use go_base::ban::is_banned;
use go_base::capture::play_on;
use go_base::flood::{Found, flood, liberties_of, search};
use go_base::points::PointSet;
use go_base::size::{Point, Size};
use go_base::surroundings::{Surroundings, surroundings_of};
use go_base::view::View;
use go_base::{Cell, Colour, Look};
use std::marker::Model;

/// A position with trial moves that can be taken back, GNU Go's `trymove` and `popgo`. It holds its view of the
/// position, and asks it for a point only if a string or a play needs it. The stones that a move took are kept, so that
/// taking it back puts them again. Everything is kept in place, in some 5 KB, and nothing takes memory.
pub struct Trial<L: Look> {
    /// The view, the cells that it gave so far, and what the standing moves put over it.
    board: Overlay<L>,
    /// The ban after the newest move; before the first move the view is asked.
    ban: Option<(Point, Colour)>,
    /// The first `standing` of these are the moves that stand, the oldest first, each with the stones that it took and
    /// the ban before it.
    kept: [Undo; MAX_TRIAL_MOVES],
    /// How many moves stand.
    standing: u8,
    /// The first `captured` of these are the points of the stones that the standing moves took, move by move.
    row: [Point; MAX_CAPTURED],
    /// How many stones the standing moves took.
    captured: u16,
    /// How many plays were tried.
    trials: u64,
}

impl<L: Look> Model for Trial<L> {
    ghost use Rattle.trial_board.specs.Trials.{Trying};

    ghost Value = { Trying L };

    ghost use Rattle.trial_board.specs.Standing.{newest_first, IsStanding};

    ghost view = { λ t. record { look = t.board.look; moves = newest_first t.kept t.standing; count = t.trials } };

    ghost invariant = { λ t.
        IsStanding (L.seen t.board.look) t.board.known t.ban t.kept t.row t.captured t.standing };
}

/// Whether a play is refused for the ban: it is banned, and `allow` does not let the ban be dropped.
fn is_refused(banned: bool, allow: bool) -> bool
    ensures { result ≡ (banned && not allow) }
{
    banned && !allow
}

impl<L: Look> Trial<L> {
    /// The position that the view shows, with no trial moves. It is built in place.
    #[inline(always)]
    pub fn new(look: L) -> Self
        ensures { result ≡ record { look = look; moves = []; count = 0 } }
    {
        Trial {
            board: Overlay::new(look),
            ban: None,
            kept: nothing_kept(),
            standing: 0,
            row: nothing_captured(),
            captured: 0,
            trials: 0,
        }
    }

    /// Returns the view as it is now.
    pub fn finish(self) -> L
        ensures { result ≡ self.look }
    {
        let Trial {
            board,
            ban: _,
            kept: _,
            standing: _,
            row: _,
            captured: _,
            trials: _,
        } = self;
        let Overlay { look, known: _ } = board;
        look
    }

    /// The size of the position. It looks at no point.
    pub fn size(&self) -> Size
        ensures { result ≡ (L.shows self.now.look).size }
    {
        self.board.size()
    }

    /// How many plays were tried, refused plays included. The count stops at the greatest number.
    pub fn trials(&self) -> u64
        ensures { result ≡ self.now.count }
    {
        self.trials
    }

    /// What stands at `p` after the trial moves, which lead to a position.
    pub fn cell(&mut self, p: Point) -> Cell
        requires { p < (L.shows self.old.look).size * (L.shows self.old.look).size }
        ensures stays { KeepsTrial L.shows L.seen self.old self.new }
        ensures count { self.new.count ≡ self.old.count }
        ensures over { (pos : BoardState) → Agrees (L.seen self.new.look) pos
            → result ≡ cell_at (after pos self.old.moves).cells p }
        ensures answer { result ≡ cell_at (after (L.shows self.old.look) self.old.moves).cells p }
        ensures sound { (pos : BoardState) → Agrees (L.seen self.new.look) pos
            → IsPosition (after pos self.old.moves) }
        ensures near { AddsIn (L.seen self.old.look) (L.seen self.new.look) (alone p) }
        ensures no_ban { AddsNoBan (L.seen self.old.look) (L.seen self.new.look) }
    {
        self.board.at(p)
    }

    /// The string of `p`, its liberties and the enemy stones next to it. All three sets are empty if `p` is empty.
    pub fn string(&mut self, p: Point) -> Found
        requires { p < (L.shows self.old.look).size * (L.shows self.old.look).size }
        ensures stays { KeepsTrial L.shows L.seen self.old self.new }
        ensures count { self.new.count ≡ self.old.count }
        ensures over { (pos : BoardState) → Agrees (L.seen self.new.look) pos
            → (result.stones ≡ string_at pos.size (after pos self.old.moves).cells p)
            × (result.liberties ≡ liberty_points pos.size (after pos self.old.moves).cells p)
            × (result.enemies ≡ enemy_points pos.size (after pos self.old.moves).cells p) }
        ensures answer { (result.stones ≡ string_at (L.shows self.old.look).size
            (after (L.shows self.old.look) self.old.moves).cells p)
            × (result.liberties ≡ liberty_points (L.shows self.old.look).size
            (after (L.shows self.old.look) self.old.moves).cells p)
            × (result.enemies ≡ enemy_points (L.shows self.old.look).size
            (after (L.shows self.old.look) self.old.moves).cells p) }
        ensures near { (pos : BoardState) → Agrees (L.seen self.new.look) pos
            → AddsIn (L.seen self.old.look) (L.seen self.new.look)
            (neighbourhood_of pos.size (after pos self.old.moves).cells (alone p)) }
        ensures no_ban { AddsNoBan (L.seen self.old.look) (L.seen self.new.look) }
    {
        flood(&mut self.board, p)
    }

    /// The least point of each enemy string next to the string of `p`; none if `p` is empty.
    pub fn boundary(&mut self, p: Point) -> PointSet
        requires { p < (L.shows self.old.look).size * (L.shows self.old.look).size }
        ensures stays { KeepsTrial L.shows L.seen self.old self.new }
        ensures count { self.new.count ≡ self.old.count }
        ensures over { (pos : BoardState) → Agrees (L.seen self.new.look) pos
            → result ≡ boundary_points pos.size (after pos self.old.moves).cells p }
        ensures answer { result ≡ boundary_points (L.shows self.old.look).size
            (after (L.shows self.old.look) self.old.moves).cells p }
        ensures near { (pos : BoardState) → Agrees (L.seen self.new.look) pos
            → AddsIn (L.seen self.old.look) (L.seen self.new.look)
            (neighbourhood_twice pos.size (after pos self.old.moves).cells p) }
        ensures no_ban { AddsNoBan (L.seen self.old.look) (L.seen self.new.look) }
    {
        boundary_of(&mut self.board, p)
    }

    /// The liberties of the string of `p`; none if `p` is empty.
    pub fn liberties(&mut self, p: Point) -> PointSet
        requires { p < (L.shows self.old.look).size * (L.shows self.old.look).size }
        ensures stays { KeepsTrial L.shows L.seen self.old self.new }
        ensures count { self.new.count ≡ self.old.count }
        ensures over { (pos : BoardState) → Agrees (L.seen self.new.look) pos
            → result ≡ liberty_points pos.size (after pos self.old.moves).cells p }
        ensures answer { result ≡ liberty_points (L.shows self.old.look).size
            (after (L.shows self.old.look) self.old.moves).cells p }
        ensures near { (pos : BoardState) → Agrees (L.seen self.new.look) pos
            → AddsIn (L.seen self.old.look) (L.seen self.new.look)
            (neighbourhood_of pos.size (after pos self.old.moves).cells (alone p)) }
        ensures no_ban { AddsNoBan (L.seen self.old.look) (L.seen self.new.look) }
    {
        liberties_of(&mut self.board, p)
    }

    /// The liberties of the string of `p` if it has at most `most`; none if `p` is empty. If the string has more, the
    /// result has more points than `most`, and the search stops once it has seen so many.
    pub fn some_liberties(&mut self, p: Point, most: u16) -> PointSet
        requires { p < (L.shows self.old.look).size * (L.shows self.old.look).size }
        ensures stays { KeepsTrial L.shows L.seen self.old self.new }
        ensures count { self.new.count ≡ self.old.count }
        ensures over { (pos : BoardState) → Agrees (L.seen self.new.look) pos
            → FindsLiberties pos.size (after pos self.old.moves).cells p most result }
        ensures answer { FindsLiberties (L.shows self.old.look).size
            (after (L.shows self.old.look) self.old.moves).cells p most result }
        ensures near { (pos : BoardState) → Agrees (L.seen self.new.look) pos
            → AddsIn (L.seen self.old.look) (L.seen self.new.look)
            (neighbourhood_of pos.size (after pos self.old.moves).cells (alone p)) }
        ensures no_ban { AddsNoBan (L.seen self.old.look) (L.seen self.new.look) }
    {
        let found = search(&mut self.board, p, most);
        found.liberties
    }

    /// The liberties of the string of `p` and the last liberties of the enemy strings next to it. Both sets are empty
    /// if `p` is empty.
    pub fn surroundings(&mut self, p: Point) -> Surroundings
        requires { p < (L.shows self.old.look).size * (L.shows self.old.look).size }
        ensures stays { KeepsTrial L.shows L.seen self.old self.new }
        ensures count { self.new.count ≡ self.old.count }
        ensures over { (pos : BoardState) → Agrees (L.seen self.new.look) pos
            → (result.liberties ≡ liberty_points pos.size (after pos self.old.moves).cells p)
            × ((l : ℕ) → set.contains result.last_liberties l
            ≡ is_last_liberty_of_enemy pos.size (after pos self.old.moves).cells p l) }
        ensures answer { (result.liberties ≡ liberty_points (L.shows self.old.look).size
            (after (L.shows self.old.look) self.old.moves).cells p)
            × ((l : ℕ) → set.contains result.last_liberties l
            ≡ is_last_liberty_of_enemy (L.shows self.old.look).size
            (after (L.shows self.old.look) self.old.moves).cells p l) }
        ensures near { (pos : BoardState) → Agrees (L.seen self.new.look) pos
            → AddsIn (L.seen self.old.look) (L.seen self.new.look)
            (neighbourhood_twice pos.size (after pos self.old.moves).cells p) }
        ensures no_ban { AddsNoBan (L.seen self.old.look) (L.seen self.new.look) }
    {
        surroundings_of(&mut self.board, p)
    }

    /// Whether the ban forbids `c` to play at `p`.
    pub fn bans(&mut self, c: Colour, p: Point) -> bool
        requires { p < (L.shows self.old.look).size * (L.shows self.old.look).size }
        ensures stays { KeepsTrial L.shows L.seen self.old self.new }
        ensures count { self.new.count ≡ self.old.count }
        ensures over { (pos : BoardState) → Agrees (L.seen self.new.look) pos
            → result ≡ is_banned (after pos self.old.moves).ban c p }
        ensures answer { result ≡ is_banned (after (L.shows self.old.look) self.old.moves).ban c p }
        ensures near { AddsIn (L.seen self.old.look) (L.seen self.new.look) (alone p) }
        ensures its_ban { AddsBanOf (L.seen self.old.look) (L.seen self.new.look) p c }
    {
        if self.standing == 0 {
            return self.board.look.ko(p, c);
        }
        is_banned(self.ban, c, p)
    }

    /// What the standing moves changed of the position; `None` exactly if no move stands, as the ban of the position is
    /// not known then. It looks at no point.
    pub fn changes(&self) -> Option<Changes>
        ensures none { IsNone result ↔ (self.now.moves ≡ []) }
        ensures over { (pos : BoardState) → Agrees (L.seen self.now.look) pos
            → IfSome result (λ c. after pos self.now.moves ≡ changed pos c) }
    {
        if self.standing == 0 {
            return None;
        }
        Some(changes_of(
            &self.board.known,
            &self.kept,
            self.standing,
            &self.row,
            self.ban,
        ))
    }

    /// Adds a pass, which lifts the ban.
    pub fn pass(&mut self)
        requires { length self.old.moves < most_moves }
        ensures { self.new ≡ record self.old { moves = TrialMove.Pass ∷ self.old.moves } }
    {
        self.kept[self.standing as usize] = Undo::new(TrialMove::Pass, self.ban, self.captured, 0);
        self.standing += 1;
        self.ban = None;
    }

    /// Takes the last trial move back, with its captures and its ban. The answer is false exactly if no trial move is
    /// left. It looks at no point.
    pub fn back(&mut self) -> bool
        ensures some { result ≡ is_some_move self.old.moves }
        ensures moves { self.new ≡ record self.old { moves = tail self.old.moves } }
    {
        if self.standing == 0 {
            return false;
        }
        self.standing -= 1;
        let last = self.kept[self.standing as usize];
        last.take_back(&self.row, &mut self.board);
        self.captured = last.first();
        self.ban = last.ban();
        true
    }

    /// Counts one more play.
    fn count_one(&mut self)
        ensures { self.new ≡ record self.old { count = min (self.old.count + 1) (2 ^ 64 - 1) } }
    {
        self.trials = self.trials.saturating_add(1);
    }

    /// Puts a stone of `c` at `p` with no regard to the ban, unless that is suicide. The answer is whether the stone
    /// was put.
    fn put(&mut self, c: Colour, p: Point, dropped: bool) -> bool
        requires room { length self.old.moves < most_moves }
        requires on_board { p < (L.shows self.old.look).size * (L.shows self.old.look).size }
        requires dropped { (pos : BoardState) → Agrees (L.seen self.old.look) pos
            → dropped ≡ is_banned (after pos self.old.moves).ban c p }
        ensures shown { L.shows self.new.look ≡ L.shows self.old.look }
        ensures grows { Grows (L.seen self.old.look) (L.seen self.new.look) }
        ensures count { self.new.count ≡ self.old.count }
        ensures moves { Put result (TrialMove.Play (record { colour = c; at = p; dropped = dropped })) self.old.moves
            self.new.moves }
        ensures over { (pos : BoardState) → Agrees (L.seen self.new.look) pos
            → tried_free (after pos self.old.moves) (play_free (after pos self.old.moves) c p)
            ≡ (made_or_suicide result, after pos self.new.moves) }
        ensures near { (pos : BoardState) → Agrees (L.seen self.new.look) pos
            → AddsIn (L.seen self.old.look) (L.seen self.new.look)
            (neighbourhood_twice pos.size (after pos self.old.moves).cells p) }
        ensures no_ban { AddsNoBan (L.seen self.old.look) (L.seen self.new.look) }
    {
        match play_on(&mut self.board, c, p) {
            Ok(played) => {
                note(&mut self.row, self.captured, &played.taken);
                let taken = played.taken.count();
                let made = TrialMove::Play(TrialPlay {
                    colour: c,
                    at: p,
                    dropped,
                });
                self.kept[self.standing as usize] = Undo::new(made, self.ban, self.captured, taken);
                self.standing += 1;
                self.captured += taken;
                self.ban = played.ban;
                true
            }
            Err(_) => false,
        }
    }

    /// Plays `c` at `p`; if `allow` is set, also if the ban alone forbids the play. The play is refused for the first
    /// of these reasons: a stone stands at `p`, the ban forbids the play and `allow` is not set, or the play is
    /// suicide. A refused play leaves the trial moves as they are, and counts as tried. The trial move notes that a ban
    /// was dropped for it exactly if the ban forbade the play.
    pub fn play(&mut self, c: Colour, p: Point, allow: bool) -> Tried
        requires room { length self.old.moves < most_moves }
        requires on_board { p < (L.shows self.old.look).size * (L.shows self.old.look).size }
        ensures shown { L.shows self.new.look ≡ L.shows self.old.look }
        ensures grows { Grows (L.seen self.old.look) (L.seen self.new.look) }
        ensures count { self.new.count ≡ min (self.old.count + 1) (2 ^ 64 - 1) }
        ensures moves { Moved result c p self.old.moves self.new.moves }
        ensures noted { (pos : BoardState) → Agrees (L.seen self.new.look) pos
            → IsNoted result (is_banned (after pos self.old.moves).ban c p) self.new.moves }
        ensures noted_here { IsNoted result (is_banned (after (L.shows self.old.look) self.old.moves).ban c p)
            self.new.moves }
        ensures over { (pos : BoardState) → Agrees (L.seen self.new.look) pos
            → tried (after pos self.old.moves) c p allow ≡ (result, after pos self.new.moves) }
        ensures answer { tried (after (L.shows self.old.look) self.old.moves) c p allow
            ≡ (result, after (L.shows self.old.look) self.new.moves) }
        ensures near { (pos : BoardState) → Agrees (L.seen self.new.look) pos
            → AddsIn (L.seen self.old.look) (L.seen self.new.look)
            (neighbourhood_twice pos.size (after pos self.old.moves).cells p) }
        ensures its_ban { AddsBanOf (L.seen self.old.look) (L.seen self.new.look) p c }
    {
        self.count_one();
        if self.cell(p) != Cell::Empty {
            return Tried::Occupied;
        }
        let dropped = self.bans(c, p);
        if is_refused(dropped, allow) {
            return Tried::Banned;
        }
        if self.put(c, p, dropped) {
            Tried::Done
        } else {
            Tried::Suicide
        }
    }
}
