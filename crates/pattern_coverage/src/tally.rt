//! Counts the ends of single tries, for each pattern of a list and each part.
ghost use Rattle.std.specs.Prelude.{◌≡◌, [], ◌∷◌, ◌++◌, List, length, IfOk};
ghost use Rattle.pattern_coverage.specs.declared.ends.End.{End as EndSeen};
ghost use Rattle.pattern_coverage.specs.Tally.{IsTallyOf};

use crate::counts::PartCounts;
use crate::ends::End;
use go_base::NoMemory;
use std::alloc::Global;

/// Counts the `end` of a try, for its pattern.
fn add_end(counts: &mut Vec<PartCounts>, end: End)
    ensures length { length counts.new.items ≡ length counts.old.items }
    ensures more { (ends : List EndSeen) → IsTallyOf ends counts.old.items
        → IsTallyOf (ends ++ end ∷ []) counts.new.items }
{
    let place = end.pattern as usize;
    if place < counts.len() {
        let mut one = counts[place];
        one.count(end.part as usize);
        counts[place] = one;
    }
}

/// The number of these `ends` at each part, for each of this number of `patterns`.
pub(crate) fn tally(
    alloc: Global,
    patterns: usize,
    ends: &[End],
) -> Result<Vec<PartCounts>, NoMemory>
    ensures length { IfOk result (λ counts. length counts.items ≡ patterns) }
    ensures tally { IfOk result (λ counts. IsTallyOf ends.now counts.items) }
{
    let mut counts = vec![in alloc; PartCounts::new(); patterns]?;
    'ends: for end in ends {
        add_end(&mut counts, *end);
    }
    Ok(counts)
}
