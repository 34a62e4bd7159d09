//! The number of tries of a pattern that end at each part.
ghost use Rattle.std.specs.Prelude.{◌≡◌, ℕ, ◌+◌, ◌-◌, ◌<◌, ◌^◌, ◌==◌, if◌then◌else◌, min, slice_index};

/// The number of ends that a try can have: the six parts, and a match.
pub const ENDS: usize = 7;

/// The number of tries of a pattern that end at each part, and of those that are matches.
#[derive(Clone, Copy, Debug, PartialEq, Eq)]
pub struct PartCounts {
    /// The counts, indexed by the number of the part; the last one counts the matches.
    pub counts: [u64; ENDS],
}

impl PartCounts {
    /// The counts of no tries.
    pub fn new() -> PartCounts
        ensures { (part : ℕ) → part < 7 → slice_index result.counts part ≡ 0 }
    {
        PartCounts { counts: [0; ENDS] }
    }

    /// The number of tries that end at `part`.
    pub fn at(&self, part: usize) -> u64
        ensures { part < 7 → result ≡ slice_index self.now.counts part }
    {
        self.counts.get(part).copied().unwrap_or(0)
    }

    /// The number of all tries, capped at the largest `u64`.
    pub fn all(&self) -> u64
        ensures { result ≡ min (slice_index self.now.counts 0 + (slice_index self.now.counts 1
            + (slice_index self.now.counts 2 + (slice_index self.now.counts 3 + (slice_index self.now.counts 4
            + (slice_index self.now.counts 5 + slice_index self.now.counts 6)))))) (2 ^ 64 - 1) }
    {
        let PartCounts { counts } = *self;
        counts[0]
            .saturating_add(counts[1])
            .saturating_add(counts[2])
            .saturating_add(counts[3])
            .saturating_add(counts[4])
            .saturating_add(counts[5])
            .saturating_add(counts[6])
    }

    /// Counts one try that ends at `part`; the count is capped at the largest `u64`.
    pub fn count(&mut self, part: usize)
        ensures { (other : ℕ) → other < 7 → slice_index self.new.counts other
            ≡ (if other == part then min (slice_index self.old.counts other + 1) (2 ^ 64 - 1)
            else slice_index self.old.counts other) }
    {
        if part < ENDS {
            self.counts[part] = self.counts[part].saturating_add(1);
        }
    }

    /// Adds the tries of another position; each count is capped at the largest `u64`.
    pub fn add(&mut self, more: &PartCounts)
        ensures { (part : ℕ) → part < 7 → slice_index self.new.counts part
            ≡ min (slice_index self.old.counts part + slice_index more.now.counts part) (2 ^ 64 - 1) }
    {
        let PartCounts { counts: old } = *self;
        let PartCounts { counts: more } = *more;
        self.counts = [
            old[0].saturating_add(more[0]),
            old[1].saturating_add(more[1]),
            old[2].saturating_add(more[2]),
            old[3].saturating_add(more[3]),
            old[4].saturating_add(more[4]),
            old[5].saturating_add(more[5]),
            old[6].saturating_add(more[6]),
        ];
    }
}
