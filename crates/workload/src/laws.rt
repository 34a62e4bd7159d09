//! A law of the generated lines. The function's contract says it, and its body does nothing.

ghost use Rattle.std.specs.Prelude.{ℕ, ◌<◌, ◌≤◌, ◌^◌, length};
ghost use Rattle.workload.specs.GeneratedLines.{generated_text};

/// At most 100,000 lines may be generated, and they have fewer than 2^32 bytes.
pub fn generated_lines_fit_the_input()
    ensures { (n : ℕ) → n ≤ 100000 → length (generated_text n) < 2 ^ 32 }
{}
