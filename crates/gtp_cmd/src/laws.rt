//! A law of the table of commands. The function's contract says it, and its body does nothing.

ghost use Rattle.std.specs.Prelude.{◌≡◌, Some, All};
ghost use Rattle.gtp_cmd.specs.Commands.{table, named};

/// Each word of the table names the command of its row, so no two commands share a word.
pub fn names_are_told_apart()
    ensures { All (λ row. named row.word ≡ Some row.command) table }
{}
