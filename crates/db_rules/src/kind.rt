//! The kinds of fault of a database text.

ghost use Rattle.std.specs.Prelude.{◌≡◌};
ghost use Rattle.db_rules.specs.Kinds.{number_of, first_of as first_that_fits};

/// What is at fault in a database text. Each kind has a number from 1 to 18, by which it is reported.
#[derive(Clone, Copy, Debug, PartialEq, Eq)]
pub enum FaultKind {
    /// A byte that no line may have.
    BadByte,
    /// A line of a kind that may not stand here.
    StrayLine,
    /// A Pattern line without a name, or with one that is too long or has a byte that no name has.
    NoName,
    /// A colon line after a diagram without a row.
    NoDiagram,
    /// A diagram line of another width than the first.
    Ragged,
    /// A diagram line that is neither an edge line nor a row.
    BadLetter,
    /// A diagram whose number of `*` is not one.
    MoveCount,
    /// An edge where none may stand, or one that is missing on a side.
    EdgePlace,
    /// A diagram line longer than the largest board is wide, or one that follows as many lines as that board has rows.
    TooLarge,
    /// A pattern that ends before its colon line.
    NoColonLine,
    /// A first field that is none of the eight marks.
    BadMark,
    /// A second field of more than 32 bytes, or with a byte that is neither an ASCII letter nor `-`.
    BadClass,
    /// More than 16 further fields, or one that is not an item.
    BadItem,
    /// A constraint diagram that does not repeat the main diagram.
    ConstraintShape,
    /// A constraint expression that is not in the grammar, is too deep, calls a name that is no function, or calls a
    /// function with arguments that it does not take.
    ExprFault,
    /// An argument of a constraint expression that is no label of the constraint diagram.
    UnknownLabel,
    /// A further field without parentheses that is neither the name of a helper nor `NULL`.
    UnknownHelper,
    /// A Pattern line that begins the 4,097th entry.
    TooManyPatterns,
}

impl FaultKind {
    /// The kind of the first test that passes, if one passes.
    pub fn first_of(tests: &[(bool, FaultKind)]) -> Option<FaultKind>
        ensures { result ≡ first_that_fits tests.now }
    {
        for (fits, kind) in tests {
            if *fits {
                return Some(*kind);
            }
        }
        None
    }

    /// The number by which the kind is reported, from 1 to 18.
    pub fn number(self) -> u8
        ensures { result ≡ number_of self }
    {
        match self {
            FaultKind::BadByte => 1,
            FaultKind::StrayLine => 2,
            FaultKind::NoName => 3,
            FaultKind::NoDiagram => 4,
            FaultKind::Ragged => 5,
            FaultKind::BadLetter => 6,
            FaultKind::MoveCount => 7,
            FaultKind::EdgePlace => 8,
            FaultKind::TooLarge => 9,
            FaultKind::NoColonLine => 10,
            FaultKind::BadMark => 11,
            FaultKind::BadClass => 12,
            FaultKind::BadItem => 13,
            FaultKind::ConstraintShape => 14,
            FaultKind::ExprFault => 15,
            FaultKind::UnknownLabel => 16,
            FaultKind::UnknownHelper => 17,
            FaultKind::TooManyPatterns => 18,
        }
    }
}
