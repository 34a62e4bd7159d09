//! What a row means to a walk that enters it.
ghost use Rattle.std.specs.Prelude.{◌≡◌, ◌++◌};
ghost use Rattle.dfa_core.specs.RowKinds.{stays_at, kind_with};

/// The kind of a row: what the row means to a walk that enters it. The row's targets and numbers decide it.
#[derive(Clone, Copy, Debug, PartialEq, Eq)]
pub enum RowKind {
    /// The row accepts nothing, and some letter leads on.
    Plain,
    /// The row accepts something.
    Accepting,
    /// The row accepts nothing, and each letter leads back to it.
    Dead,
}

/// Whether each of `targets` is `row` itself.
fn is_never_left(row: usize, targets: [u32; 4]) -> bool
    ensures { result ≡ stays_at row targets }
{
    targets[0] as usize == row
        && targets[1] as usize == row
        && targets[2] as usize == row
        && targets[3] as usize == row
}

/// The kind of `row`, if it has `targets` and accepts the numbers of `first` and `second`.
pub fn kind_of(row: usize, targets: [u32; 4], first: &[u16], second: &[u16]) -> RowKind
    ensures { result ≡ kind_with row targets (first.now ++ second.now) }
{
    if !first.is_empty() || !second.is_empty() {
        return RowKind::Accepting;
    }
    if is_never_left(row, targets) {
        RowKind::Dead
    } else {
        RowKind::Plain
    }
}
