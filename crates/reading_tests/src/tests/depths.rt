//! The ranges of the depths.

use read_rules::Depths;

/// Plies and wide plies, and whether they may be set.
static DEPTHS: [(u8, u8, bool); 5] = [
    (0, 0, false),
    (1, 0, true),
    (200, 12, true),
    (201, 0, false),
    (10, 13, false),
];

#[test]
fn depths_have_their_ranges(rt: HostRuntime) {
    for &(plies, wide, valid) in &DEPTHS {
        assert!(rt;
            Depths::new(plies, wide).is_some() == valid,
            "{plies} and {wide}"
        );
    }
}
