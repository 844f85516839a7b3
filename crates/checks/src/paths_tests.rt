// Path rules: the ends of every range, the order of the refusals, and sizes that pass 64 bits.
use crate::outcomes::{refusal_of, refused};
use paths::shape::Shape;
use trees::fault::RuleFault;
use trees::settings::{Coefficient, Scheme, Settings};

const P: u64 = 2147483647;

const UNIT: Coefficient = Coefficient { a: 1, b: 0 };

#[test]
fn cells_are_1_to_256(rt: HostRuntime) {
    assert_eq!(rt;
        refused(Scheme::Thin, [0, 2, 1, 1], &[UNIT]),
        Some((1, None))
    );
    assert_eq!(rt; refused(Scheme::Thin, [1, 2, 1, 1], &[UNIT]), None);
    assert_eq!(rt; refused(Scheme::Fat, [256, 2, 1, 256], &[UNIT]), None);
    assert_eq!(rt;
        refused(Scheme::Thin, [257, 2, 1, 1], &[UNIT]),
        Some((1, None))
    );
}

#[test]
fn children_are_2_to_256(rt: HostRuntime) {
    assert_eq!(rt;
        refused(Scheme::Thin, [4, 1, 1, 1], &[UNIT]),
        Some((1, None))
    );
    assert_eq!(rt; refused(Scheme::Fat, [4, 256, 1, 1], &[UNIT]), None);
    assert_eq!(rt;
        refused(Scheme::Fat, [4, 257, 1, 1], &[UNIT]),
        Some((1, None))
    );
    assert_eq!(rt;
        refused(Scheme::Thin, [4, 4294967298, 1, 1], &[UNIT]),
        Some((1, None))
    );
}

#[test]
fn levels_are_1_to_16_and_tries_1_to_cells(rt: HostRuntime) {
    assert_eq!(rt; refused(Scheme::Thin, [4, 2, 0, 1], &[]), Some((1, None)));
    assert_eq!(rt; refused(Scheme::Thin, [1, 2, 16, 1], &[UNIT; 16]), None);
    assert_eq!(rt;
        refused(Scheme::Thin, [1, 2, 17, 1], &[UNIT; 17]),
        Some((1, None))
    );
    assert_eq!(rt;
        refused(Scheme::Thin, [4, 2, 1, 0], &[UNIT]),
        Some((1, None))
    );
    assert_eq!(rt;
        refused(Scheme::Thin, [4, 2, 1, 5], &[UNIT]),
        Some((1, None))
    );
}

#[test]
fn a_trie_has_as_many_children_as_cells_a_power_of_two(rt: HostRuntime) {
    assert_eq!(rt; refused(Scheme::Trie, [2, 2, 16, 1], &[]), None);
    assert_eq!(rt; refused(Scheme::Trie, [256, 256, 2, 1], &[]), None);
    assert_eq!(rt; refused(Scheme::Trie, [3, 3, 1, 1], &[]), Some((1, None)));
    assert_eq!(rt; refused(Scheme::Trie, [4, 2, 1, 1], &[]), Some((1, None)));
    assert_eq!(rt; refused(Scheme::Trie, [2, 4, 1, 1], &[]), Some((1, None)));
}

#[test]
fn coefficients_are_refused_at_the_lowest_level(rt: HostRuntime) {
    let zero = Coefficient { a: 0, b: 0 };
    let large_a = Coefficient { a: P, b: 0 };
    let large_b = Coefficient { a: P - 1, b: P };
    let largest = Coefficient { a: P - 1, b: P - 1 };
    assert_eq!(rt; refused(Scheme::Thin, [4, 2, 2, 1], &[largest, UNIT]), None);
    assert_eq!(rt;
        refused(Scheme::Thin, [4, 2, 2, 1], &[zero, large_a]),
        Some((2, Some(0)))
    );
    assert_eq!(rt;
        refused(Scheme::Fat, [4, 2, 2, 1], &[UNIT, large_a]),
        Some((2, Some(1)))
    );
    assert_eq!(rt;
        refused(Scheme::Thin, [4, 2, 2, 1], &[UNIT, large_b]),
        Some((2, Some(1)))
    );
    assert_eq!(rt;
        refused(Scheme::Thin, [4, 2, 2, 1], &[UNIT]),
        Some((2, Some(1)))
    );
    assert_eq!(rt;
        refused(Scheme::Thin, [4, 2, 2, 1], &[UNIT; 3]),
        Some((2, Some(2)))
    );
    assert_eq!(rt;
        refused(Scheme::Trie, [4, 4, 2, 1], &[UNIT]),
        Some((2, Some(0)))
    );
}

#[test]
fn setting_goes_before_coefficient_before_size(rt: HostRuntime) {
    assert_eq!(rt;
        refused(Scheme::Thin, [256, 257, 16, 1], &[]),
        Some((1, None))
    );
    assert_eq!(rt;
        refused(Scheme::Thin, [256, 256, 16, 1], &[]),
        Some((2, Some(0)))
    );
    assert_eq!(rt;
        refused(Scheme::Thin, [256, 256, 16, 1], &[UNIT; 16]),
        Some((3, None))
    );
    assert_eq!(rt;
        refused(Scheme::Fat, [17, 2, 16, 1], &[UNIT; 16]),
        Some((3, None))
    );
    assert_eq!(rt; refused(Scheme::Fat, [16, 2, 16, 1], &[UNIT; 16]), None);
}

// The first cell of a level where m = 17, k = 2 and L = 16.
fn first_cell(level: u32) -> Result<u32, RuleFault> {
    let settings = Settings {
        scheme: Scheme::Thin,
        cells: 17,
        children: 2,
        levels: 16,
        tries: 1,
    };
    Shape::new(settings)?.first_cell(level)
}

#[test]
fn a_level_begins_where_the_one_above_ends(rt: HostRuntime) {
    assert_eq!(rt; first_cell(0).ok(), Some(0));
    assert_eq!(rt; first_cell(3).ok(), Some(119));
    assert_eq!(rt; first_cell(15).ok(), Some(557039));
    assert_eq!(rt; refusal_of(first_cell(16)), Some((3, None)));
    assert_eq!(rt; refusal_of(first_cell(17)), Some((1, None)));
}
