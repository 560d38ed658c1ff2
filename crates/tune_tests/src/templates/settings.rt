//! The names, the settings and the spans of a template.

use crate::fixtures::{ONE_IMP, TWO_CONSTANTS};
use std::test::Fail;
use tune_template::Template;

// Returns whether there is a setting at `index`, with these values.
fn is_vector(template: &Template, index: u32, values: &[i64]) -> bool {
    if index >= template.count() {
        return false;
    }
    template.vector(index).as_slice() == values
}

// The settings of two constants: an index, and the two values. The first constant changes slowest.
const VECTORS: [(u32, i64, i64); 6] = [
    (0, 0, 5),
    (1, 0, 7),
    (2, 0, 9),
    (3, 1, 5),
    (4, 1, 7),
    (5, 1, 9),
];

// Returns whether a template has two constants, of these names.
fn has_names(template: &Template, first: &[u8], second: &[u8]) -> bool {
    match template.names() {
        [one, other] => one.as_slice() == first && other.as_slice() == second,
        _ => false,
    }
}

#[test]
fn vectors_are_in_order(rt: HostRuntime) -> Result<(), Fail> {
    let template = Template::read(rt.alloc(), TWO_CONSTANTS)?;
    assert!(rt; has_names(&template, b"A", b"B"));
    assert_eq!(rt; template.count(), 6);
    assert_eq!(rt; template.start_number(), 5);
    for &(index, first, second) in &VECTORS {
        assert!(rt; is_vector(&template, index, &[first, second]), "{index}");
    }
    let single = Template::read(rt.alloc(), ONE_IMP)?;
    assert!(rt; is_vector(&single, 0, &[]));
    Ok(())
}

#[test]
fn spans_have_counts_and_values(rt: HostRuntime) -> Result<(), Fail> {
    let template = Template::read(rt.alloc(), b";@tune A -3 3 2 1\n;@tune B 5 5 1 5\n")?;
    match template.spans() {
        [first, second] => {
            assert_eq!(rt; (first.count, first.start), (4, 2));
            assert_eq!(rt; first.value_at(first.start), 1);
            assert_eq!(rt; first.value_at(3), 3);
            assert_eq!(rt; (second.count, second.start), (1, 0));
        }
        _ => assert!(rt; false, "there are not two spans"),
    }
    Ok(())
}
