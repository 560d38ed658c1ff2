//! Calls that take no memory: a template is looked at.
use crate::fixtures::{THREE_UNEQUAL, ask, use_up};
use std::test::Fail;
use tune_template::{Template, is_range_line};

// Returns the value of the last setting of a template with one constant, by its two calls.
fn last_values(template: &Template) -> Option<(i64, i64)> {
    prove!(0 < template.count());
    let last = template.count() - 1;
    let vector = template.vector(last);
    match (vector.as_slice(), template.spans()) {
        ([value], [span]) => Some((*value, span.value_at(last))),
        _ => None,
    }
}

#[test]
fn templates_are_looked_at(rt: HostRuntime) -> Result<(), Fail> {
    let template = Template::read(rt.alloc(), THREE_UNEQUAL)?;
    use_up(rt.alloc())?;
    assert!(rt; is_range_line(b";@tune K 0 2 1 1"));
    assert_eq!(rt; template.text(), THREE_UNEQUAL);
    assert_eq!(rt; (template.count(), template.start_number()), (3, 1));
    assert_eq!(rt; template.names().len(), 1);
    assert_eq!(rt; last_values(&template), Some((2, 2)));
    ask(rt.alloc())
}
