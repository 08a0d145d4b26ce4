use crate::{Meant, steps_of};
use clf_base::{List, Span};
use clf_tree::Form;
use std::test::Fail;

#[test]
fn a_meaning_is_written_as_steps(rt: HostRuntime) -> Result<(), Fail> {
    let alloc = rt.alloc();
    let at = Span { line: 2, column: 7 };
    let meant = Meant::Below {
        out: 1,
        way: List::from_slice(alloc, &[3])?,
    };
    let expr = steps_of(alloc, at, &meant)?;
    assert_eq!(rt; expr.at, at);
    assert!(rt; matches!(&expr.form, Form::Step { into, .. } if into.as_slice() == [3].as_slice()));
    Ok(())
}
