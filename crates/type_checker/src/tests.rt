use crate::check;
use crate::expression::part_of;
use clf_base::{List, Refusal, Span};
use clf_tree::{Expr, Form, Kind, Model, Named, Within};
use sqlite_items::Boxed;
use std::test::Fail;

fn at(column: u32) -> Span {
    Span { line: 1, column }
}

fn three(column: u32) -> Expr {
    Expr {
        at: at(column),
        form: Form::Literal(3),
    }
}

#[test]
fn a_model_without_rules_is_typed(rt: HostRuntime) -> Result<(), Fail> {
    let alloc = rt.alloc();
    let named = Named::new(Model {
        clafers: List::new(alloc),
        rules: List::new(alloc),
        goals: List::new(alloc),
    });
    let typed = check(alloc, named)?;
    assert!(rt; typed.model().rules.is_empty());
    Ok(())
}

// #3
#[test]
fn an_integer_has_no_nodes_to_count(rt: HostRuntime) -> Result<(), Fail> {
    let alloc = rt.alloc();
    let clafers = List::new(alloc);
    let within = Within {
        this: None,
        bound: List::new(alloc),
    };
    let count = Expr {
        at: at(2),
        form: Form::Card(Boxed::new(alloc, three(3))?),
    };
    let part = part_of(alloc, &clafers, &within, &count)?;
    assert_eq!(rt; part.at, at(2));
    assert!(rt; matches!(part.kind, Some(Kind::Integer)));
    let refused = part.refused
        == Some(Refusal {
            code: 72,
            at: at(3),
            value: 0,
        });
    assert!(rt; refused);
    Ok(())
}
