use crate::{added, exactly, negated, product, room, subtracted, sum_between, up_to, whole, width};
use clf_base::List;
use clf_tree::{Bounds, Scopes};
use std::test::Fail;

#[test]
fn widths_are_the_least(rt: HostRuntime) -> Result<(), Fail> {
    assert_eq!(rt; width(Bounds { low: 0, high: 0 }), 1);
    assert_eq!(rt; width(Bounds { low: -1, high: 0 }), 1);
    assert_eq!(rt; width(Bounds { low: 0, high: 1 }), 2);
    assert_eq!(rt;
        width(Bounds {
            low: -2048,
            high: 2047
        }),
        12
    );
    assert_eq!(rt; width(Bounds { low: 0, high: 2048 }), 13);
    Ok(())
}

#[test]
fn intervals_of_sums_and_products(rt: HostRuntime) -> Result<(), Fail> {
    let a = Bounds { low: -3, high: 2 };
    let b = exactly(5);
    assert_eq!(rt; added(a, b), Bounds { low: 2, high: 7 });
    assert_eq!(rt; subtracted(b, a), Bounds { low: 3, high: 8 });
    assert_eq!(rt; negated(a), Bounds { low: -2, high: 3 });
    assert_eq!(rt; product(a, a), Bounds { low: -6, high: 9 });
    assert_eq!(rt; whole(a, b), Bounds { low: -3, high: 5 });
    assert_eq!(rt; up_to(4), Bounds { low: 0, high: 4 });
    Ok(())
}

#[test]
fn nothing_has_no_room(rt: HostRuntime) -> Result<(), Fail> {
    let alloc = rt.alloc();
    let scopes = Scopes {
        of: List::new(alloc),
        low: -8,
        high: 7,
    };
    assert_eq!(rt; room(&List::new(alloc), &scopes, &List::new(alloc)), 0);
    assert_eq!(rt; sum_between(&scopes, 2), Bounds { low: -16, high: 14 });
    Ok(())
}
