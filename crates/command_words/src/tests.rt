use crate::words_of;
use std::alloc::{AllocError, Global};
use std::test::Fail;

fn words(alloc: Global, texts: &[&str]) -> Result<Vec<String>, AllocError> {
    texts
        .iter()
        .map(|text| text.to_string(alloc))
        .try_collect(alloc)
}

// Words that have no reading.
const NONE: [&[&str]; 24] = [
    &["one", "one"],
    &["two"],
    &["one", "--scope"],
    &["one", "--scope", "a"],
    &["one", "--scope", "=2"],
    &["one", "--scope=a=2x"],
    &["one", "--int-low", "-5"],
    &["one", "--int-low=5", "--int-low=5"],
    &["one", "--default-scope=1234567890123456789"],
    &["one", "--default-scope=-1"],
    &["one", "--help"],
    &["--", "one", "--int-low=5"],
    &["one", "--", "--"],
    &["one", "front"],
    &["front", "front"],
    &["--json", "--json"],
    &["--json=x"],
    &["--", "--json"],
    &["--generate", "81"],
    &["--generate=0"],
    &["--generate=8", "--generate=8"],
    &["--generate=8", "--json"],
    &["one", "--generate=8"],
    &["--generate"],
];

#[test]
fn words_without_a_reading(rt: HostRuntime) -> Result<(), Fail> {
    let alloc = rt.alloc();
    for texts in NONE {
        let words = words(alloc, texts)?;
        assert!(rt; words_of(alloc, &words)?.is_none(), "{texts:?}");
    }
    Ok(())
}

#[test]
fn settings_are_given(rt: HostRuntime) -> Result<(), Fail> {
    let alloc = rt.alloc();
    let words = words(
        alloc,
        &[
            "--scope",
            "a.b=2",
            "--int-low=-5",
            "--scope=c=d=7",
            "--default-scope",
            "4",
            "--",
            "one",
        ],
    )?;
    let found = words_of(alloc, &words)?;
    assert!(rt; found.is_some());
    let Some(request) = found else {
        return Ok(());
    };
    assert_eq!(rt; request.given.scopes.len(), 2);
    assert_eq!(rt;
        request.given.scopes.get(0).path.as_slice(),
        b"a.b".as_slice()
    );
    assert_eq!(rt; request.given.scopes.get(0).most, 2);
    assert_eq!(rt;
        request.given.scopes.get(1).path.as_slice(),
        b"c=d".as_slice()
    );
    assert_eq!(rt; request.given.scopes.get(1).most, 7);
    assert_eq!(rt; request.given.default, 4);
    assert_eq!(rt; request.given.low, -5);
    assert_eq!(rt; request.given.high, 2047);
    Ok(())
}

#[test]
fn what_is_not_given(rt: HostRuntime) -> Result<(), Fail> {
    let alloc = rt.alloc();
    let words = words(alloc, &["one"])?;
    let found = words_of(alloc, &words)?;
    assert!(rt; found.is_some());
    let Some(request) = found else {
        return Ok(());
    };
    assert!(rt; request.given.scopes.is_empty());
    assert_eq!(rt; request.given.default, 3);
    assert_eq!(rt; request.given.low, -2048);
    assert_eq!(rt; request.given.high, 2047);
    Ok(())
}
