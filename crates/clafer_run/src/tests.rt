use crate::run;
use clf_base::{List, MemorySink, MemorySource, Source, Status, StdSink, StdSource};
use search_guide::Guide;
use std::alloc::{AllocError, Global};
use std::io;
use std::io::{ErrorKind, Read, Write};
use std::test::Fail;

fn words_of_texts(alloc: Global, texts: &[&str]) -> Result<Vec<String>, AllocError> {
    texts
        .iter()
        .map(|text| text.to_string(alloc))
        .try_collect(alloc)
}

// Words, a text, and the status and the bytes that are wanted.
#[derive(Drop)]
struct Case {
    words: &'static [&'static str],
    text: &'static [u8],
    status: Status,
    output: &'static [u8],
}

const CASES: [Case; 21] = [
    // the empty text has the empty instance
    Case {
        words: &["one"],
        text: b"",
        status: Status::Done,
        output: b"scopes 0\nints -2048..2047\ninstance\n",
    },
    // an option implies another
    Case {
        words: &["one"],
        text: b"a\n    b ?\n    c ?\n    [ b => c ]\n    [ b ]\n",
        status: Status::Done,
        output: b"scopes 3\na 1\na.b 1\na.c 1\nints -2048..2047\ninstance\na$0\n  b$0\n  c$0\n",
    },
    // contradicting constraints
    Case {
        words: &["one"],
        text: b"a\n    b ?\n    [ b ]\n    [ !b ]\n",
        status: Status::NoInstance,
        output: b"scopes 2\na 1\na.b 1\nints -2048..2047\nno instance\nclaims 1\n",
    },
    // a feature below a missing one is missing, whether it is optional or not
    Case {
        words: &["one"],
        text: b"a\n    b ?\n        c\n        [ !c ]\n",
        status: Status::Done,
        output: b"scopes 3\na 1\na.b 1\na.b.c 1\nints -2048..2047\ninstance\na$0\n",
    },
    // `&&` binds tighter than `||`, and `||` tighter than `=>`, which goes to the right
    Case {
        words: &["one"],
        text: b"a\n    b ?\n    c ?\n    [ b || c && !b => b => c ]\n    [ b ]\n",
        status: Status::Done,
        output: b"scopes 3\na 1\na.b 1\na.c 1\nints -2048..2047\ninstance\na$0\n  b$0\n  c$0\n",
    },
    Case {
        words: &["one", "two"],
        text: b"a\n",
        status: Status::BadWords,
        output: b"error words\n",
    },
    Case {
        words: &["one", "front"],
        text: b"a\n",
        status: Status::BadWords,
        output: b"error words\n",
    },
    // the front, which is asked for where no word says what is
    Case {
        words: &[],
        text: b"a\n",
        status: Status::Done,
        output: b"scopes 1\na 1\nints -2048..2047\nfront 1\npoint\na$0\nclaims 2\n",
    },
    // of two goals each feature serves one
    Case {
        words: &["front"],
        text: b"a\n    b ?\n    c ?\n    [ !b || !c ]\n<< max #a.b >>\n<< max #a.c >>\n",
        status: Status::Done,
        output: b"scopes 3\na 1\na.b 1\na.c 1\nints -2048..2047\nfront 2\npoint 1 0\na$0\n  b$0\npoint 0 1\na$0\n  c$0\nclaims 3\n",
    },
    // of all values none is better both ways
    Case {
        words: &["--int-low=-1", "--int-high=1", "front"],
        text: b"a -> int\n<< min sum a >>\n<< max sum a >>\n",
        status: Status::Done,
        output: b"scopes 1\na 1\nints -1..1\nfront 3\npoint -1 -1\na$0 = -1\npoint 0 0\na$0 = 0\npoint 1 1\na$0 = 1\nclaims 4\n",
    },
    // a front of nothing
    Case {
        words: &["front"],
        text: b"a\n    b ?\n    [ b ]\n    [ !b ]\n<< max #a.b >>\n",
        status: Status::NoInstance,
        output: b"scopes 2\na 1\na.b 1\nints -2048..2047\nno instance\nclaims 1\n",
    },
    // two names on a line
    Case {
        words: &["one"],
        text: b"a b\n",
        status: Status::Done,
        output: b"scopes 2\na 1\nb 1\nints -2048..2047\ninstance\na$0\nb$0\n",
    },
    // a name two levels down
    Case {
        words: &["one"],
        text: b"a\n    b ?\n        c ?\n    [ c ]\n",
        status: Status::Done,
        output: b"scopes 3\na 1\na.b 1\na.b.c 1\nints -2048..2047\ninstance\na$0\n  b$0\n    c$0\n",
    },
    // a name that nothing has
    Case {
        words: &["one"],
        text: b"a\n    [ b ]\n",
        status: Status::Refused,
        output: b"error E062 2:7 0 name not found\n",
    },
    // a clafer with two instances
    Case {
        words: &["one"],
        text: b"a 2\n",
        status: Status::Done,
        output: b"scopes 1\na 2\nints -2048..2047\ninstance\na$0\na$1\n",
    },
    // a given range of integers, and a given scope
    Case {
        words: &["--scope", "a=1", "--int-low=-5", "one", "--int-high", "9"],
        text: b"a ?\n[ a ]\n",
        status: Status::Done,
        output: b"scopes 1\na 1\nints -5..9\ninstance\na$0\n",
    },
    Case {
        words: &["one", "--scope=b=1"],
        text: b"a ?\n",
        status: Status::Refused,
        output: b"error E080 0:0 1 scope of unknown clafer\n",
    },
    // bytes that are no text
    Case {
        words: &["one"],
        text: b"a \xff",
        status: Status::Refused,
        output: b"error E011 1:3 2 text is not UTF-8\n",
    },
    // a text that can't be cut
    Case {
        words: &["one"],
        text: b"a 2147483648\n",
        status: Status::Refused,
        output: b"error E022 1:3 0 literal too large\n",
    },
    // a line in a column of no open block
    Case {
        words: &["one"],
        text: b"a\n    b\n  [ b ]\n",
        status: Status::Refused,
        output: b"error E030 3:3 3 column of no open block\n",
    },
    // a word that models don't use
    Case {
        words: &["one"],
        text: b"assert [ a ]\n",
        status: Status::Refused,
        output: b"error E042 1:1 0 word is left out\n",
    },
];

#[test]
fn answers_with_ample_memory(rt: HostRuntime) -> Result<(), Fail> {
    let alloc = rt.alloc();
    let guide = Guide::new(Box::new(alloc, |_seed: u64, _turn: u64, _n: u32| 0)?);
    for case in &CASES {
        let words = words_of_texts(alloc, case.words)?;
        let mut source = MemorySource::new(
            List::from_slice(alloc, case.text)?,
            3,
            List::new(alloc),
        );
        let mut sink = MemorySink::new(alloc, 256, 5, List::new(alloc))?;
        let status = run(alloc, &words, &mut source, &mut sink, &guide).status;
        assert_eq!(rt; status, case.status);
        assert_eq!(rt; sink.bytes(), case.output);
    }
    Ok(())
}

#[test]
fn words_without_a_reading_leave_the_source(rt: HostRuntime) -> Result<(), Fail> {
    let alloc = rt.alloc();
    let guide = Guide::new(Box::new(alloc, |_seed: u64, _turn: u64, _n: u32| 0)?);
    let words = words_of_texts(alloc, &["one", "two"])?;
    let mut source = MemorySource::new(List::from_slice(alloc, b"a\n")?, 8, List::new(alloc));
    let mut sink = MemorySink::new(alloc, 64, 64, List::new(alloc))?;
    let status = run(alloc, &words, &mut source, &mut sink, &guide).status;
    assert_eq!(rt; status, Status::BadWords);
    let mut out = [0; 8];
    let count = source.read(&mut out)?;
    assert_eq!(rt; &out[..count.min(8)], b"a\n".as_slice());
    Ok(())
}

#[test]
fn a_read_fault_writes_nothing(rt: HostRuntime) -> Result<(), Fail> {
    let alloc = rt.alloc();
    let guide = Guide::new(Box::new(alloc, |_seed: u64, _turn: u64, _n: u32| 0)?);
    let words = words_of_texts(alloc, &["one"])?;
    let failing = List::from_slice(alloc, &[1])?;
    let mut source = MemorySource::new(List::from_slice(alloc, b"a\n    b ?\n")?, 8, failing);
    let mut sink = MemorySink::new(alloc, 64, 64, List::new(alloc))?;
    let status = run(alloc, &words, &mut source, &mut sink, &guide).status;
    assert_eq!(rt; status, Status::ReadFault);
    assert_eq!(rt; sink.bytes(), b"".as_slice());
    Ok(())
}

#[test]
fn a_write_fault_leaves_a_prefix(rt: HostRuntime) -> Result<(), Fail> {
    let alloc = rt.alloc();
    let guide = Guide::new(Box::new(alloc, |_seed: u64, _turn: u64, _n: u32| 0)?);
    let words = words_of_texts(alloc, &["one"])?;
    let mut source = MemorySource::new(List::new(alloc), 8, List::new(alloc));
    let failing = List::from_slice(alloc, &[1])?;
    let mut sink = MemorySink::new(alloc, 64, 7, failing)?;
    let status = run(alloc, &words, &mut source, &mut sink, &guide).status;
    assert_eq!(rt; status, Status::WriteFault);
    assert_eq!(rt; sink.bytes(), b"scopes ".as_slice());
    Ok(())
}

// A text of so many blanks: the limit is tried from both sides.
#[test]
fn one_byte_too_many_is_refused(rt: HostRuntime) -> Result<(), Fail> {
    let alloc = rt.alloc();
    let guide = Guide::new(Box::new(alloc, |_seed: u64, _turn: u64, _n: u32| 0)?);
    let words = words_of_texts(alloc, &["one"])?;
    let most: usize = 1_048_576;
    for (length, number, output) in [
        (
            most,
            0,
            b"scopes 0\nints -2048..2047\ninstance\n".as_slice(),
        ),
        (
            most + 1,
            2,
            b"error E010 0:0 1048577 text too long\n".as_slice(),
        ),
    ] {
        let text = vec![in alloc; b' '; length]?;
        let mut source = MemorySource::new(List::from_slice(alloc, &text)?, 5000, List::new(alloc));
        let mut sink = MemorySink::new(alloc, 64, 64, List::new(alloc))?;
        let status = run(alloc, &words, &mut source, &mut sink, &guide).status;
        assert_eq!(rt; sink.bytes(), output, "at {length}");
        assert_eq!(rt; status.number(), number);
    }
    Ok(())
}

// A reader and a writer whose every call fails, or that takes nothing.
#[derive(Drop)]
struct Broken {
    takes_nothing: bool,
}

impl Read for Broken {
    fn read(&mut self, _buf: &mut [u8]) -> io::Result<usize> {
        Err(io::Error::from(ErrorKind::PermissionDenied))
    }
}

impl Write for Broken {
    fn write(&mut self, _buf: &[u8]) -> io::Result<usize> {
        if self.takes_nothing {
            Ok(0)
        } else {
            Err(io::Error::from(ErrorKind::PermissionDenied))
        }
    }

    fn flush(&mut self) -> io::Result<()> {
        Ok(())
    }
}

#[test]
fn readers_and_writers_of_std_serve(rt: HostRuntime) -> Result<(), Fail> {
    let alloc = rt.alloc();
    let guide = Guide::new(Box::new(alloc, |_seed: u64, _turn: u64, _n: u32| 0)?);
    let words = words_of_texts(alloc, &["one"])?;
    let mut written = Vec::new(alloc);
    let mut source = StdSource::new(b"a\n".as_slice());
    let mut sink = StdSink::new(&mut written);
    let status = run(alloc, &words, &mut source, &mut sink, &guide).status;
    assert_eq!(rt; status, Status::Done);
    assert_eq!(rt;
        written.as_slice(),
        b"scopes 1\na 1\nints -2048..2047\ninstance\na$0\n".as_slice()
    );
    Ok(())
}

#[test]
fn faults_of_std_are_told(rt: HostRuntime) -> Result<(), Fail> {
    let alloc = rt.alloc();
    let guide = Guide::new(Box::new(alloc, |_seed: u64, _turn: u64, _n: u32| 0)?);
    let words = words_of_texts(alloc, &["one"])?;
    let mut sink = StdSink::new(Broken {
        takes_nothing: true,
    });
    let mut broken = StdSource::new(Broken {
        takes_nothing: false,
    });
    assert_eq!(rt;
        run(alloc, &words, &mut broken, &mut sink, &guide).status,
        Status::ReadFault
    );
    let mut source = StdSource::new(b"a\n".as_slice());
    assert_eq!(rt;
        run(alloc, &words, &mut source, &mut sink, &guide).status,
        Status::WriteFault
    );
    Ok(())
}
