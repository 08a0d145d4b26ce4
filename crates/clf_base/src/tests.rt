use crate::{List, MemorySink, MemorySource, Sink, Source, StdSink, StdSource};
use std::io;
use std::io::{ErrorKind, Read, Write};
use std::test::Fail;

#[test]
fn lists_grow_and_are_copied(rt: HostRuntime) -> Result<(), Fail> {
    let alloc = rt.alloc();
    let mut list = List::new(alloc);
    assert!(rt; list.is_empty());
    list.push(1)?;
    list.extend(&[2, 3])?;
    assert_eq!(rt; list.pop(), Some(3));
    let copy = list.copy(alloc)?;
    assert_eq!(rt; copy.as_slice(), [1, 2].as_slice());
    let same = List::from_vec(vec![in alloc; 4; 2]?);
    assert_eq!(rt;
        same.as_slice(),
        List::from_slice(alloc, &[4, 4])?.as_slice()
    );
    Ok(())
}

#[test]
fn memory_devices_pass_bytes_in_pieces(rt: HostRuntime) -> Result<(), Fail> {
    let alloc = rt.alloc();
    let mut source = MemorySource::new(
        List::from_slice(alloc, b"abcde")?,
        3,
        List::from_slice(alloc, &[1])?,
    );
    let mut out = [0; 8];
    assert_eq!(rt; source.read(&mut out)?, 3);
    assert_eq!(rt; &out[..3], b"abc".as_slice());
    assert!(rt; source.read(&mut out).is_err());
    assert_eq!(rt; source.read(&mut out)?, 2);
    assert_eq!(rt; source.read(&mut out)?, 0);
    let mut sink = MemorySink::new(alloc, 4, 3, List::new(alloc))?;
    assert_eq!(rt; sink.write(b"abcde")?, 3);
    assert_eq!(rt; sink.write(b"de")?, 1);
    assert!(rt; sink.write(b"e").is_err());
    assert_eq!(rt; sink.bytes(), b"abcd".as_slice());
    Ok(())
}

#[test]
fn readers_and_writers_of_std_serve(rt: HostRuntime) -> Result<(), Fail> {
    let alloc = rt.alloc();
    let mut source = StdSource::new(b"ab".as_slice());
    let mut out = [0; 8];
    assert_eq!(rt; source.read(&mut out)?, 2);
    assert_eq!(rt; &out[..2], b"ab".as_slice());
    assert_eq!(rt; source.read(&mut out)?, 0);
    let mut written = Vec::new(alloc);
    let mut sink = StdSink::new(&mut written);
    assert_eq!(rt; sink.write(b"abc")?, 3);
    assert_eq!(rt; written.as_slice(), b"abc".as_slice());
    Ok(())
}

// A reader and a writer whose every call fails, or a writer that takes nothing.
#[derive(Drop)]
struct Broken {
    takes_nothing: bool,
}

impl Read for Broken {
    fn read(&mut self, _buf: &mut [u8]) -> io::Result<usize> {
        Err(io::Error::from(ErrorKind::PermissionDenied))
    }
}

impl Write for Broken {
    fn write(&mut self, _buf: &[u8]) -> io::Result<usize> {
        if self.takes_nothing {
            Ok(0)
        } else {
            Err(io::Error::from(ErrorKind::PermissionDenied))
        }
    }

    fn flush(&mut self) -> io::Result<()> {
        Ok(())
    }
}

#[test]
fn faults_of_std_are_told(rt: HostRuntime) -> Result<(), Fail> {
    let mut source = StdSource::new(Broken {
        takes_nothing: false,
    });
    let mut out = [0; 8];
    assert!(rt; source.read(&mut out).is_err());
    for takes_nothing in [false, true] {
        let mut sink = StdSink::new(Broken { takes_nothing });
        assert!(rt; sink.write(b"a").is_err());
    }
    Ok(())
}
