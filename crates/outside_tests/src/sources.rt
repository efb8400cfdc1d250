//! What standard input gives, and a read that comes in pieces.

use host_file::{StdinSource, read_full_at};
use host_model::Source;
use std::alloc::{AllocError, Allocator, Global};
use std::io;
use std::io::{BufRead, ErrorKind, Lines};
use std::os::unix::fs::FileExt;
use std::test::Fail;

/// What takes answered: how many bytes each gave, or nothing where it failed; and the buffer of four bytes of each that
/// succeeded, which was full of dots before.
#[derive(Drop)]
struct Taken {
    counts: Vec<Option<usize>>,
    bytes: Vec<u8>,
}

/// Takes so often.
fn takes<S: Source>(alloc: Global, source: &mut S, times: usize) -> Result<Taken, AllocError> {
    let mut counts = Vec::new(alloc);
    let mut bytes = Vec::new(alloc);
    for _ in 0..times {
        let mut out = [b'.'; 4];
        let taken = source.take(&mut out);
        if taken.is_ok() {
            bytes.extend_from_slice(&out)?;
        }
        counts.push(taken.ok())?;
    }
    Ok(Taken { counts, bytes })
}

/// A standard input that holds these bytes.
struct Typed(&'static [u8]);

impl Input for Typed {
    type Reader = &'static [u8];

    fn read_line<A: Allocator + Clone>(&self, _buf: &mut String<A>) -> io::Result<usize> {
        Err(io::Error::from(ErrorKind::Unsupported))
    }

    fn lines<A: Allocator>(&self, alloc: A) -> Lines<&'static [u8], A> {
        self.0.lines(alloc)
    }

    fn reader(&self) -> &'static [u8] {
        self.0
    }
}

#[test]
fn standard_input_gives_its_bytes(rt: HostRuntime) -> Result<(), Fail> {
    let mut source = StdinSource::new(&Typed(b"typed"));
    let taken = takes(rt.alloc(), &mut source, 3)?;
    assert_eq!(rt;
        taken.counts.as_slice(),
        [Some(4), Some(1), Some(0)].as_slice()
    );
    assert_eq!(rt; taken.bytes.as_slice(), b"typed.......".as_slice());
    Ok(())
}

/// A file of which a read gives three bytes at most, and none at all past the seventh.
#[derive(Drop)]
struct Pieces(&'static [u8]);

impl FileExt for Pieces {
    fn read_at(&self, buf: &mut [u8], offset: u64) -> io::Result<usize> {
        if offset > 7 {
            return Err(io::Error::from(ErrorKind::BrokenPipe));
        }
        let left = self.0.get(offset as usize..).unwrap_or(&[]);
        let count = left.len().min(buf.len()).min(3);
        buf[..count].copy_from_slice(&left[..count]);
        Ok(count)
    }

    fn write_at(&self, _buf: &[u8], _offset: u64) -> io::Result<usize> {
        Err(io::Error::from(ErrorKind::Unsupported))
    }
}

#[test]
fn goes_on_after_a_short_read(rt: HostRuntime) -> Result<(), Fail> {
    let file = Pieces(b"abcdefg");
    let mut out = [b'.'; 5];
    assert_eq!(rt; read_full_at(&file, 0, &mut out)?, 5);
    assert_eq!(rt; out, *b"abcde");
    assert_eq!(rt; read_full_at(&file, 5, &mut out)?, 2);
    assert_eq!(rt; out, *b"fgcde");
    assert!(rt; read_full_at(&file, 8, &mut out).is_err());
    Ok(())
}
