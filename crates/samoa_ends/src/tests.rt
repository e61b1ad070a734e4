use crate::{Failed, MemSink, MemSource, NoSink, Sink, Source, StdSink, StdSource};
use samoa_model::NoMemory;
use std::alloc::Global;
use std::io::{self, Error, ErrorKind, Read, Write};
use std::test::Fail;

/// A reader and a writer whose second call fails, and whose writes take nothing after that. It can't pass on what it took.
#[derive(Drop)]
struct Second {
    calls: u32,
}

impl Read for Second {
    fn read(&mut self, buf: &mut [u8]) -> io::Result<usize> {
        self.calls = self.calls.saturating_add(1);
        if self.calls == 2 {
            return Err(Error::from(ErrorKind::BrokenPipe));
        }
        buf.fill(b'x');
        Ok(buf.len())
    }
}

impl Write for Second {
    fn write(&mut self, piece: &[u8]) -> io::Result<usize> {
        self.calls = self.calls.saturating_add(1);
        match self.calls {
            1 => Ok(piece.len()),
            2 => Err(Error::from(ErrorKind::BrokenPipe)),
            _ => Ok(0),
        }
    }

    fn flush(&mut self) -> io::Result<()> {
        Err(Error::from(ErrorKind::BrokenPipe))
    }
}

/// What five reads of at most two bytes give, with a bar after each, and `!` for one that fails.
fn five_reads<S: Source>(alloc: Global, source: &mut S) -> Result<Vec<u8>, NoMemory> {
    let mut log = Vec::new(alloc);
    for _ in 0..5 {
        let mut buf = [0u8; 2];
        match source.read(&mut buf) {
            Ok(count) => log.extend_from_slice(&buf[..count])?,
            Err(Failed) => log.push(b'!')?,
        }
        log.push(b'|')?;
    }
    Ok(log)
}

/// Whether each write of `abc`, `de`, `fgh` and `i` took all of it, `-` or `!` for one that failed.
fn four_writes<K: Sink>(alloc: Global, sink: &mut K) -> Result<Vec<u8>, NoMemory> {
    let mut log = Vec::new(alloc);
    for piece in [b"abc".as_slice(), b"de", b"fgh", b"i"] {
        match sink.write(piece) {
            Ok(count) if count == piece.len() => log.push(b'-')?,
            Ok(_) => log.push(b'?')?,
            Err(Failed) => log.push(b'!')?,
        }
    }
    Ok(log)
}

#[test]
fn reads(rt: HostRuntime) -> Result<(), Fail> {
    let alloc = rt.alloc();
    let table: [(&[u64], &[u8]); 4] = [
        (&[], b"ab|cd|e|||"),
        (&[1], b"!|ab|cd|e||"),
        (&[2, 4], b"ab|!|cd|!|e|"),
        (&[1, 2, 3, 4, 5], b"!|!|!|!|!|"),
    ];
    for (failing, want) in table {
        let bytes = Vec::from_slice(alloc, b"abcde")?;
        let mut source = MemSource::new(bytes, Vec::from_slice(alloc, failing)?);
        assert_eq!(rt; five_reads(alloc, &mut source)?.as_slice(), want);
    }
    let told = five_reads(alloc, &mut StdSource::new(b"abc".as_slice()))?;
    assert_eq!(rt; told.as_slice(), b"ab|c||||".as_slice());
    let failing = five_reads(alloc, &mut StdSource::new(Second { calls: 0 }))?;
    assert_eq!(rt; failing.as_slice(), b"xx|!|xx|xx|xx|".as_slice());
    Ok(())
}

#[test]
fn writes(rt: HostRuntime) -> Result<(), Fail> {
    let alloc = rt.alloc();
    let table: [(usize, &[u64], &[u8], &[u8]); 4] = [
        (9, &[], b"----", b"abcdefghi"),
        (9, &[1, 3], b"!-!-", b"dei"),
        (6, &[], b"--!-", b"abcdei"),
        (0, &[2], b"!!!!", b""),
    ];
    for (room, failing, want, bytes) in table {
        let mut sink = MemSink::new(alloc, room, Vec::from_slice(alloc, failing)?)?;
        assert_eq!(rt; four_writes(alloc, &mut sink)?.as_slice(), want);
        assert_eq!(rt; sink.bytes(), bytes);
    }
    let mut taken = Vec::new(alloc);
    let told = four_writes(alloc, &mut StdSink::new(&mut taken))?;
    assert_eq!(rt; told.as_slice(), b"----".as_slice());
    assert_eq!(rt; taken.as_slice(), b"abcdefghi".as_slice());
    let mut second = StdSink::new(Second { calls: 0 });
    let failing = four_writes(alloc, &mut second)?;
    assert_eq!(rt; failing.as_slice(), b"-!!!".as_slice());
    assert_eq!(rt; second.flush(), Err(Failed));
    Ok(())
}

#[test]
fn keeps_nothing(rt: HostRuntime) -> Result<(), Fail> {
    let mut sink = NoSink;
    assert_eq!(rt; sink.write(b"abc"), Ok(3));
    Ok(())
}
