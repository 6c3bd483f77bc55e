use crate::files::{RealFiles, front_of};
use crate::refuse_words;
use crate::stream::Stream;
use ix_edge::{Failed, Files, LoadFault, MemSink, Sink};
use std::alloc::Global;
use std::io;
use std::io::{ErrorKind, Read, Write};
use std::test::Fail;

// A turn that is not as the others.
#[derive(Clone, Copy, Debug)]
enum Hitch {
    Nothing,
    Error(ErrorKind),
}

// Which turn is not as the others, if one is.
type Plan = Option<(u64, Hitch)>;

// Two bytes a turn, where there are so many, but for the turn with the hitch.
#[derive(Debug, Drop)]
struct Slow<T> {
    inner: T,
    turn: u64,
    plan: Plan,
}

impl<T> Slow<T> {
    fn new(inner: T, plan: Plan) -> Slow<T> {
        Slow {
            inner,
            turn: 0,
            plan,
        }
    }

    fn next_len(&mut self, len: usize) -> io::Result<usize> {
        let turn = self.turn;
        self.turn = turn.saturating_add(1);
        match self.plan {
            Some((at, Hitch::Nothing)) if at == turn => Ok(0),
            Some((at, Hitch::Error(kind))) if at == turn => Err(io::Error::from(kind)),
            _ => Ok(len.min(2)),
        }
    }
}

impl<T: Read> Read for Slow<T> {
    fn read(&mut self, buf: &mut [u8]) -> io::Result<usize> {
        let len = self.next_len(buf.len())?.min(buf.len());
        self.inner.read(&mut buf[..len])
    }
}

impl<T: Write> Write for Slow<T> {
    fn write(&mut self, buf: &[u8]) -> io::Result<usize> {
        let len = self.next_len(buf.len())?.min(buf.len());
        self.inner.write(&buf[..len])
    }

    fn flush(&mut self) -> io::Result<()> {
        Ok(())
    }
}

#[test]
fn a_load_gives_the_front_of_the_input(rt: HostRuntime) -> Result<(), Fail> {
    let alloc = rt.alloc();
    let broken = Hitch::Error(ErrorKind::BrokenPipe);
    for (plan, most, want) in [
        (None, 9, Ok(b"hello".as_slice())),
        (None, 3, Ok(b"hel".as_slice())),
        (None, 0, Ok(b"".as_slice())),
        (
            Some((1, Hitch::Error(ErrorKind::Interrupted))),
            9,
            Ok(b"hello".as_slice()),
        ),
        (Some((1, Hitch::Nothing)), 9, Ok(b"he".as_slice())),
        (Some((1, broken)), 9, Err(LoadFault::Failed)),
        (Some((1, broken)), 2, Ok(b"he".as_slice())),
        (
            Some((1, Hitch::Error(ErrorKind::OutOfMemory))),
            9,
            Err(LoadFault::Memory),
        ),
    ] {
        let got = front_of(alloc, Slow::new(b"hello".as_slice(), plan), most);
        let bytes = got.as_ref().map(|v| v.as_slice()).map_err(|e| *e);
        assert_eq!(rt; bytes, want, "{most} with {plan:?}");
    }
    Ok(())
}

#[test]
fn a_put_writes_all_or_fails(rt: HostRuntime) -> Result<(), Fail> {
    let alloc = rt.alloc();
    for (plan, want, written, faults) in [
        (None, Ok(()), b"hello".as_slice(), 0),
        (
            Some((1, Hitch::Error(ErrorKind::Interrupted))),
            Ok(()),
            b"hello".as_slice(),
            0,
        ),
        (
            Some((1, Hitch::Error(ErrorKind::BrokenPipe))),
            Err(Failed),
            b"he".as_slice(),
            1,
        ),
        (
            Some((2, Hitch::Nothing)),
            Err(Failed),
            b"hell".as_slice(),
            1,
        ),
    ] {
        let mut inner = Vec::new(alloc);
        let mut stream = Stream::new(Slow::new(&mut inner, plan));
        assert_eq!(rt; stream.put(b"hello"), want, "{plan:?}");
        assert_eq!(rt; stream.faults(), faults, "{plan:?}");
        drop(stream);
        assert_eq!(rt; inner.as_slice(), written, "{plan:?}");
    }
    Ok(())
}

#[test]
fn a_missing_file_is_a_fault_of_every_name(rt: HostRuntime) {
    let mut files = RealFiles::new(&rt);
    assert_eq!(rt;
        files.load(rt.alloc(), "/no such file", 9),
        Err(LoadFault::Failed)
    );
    assert_eq!(rt; files.faults("/no such file"), 1);
    assert_eq!(rt; files.faults("-"), 1);
}

#[test]
fn words_are_refused_by_status_with_a_line(rt: HostRuntime) -> Result<(), Fail> {
    let alloc = rt.alloc();
    for (kind, status) in [(ErrorKind::OutOfMemory, 9), (ErrorKind::InvalidData, 2)] {
        let mut msg = MemSink::new(alloc, 256, Vec::new(alloc), 0)?;
        assert_eq!(rt;
            refuse_words(alloc, &io::Error::from(kind), &mut msg),
            status
        );
        assert_eq!(rt; msg.bytes().last(), Some(&b'\n'), "status {status}");
    }
    Ok(())
}
