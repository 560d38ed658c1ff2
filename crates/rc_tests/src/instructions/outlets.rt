//! Outlets over writers that work, take a few bytes, take none, or fail.
ghost use Rattle.std.specs.Prelude.{◌≡◌, false};

use crate::fixtures::push_times;
use rc_instr::{Outlet, WriteFailed};
use std::alloc::Global;
use std::io;
use std::io::Write;
use std::test::Fail;

// A writer that takes at most `most` bytes at a call, and counts its calls, those of `flush` too.
// Call `bad_call`, counted from 1, fails with `kind`. Without a `kind` it takes no byte.
#[derive(Drop)]
pub(crate) struct Fake {
    pub(crate) taken: Vec<u8>,
    most: usize,
    bad_call: Option<u32>,
    kind: Option<io::ErrorKind>,
    calls: u32,
}

impl Write for Fake {
    fn write(&mut self, buf: &[u8]) -> io::Result<usize> {
        self.calls = self.calls.saturating_add(1);
        if self.bad_call == Some(self.calls) {
            return match self.kind {
                Some(kind) => Err(io::Error::from(kind)),
                None => Ok(0),
            };
        }
        let count = buf.len().min(self.most);
        self.taken.extend_from_slice(&buf[..count])?;
        Ok(count)
    }

    fn flush(&mut self) -> io::Result<()> {
        self.calls = self.calls.saturating_add(1);
        match self.kind {
            Some(kind) if self.bad_call == Some(self.calls) => Err(io::Error::from(kind)),
            _ => Ok(()),
        }
    }
}

// Returns an outlet over a new `Fake`.
pub(crate) fn outlet(
    alloc: Global,
    most: usize,
    bad_call: Option<u32>,
    kind: Option<io::ErrorKind>,
) -> Outlet<Fake>
    ensures { result.failed ≡ false }
{
    Outlet::new(Fake {
        taken: Vec::new(alloc),
        most,
        bad_call,
        kind,
        calls: 0,
    })
}

#[test]
fn a_writer_is_not_called_again_after_a_failure(rt: HostRuntime) {
    for &kind in &[
        io::ErrorKind::BrokenPipe,
        io::ErrorKind::OutOfMemory,
        io::ErrorKind::Interrupted,
    ] {
        let mut outlet = outlet(rt.alloc(), 3, Some(3), Some(kind));
        assert_eq!(rt; outlet.write(b"abcde"), Ok(3));
        assert_eq!(rt; outlet.write(b""), Ok(0));
        assert!(rt; !outlet.failed());
        assert_eq!(rt; outlet.write(b"fghij"), Err(WriteFailed));
        assert_eq!(rt; outlet.write(b""), Err(WriteFailed));
        assert_eq!(rt; outlet.finish(), Err(WriteFailed));
        assert!(rt; outlet.failed());
        let fake = outlet.into_inner();
        assert_eq!(rt; fake.taken.as_slice(), b"abc".as_slice());
        assert_eq!(rt; fake.calls, 3);
    }
}

#[test]
fn a_writer_that_takes_no_byte_has_failed(rt: HostRuntime) {
    let mut outlet = outlet(rt.alloc(), 5, Some(1), None);
    assert_eq!(rt; outlet.write(b"abcde"), Err(WriteFailed));
    assert!(rt; outlet.failed());
    assert_eq!(rt; outlet.into_inner().calls, 1);
}

// A write of `abcde` as a whole, to a writer that takes at most `most` bytes at a call: its result,
// what the writer took, and how many calls it got.
struct WholeWrite {
    name: &'static str,
    most: usize,
    bad_call: Option<u32>,
    want: Result<(), WriteFailed>,
    taken: &'static [u8],
    calls: u32,
}

const WHOLE_WRITES: [WholeWrite; 6] = [
    WholeWrite {
        name: "one piece",
        most: 5,
        bad_call: None,
        want: Ok(()),
        taken: b"abcde",
        calls: 1,
    },
    WholeWrite {
        name: "pieces of two bytes",
        most: 2,
        bad_call: None,
        want: Ok(()),
        taken: b"abcde",
        calls: 3,
    },
    WholeWrite {
        name: "pieces of one byte",
        most: 1,
        bad_call: None,
        want: Ok(()),
        taken: b"abcde",
        calls: 5,
    },
    WholeWrite {
        name: "the last piece fails",
        most: 2,
        bad_call: Some(3),
        want: Err(WriteFailed),
        taken: b"abcd",
        calls: 3,
    },
    WholeWrite {
        name: "the first call fails",
        most: 5,
        bad_call: Some(1),
        want: Err(WriteFailed),
        taken: b"",
        calls: 1,
    },
    WholeWrite {
        name: "no byte is taken",
        most: 0,
        bad_call: None,
        want: Err(WriteFailed),
        taken: b"",
        calls: 1,
    },
];

#[test]
fn a_whole_text_is_written_piece_by_piece(rt: HostRuntime) {
    for case in &WHOLE_WRITES {
        let kind = Some(io::ErrorKind::BrokenPipe);
        let mut outlet = outlet(rt.alloc(), case.most, case.bad_call, kind);
        assert_eq!(rt; outlet.write_all(b"abcde"), case.want, "{}", case.name);
        let fake = outlet.into_inner();
        assert_eq!(rt; fake.taken.as_slice(), case.taken, "{}", case.name);
        assert_eq!(rt; fake.calls, case.calls, "{}", case.name);
    }
}

#[test]
fn a_finished_outlet_has_flushed_its_writer(rt: HostRuntime) {
    let mut outlet = outlet(rt.alloc(), 5, None, Some(io::ErrorKind::StorageFull));
    assert_eq!(rt; outlet.write_all(b"abc"), Ok(()));
    assert_eq!(rt; outlet.finish(), Ok(()));
    assert!(rt; !outlet.failed());
    assert_eq!(rt; outlet.write(b"de"), Ok(2));
    let fake = outlet.into_inner();
    assert_eq!(rt; fake.taken.as_slice(), b"abcde".as_slice());
    assert_eq!(rt; fake.calls, 3);
}

#[test]
fn a_flush_that_fails_ends_the_outlet(rt: HostRuntime) {
    let mut outlet = outlet(rt.alloc(), 5, Some(2), Some(io::ErrorKind::StorageFull));
    assert_eq!(rt; outlet.write_all(b"abc"), Ok(()));
    assert_eq!(rt; outlet.finish(), Err(WriteFailed));
    assert!(rt; outlet.failed());
    assert_eq!(rt; outlet.write(b"de"), Err(WriteFailed));
    let fake = outlet.into_inner();
    assert_eq!(rt; fake.taken.as_slice(), b"abc".as_slice());
    assert_eq!(rt; fake.calls, 2);
}

#[test]
fn a_piece_of_1_mib_is_written_whole(rt: HostRuntime) -> Result<(), Fail> {
    let mut piece = Vec::new(rt.alloc());
    push_times(&mut piece, b"0123456789abcdef", 65536)?;
    let mut out = Outlet::new(Vec::new(rt.alloc()));
    assert_eq!(rt; out.write(piece.as_slice()), Ok(1_048_576));
    assert!(rt; out.into_inner().as_slice() == piece.as_slice());
    let mut out = Outlet::new(Vec::new(rt.alloc()));
    assert_eq!(rt; out.write_all(piece.as_slice()), Ok(()));
    assert!(rt; out.into_inner().as_slice() == piece.as_slice());
    Ok(())
}
