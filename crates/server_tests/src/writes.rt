//! How often a session writes.
use crate::runs::{fresh, serve_over};
use command_server::Status;
use std::alloc::{AllocError, Global};
use std::io;
use std::io::Write;
use std::test::Fail;
use wire_ends::{Sink, StdSink};

/// Keeps each write, and a bar behind it.
#[derive(Drop)]
struct Barred {
    got: Vec<u8>,
}

impl Write for Barred {
    fn write(&mut self, buf: &[u8]) -> io::Result<usize> {
        self.got.extend_from_slice(buf)?;
        self.got.push(b'|')?;
        Ok(buf.len())
    }

    fn flush(&mut self) -> io::Result<()> {
        Ok(())
    }
}

const EACH_KIND: &[u8] = b"mkdir /d
write /d 0 0

create /d/a
write /d/a 0 6
ab
cd

read /d/a 0 9
read /d/a 6 9
list /d
stat /d/a
chmod /d
end
";

const EACH_ANSWER: &[u8] = b"ok
|refused 5 IsADirectory
|ok
|ok
|data 6
ab
cd

|data 0

|list 1
f 3 a
|stat f 3 6
|refused 1 BadCommand
|ok
|";

/// Serves a session with a command of each kind.
fn serve_each_kind<W: Sink>(alloc: Global, sink: &mut W) -> Result<Status, AllocError> {
    let mut media = fresh(alloc)?;
    serve_over(alloc, &mut media, EACH_KIND, sink)
}

/// Whether each answer comes in a write of its own.
fn writes_each_answer(alloc: Global) -> Result<bool, AllocError> {
    let mut sink = StdSink::new(Barred {
        got: Vec::new(alloc),
    });
    let status = serve_each_kind(alloc, &mut sink)?;
    Ok(status == Status::Done && sink.writer().got.as_slice() == EACH_ANSWER)
}

#[test]
fn writes_each_answer_at_once(rt: HostRuntime) -> Result<(), Fail> {
    assert!(rt; writes_each_answer(rt.alloc())?);
    Ok(())
}
