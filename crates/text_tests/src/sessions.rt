//! Texts of sessions, with what is read of them by the format's rules.
use crate::limits::is_session;
use std::alloc::Global;
use std::test::Fail;

/// A text, what is shown of its lines where that isn't the text again, and how the session stops.
type Row = (&'static [u8], Option<&'static [u8]>, &'static [u8]);

/// Texts that are read as commands, whose spelling is the text again.
const SPELLINGS: &[Row] = &[
    (b"", None, ENDED),
    (b"mkdir /a\nmkdir /\n", None, ENDED),
    (
        b"create /a/b.c/-\nremove /a\nlist /\nstat /a\nlayout /a\n",
        None,
        ENDED,
    ),
    (
        b"truncate /a 0\ntruncate /a 18446744073709551615\n",
        None,
        ENDED,
    ),
    (b"rename /a /b/c\nrename / /\n", None, ENDED),
    (b"read /a 5 65536\nread /a 0 0\n", None, ENDED),
    (b"write /a 3 4\na\nb \n", None, ENDED),
    (b"write /a 0 0\n\nwrite /a 10 1\n\n\n", None, ENDED),
    (b"space\ncheckpoint\nspace\n", None, ENDED),
    (b"mkdir /%20\nmkdir /a%25b\nmkdir /~!\n", None, ENDED),
    (b"space\nend\n", None, ENDED),
];

/// Lines that are no command.
const NO_COMMANDS: &[Row] = &[
    (b"\n", Some(BAD_COMMAND), ENDED),
    (b"chmod /a\n", Some(BAD_COMMAND), ENDED),
    (b"Mkdir /a\n", Some(BAD_COMMAND), ENDED),
    (b"mkdir\n", Some(BAD_COMMAND), ENDED),
    (b"mkdir \n", Some(BAD_COMMAND), ENDED),
    (b"mkdir  /a\n", Some(BAD_COMMAND), ENDED),
    (b" mkdir /a\n", Some(BAD_COMMAND), ENDED),
    (b"mkdir /a \n", Some(BAD_COMMAND), ENDED),
    (b"mkdir /a b\n", Some(BAD_COMMAND), ENDED),
    (b"space \n", Some(BAD_COMMAND), ENDED),
    (b"end /\n", Some(BAD_COMMAND), ENDED),
    (b"truncate /a\n", Some(BAD_COMMAND), ENDED),
    (b"truncate /a 01\n", Some(BAD_COMMAND), ENDED),
    (b"truncate /a +1\n", Some(BAD_COMMAND), ENDED),
    (b"truncate /a 1x\n", Some(BAD_COMMAND), ENDED),
    (
        b"truncate /a 18446744073709551616\n",
        Some(BAD_COMMAND),
        ENDED,
    ),
    (b"truncate a 01\n", Some(BAD_COMMAND), ENDED),
    (b"rename /a\n", Some(BAD_COMMAND), ENDED),
    (b"rename /a  /b\n", Some(BAD_COMMAND), ENDED),
    (b"read /a 0 65537\n", Some(BAD_COMMAND), ENDED),
    (b"read /a 0\n", Some(BAD_COMMAND), ENDED),
    (b"read /a 0 0 0\n", Some(BAD_COMMAND), ENDED),
    (b"write /a 0 65537\n", Some(BAD_COMMAND), ENDED),
    (b"write /a 00 3\n", Some(BAD_COMMAND), ENDED),
];

const BAD_COMMAND: &[u8] = b"refused 1 BadCommand\n";

const BAD_NAME: &[u8] = b"refused 2 BadName\n";

const ENDED: &[u8] = b"ended";

const BAD_STREAM: &[u8] = b"bad stream";

/// Other texts, with the spelling or the refusal of each of their lines.
const TEXTS: &[Row] = &[
    (b"mkdir a\n", Some(BAD_NAME), ENDED),
    (b"mkdir //\n", Some(BAD_NAME), ENDED),
    (b"mkdir /a/\n", Some(BAD_NAME), ENDED),
    (b"mkdir /.\n", Some(BAD_NAME), ENDED),
    (b"mkdir /a/..\n", Some(BAD_NAME), ENDED),
    (b"mkdir /%2F\n", Some(BAD_NAME), ENDED),
    (b"mkdir /a%00\n", Some(BAD_NAME), ENDED),
    (b"mkdir /%2e\n", Some(BAD_NAME), ENDED),
    (b"rename /a b\n", Some(BAD_NAME), ENDED),
    (b"rename a /b\n", Some(BAD_NAME), ENDED),
    (b"read a 0 1\n", Some(BAD_NAME), ENDED),
    (
        b"write a 0 6\nspace\n\nend\n",
        Some(b"refused 2 BadName\nend\n"),
        ENDED,
    ),
    (
        b"write /a 0 65537\nspace\n",
        Some(b"refused 1 BadCommand\nspace\n"),
        ENDED,
    ),
    (b"mkdir /%c3%A9\n", Some(b"mkdir /%C3%A9\n"), ENDED),
    (b"mkdir /\xc3\x7f\n", Some(b"mkdir /%C3%7F\n"), ENDED),
    (b"mkdir /%2\n", Some(b"mkdir /%252\n"), ENDED),
    (b"mkdir /%zz%7e\n", Some(b"mkdir /%25zz~\n"), ENDED),
    (b"end\nmkdir", Some(b"end\n"), ENDED),
    (b"mkdir /a", Some(b""), BAD_STREAM),
    (b"space\nend", Some(b"space\n"), BAD_STREAM),
    (b"write /a 0 3\n", Some(b""), BAD_STREAM),
    (b"write /a 0 3\nxyz", Some(b""), BAD_STREAM),
    (b"write /a 0 3\nxyzz\n", Some(b""), BAD_STREAM),
    (b"write a 0 0\nx", Some(b""), BAD_STREAM),
];

/// Whether a text is read so, whole, in pieces of three bytes, and a byte at a time.
fn is_read(alloc: Global, text: &[u8], items: &[u8], stop: &[u8]) -> Result<bool, Fail> {
    for piece in [100_000, 3, 1] {
        if !is_session(alloc, (text, piece, &[], 1_000_000), items, stop)? {
            return Ok(false);
        }
    }
    Ok(true)
}

fn are_read(alloc: Global, rows: &[Row]) -> Result<bool, Fail> {
    for row in rows {
        if !is_read(alloc, row.0, row.1.unwrap_or(row.0), row.2)? {
            return Ok(false);
        }
    }
    Ok(true)
}

#[test]
fn texts_are_read_to_their_end(rt: HostRuntime) -> Result<(), Fail> {
    let alloc = rt.alloc();
    let are = are_read(alloc, SPELLINGS)?
        && are_read(alloc, NO_COMMANDS)?
        && are_read(alloc, TEXTS)?;
    assert!(rt; are);
    Ok(())
}
