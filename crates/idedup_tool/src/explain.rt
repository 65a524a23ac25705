//! What is said on standard error of a call of the program that was not done.
use command_server::Status;
use media_files::Failure;
use std::io;

/// How the ends of a call last failed, each of them that has.
#[derive(Clone, Copy)]
pub(crate) struct Failures {
    pub(crate) image: Option<Failure>,
    pub(crate) input: Option<io::Error>,
    pub(crate) output: Option<io::Error>,
}

/// Says in one line why a call ended with this status: what failed, of which call, in the system's words, or what the input lacked. Nothing is
/// said where all was done, nor of words that are not understood, which standard output has a line on.
pub(crate) fn explain<R: Eprint>(
    rt: &R,
    image: &str,
    status: Status,
    failures: &Failures,
) -> io::Result<()> {
    match status {
        Status::Done | Status::Usage => Ok(()),
        Status::BadVolume => eprintln!(rt; "idedup: {image}: it is no volume, or is damaged"),
        Status::Device => explain_image(rt, image, failures.image),
        Status::SourceFailed => explain_end(rt, "standard input", failures.input),
        Status::SinkFailed => explain_end(rt, "standard output", failures.output),
        Status::NoMemory => eprintln!(rt; "idedup: {image}: memory is wanting"),
        Status::BadStream => eprintln!(rt; "idedup: standard input: {INCOMPLETE}"),
        Status::Budget => eprintln!(rt; "idedup: standard input: {SPENT}"),
    }
}

const INCOMPLETE: &str =
    "it ends within a command or its data, or data has no newline behind it, or a line has more than 8,192 bytes";

const SPENT: &str = "1,099,511,627,776 bytes were taken, and another is needed";

fn explain_image<R: Eprint>(rt: &R, image: &str, failure: Option<Failure>) -> io::Result<()> {
    match failure {
        Some(failure) => eprintln!(rt; "idedup: {image}: {failure}"),
        None => eprintln!(rt; "idedup: {image}: the image failed"),
    }
}

fn explain_end<R: Eprint>(rt: &R, end: &str, error: Option<io::Error>) -> io::Result<()> {
    match error {
        Some(error) => eprintln!(rt; "idedup: {end}: {error}"),
        None => eprintln!(rt; "idedup: {end}: it takes no more bytes"),
    }
}
