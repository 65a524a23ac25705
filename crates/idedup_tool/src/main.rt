//! The program: an image in a file, standard input and standard output round the server's top call.
#![tactic(auto)]

ghost use Rattle.std.specs.Prelude.{◌≡◌};
ghost use Rattle.std.specs.Process.{exit_status};
ghost use Rattle.command_server.specs.Status.{number_of};

mod explain;
mod words;

use command_server::{Status, run};
use explain::{Failures, explain};
use media_files::FileMedia;
use std::process::ExitCode;
use wire_ends::{StdSink, StdSource};

fn main(rt: HostRuntime) -> ExitCode {
    exit_code(run_words(&rt))
}

/// The exit status that stands for a status.
fn exit_code(status: Status) -> ExitCode
    ensures { exit_status result ≡ number_of status }
{
    ExitCode::from(status.number())
}

/// Runs the program on the words behind its name, and says on standard error why it wasn't done.
fn run_words(rt: &HostRuntime) -> Status {
    let Ok(owned) = words::gather(rt) else {
        return without_memory(rt);
    };
    let Ok(words) = words::lent(rt.alloc(), &owned) else {
        return without_memory(rt);
    };
    let mut media = FileMedia::new(*rt);
    let mut source = StdSource::new(rt.stdin());
    let mut sink = StdSink::new(rt.stdout());
    let status = run(rt.alloc(), &words, &mut media, &mut source, &mut sink);
    let failures = Failures {
        image: media.failure(),
        input: source.error(),
        output: sink.error(),
    };
    // Where standard error fails too, the status alone tells.
    let _ = explain(rt, words::image(&words), status, &failures);
    status
}

/// The words themselves found no memory.
fn without_memory(rt: &HostRuntime) -> Status {
    let _ = eprintln!(rt; "idedup: memory is wanting");
    Status::NoMemory
}
