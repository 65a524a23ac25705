//! Media in memory, and what the next call of the server gets.
use crate::ends::{Ends, left_in};
use crate::image;
use crate::texts::{number, read, write};
use command_server::{Status, mount, run, serve};
use disk_model::{Disk, Media};
use mem_media::MemMedia;
use std::alloc::{AllocError, Global};
use std::mem;
use wire_ends::{MemSink, MemSource};

#[derive(Drop)]
pub(crate) struct Bench {
    media: MemMedia,
    input: Vec<u8>,
    ends: Ends,
}

impl Bench {
    pub(crate) fn new(alloc: Global) -> Bench {
        Bench {
            media: MemMedia::new(alloc),
            input: Vec::new(alloc),
            ends: Ends::ample(),
        }
    }

    /// Does what a line says, and answers what is to be written. A comment is written as it is.
    pub(crate) fn line(&mut self, alloc: Global, line: &str) -> Result<Vec<u8>, AllocError> {
        match line.split_once(' ') {
            Some(("#", _)) => comment(alloc, line),
            Some((">", text)) => self.add_line(alloc, text),
            Some(("+", text)) => self.add(alloc, text, 1),
            Some(("times", rest)) => self.add_times(alloc, rest),
            _ => self.act(alloc, line),
        }
    }

    /// A line of the next input.
    fn add_line(&mut self, alloc: Global, text: &str) -> Result<Vec<u8>, AllocError> {
        let bytes = read(alloc, text)?;
        self.input.extend_from_slice(&bytes)?;
        self.input.push(b'\n')?;
        Ok(Vec::new(alloc))
    }

    /// Bytes of the next input, so many times.
    fn add(&mut self, alloc: Global, text: &str, times: u32) -> Result<Vec<u8>, AllocError> {
        let bytes = read(alloc, text)?;
        for _ in 0..times {
            self.input.extend_from_slice(&bytes)?;
        }
        Ok(Vec::new(alloc))
    }

    fn add_times(&mut self, alloc: Global, rest: &str) -> Result<Vec<u8>, AllocError> {
        match rest.split_once(' ') {
            Some((times, text)) => self.add(alloc, text, number(times)),
            None => Ok(Vec::new(alloc)),
        }
    }

    fn act(&mut self, alloc: Global, line: &str) -> Result<Vec<u8>, AllocError> {
        let words: Vec<&str> = line.split_whitespace().map(word_of).collect(alloc)?;
        match words.as_slice() {
            [">"] => self.add_line(alloc, ""),
            ["call", words @ ..] => self.call(alloc, words),
            ["within", budget] => self.serve_within(alloc, number(budget) as u64),
            ["show", at] => image::show(alloc, &mut self.media, number(at)),
            ["blocks"] => self.size(alloc),
            words => {
                self.prepare(alloc, words)?;
                Ok(Vec::new(alloc))
            }
        }
    }

    /// Changes the media, or what the next call of the server gets.
    fn prepare(&mut self, alloc: Global, words: &[&str]) -> Result<(), AllocError> {
        match words {
            ["new"] => {
                self.media = MemMedia::new(alloc);
                Ok(())
            }
            ["fresh"] => self.renew(alloc),
            ["image", blocks] => image::add(alloc, &mut self.media, number(blocks)),
            ["piece" | "room" | "source" | "sink", ..] => {
                self.plan_ends(words);
                Ok(())
            }
            words => image::change(alloc, &mut self.media, words),
        }
    }

    /// Media with a fresh volume `v` of 2,048 blocks and a log of 64, which begins at block 7. Its area begins at block 103.
    fn renew(&mut self, alloc: Global) -> Result<(), AllocError> {
        let words = ["format", "v", "--blocks", "2048", "--log", "64"];
        self.media = MemMedia::new(alloc);
        self.call(alloc, &words)?;
        Ok(())
    }

    /// Says how the ends of the next call behave.
    fn plan_ends(&mut self, words: &[&str]) {
        match words {
            ["piece", bytes] => self.ends.piece = number(bytes),
            ["room", bytes] => self.ends.room = number(bytes),
            ["source", call] => self.ends.source_fails = Some(number(call) as u64),
            ["sink", call] => self.ends.sink_fails = Some(number(call) as u64),
            _ => {}
        }
    }

    /// The number of blocks of the open image.
    fn size(&mut self, alloc: Global) -> Result<Vec<u8>, AllocError> {
        let line = format!(in alloc; "blocks {}\n", self.media.blocks())?;
        Ok(line.into_bytes())
    }

    /// A call of the server with the input that was gathered, and what came of it. What was planned goes with it.
    fn call(&mut self, alloc: Global, words: &[&str]) -> Result<Vec<u8>, AllocError> {
        let (mut source, mut sink, most) = self.take_ends(alloc)?;
        let status = run(alloc, words, &mut self.media, &mut source, &mut sink);
        image::plan(alloc, &mut self.media, None, None)?;
        told(alloc, status, &sink, left_in(&mut source, most))
    }

    /// A session over the image by `serve`, with this budget.
    fn serve_within(&mut self, alloc: Global, budget: u64) -> Result<Vec<u8>, AllocError> {
        let (mut source, mut sink, most) = self.take_ends(alloc)?;
        if self.media.open("v", None).is_err() {
            return Ok(Vec::new(alloc));
        }
        let Ok(mounted) = mount(alloc, &mut self.media) else {
            return Ok(Vec::new(alloc));
        };
        let mut volume = mounted;
        let status = serve(
            alloc,
            &mut volume,
            &mut self.media,
            &mut source,
            &mut sink,
            budget,
        );
        told(alloc, status, &sink, left_in(&mut source, most))
    }

    /// The source and the sink of the next call, and how many bytes the source has.
    fn take_ends(&mut self, alloc: Global) -> Result<(MemSource, MemSink, usize), AllocError> {
        let input = mem::replace(&mut self.input, Vec::new(alloc));
        let ends = mem::replace(&mut self.ends, Ends::ample());
        let most = input.len();
        let source = ends.source(alloc, input)?;
        let sink = ends.sink(alloc)?;
        Ok((source, sink, most))
    }
}

/// Two quotes are the empty word.
fn word_of(word: &str) -> &str {
    if word == "''" { "" } else { word }
}

fn comment(alloc: Global, line: &str) -> Result<Vec<u8>, AllocError> {
    let mut text = line.as_bytes().to_vec(alloc)?;
    text.push(b'\n')?;
    Ok(text)
}

/// The status, what was answered, and how much of the input was not taken, if any was left.
fn told(alloc: Global, status: Status, sink: &MemSink, left: u64) -> Result<Vec<u8>, AllocError> {
    let mut text = format!(in alloc; "status {}\n", status.number())?.into_bytes();
    write(&mut text, sink.bytes())?;
    if left > 0 {
        let line = format!(in alloc; "left {}\n", left)?;
        text.extend_from_slice(line.as_bytes())?;
    }
    Ok(text)
}
