//! The words that the program was started with.
ghost use Rattle.std.specs.Prelude.{◌≡◌, IfOk, map, string_bytes};

use std::alloc::{AllocError, Global};
use std::{env, io};

/// The words behind the program's name. Where one is no UTF-8 there are none, since neither is an action.
pub(crate) fn gather<R: env::Env + AllocGlobal>(rt: &R) -> Result<Vec<String>, AllocError> {
    let mut words = Vec::new(rt.alloc());
    let args = match env::args(rt) {
        Ok(args) => args,
        Err(error) if error.kind() == io::ErrorKind::OutOfMemory => return Err(AllocError),
        Err(_) => return Ok(words),
    };
    for word in args.skip(1) {
        words.push(word)?;
    }
    Ok(words)
}

/// The words as texts.
pub(crate) fn lent(alloc: Global, owned: &[String]) -> Result<Vec<&str>, AllocError>
    ensures { IfOk result (λ words. map (λ word. word.now) words.items ≡ map string_bytes owned.now) }
{
    let mut words = Vec::new(alloc);
    for word in owned {
        words.push(word.as_str())?;
    }
    Ok(words)
}

/// The word that names the image, if there is one.
pub(crate) fn image<'a>(words: &[&'a str]) -> &'a str {
    match words {
        [_, image, ..] => image,
        _ => "",
    }
}
