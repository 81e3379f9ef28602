//! [`Request`], what the words ask for.

use std::alloc::{AllocError, Global};
use twkb_layer::Window;

/// A window, and the word that names it.
#[derive(Drop)]
pub struct Sought<'a> {
    pub word: &'a str,
    pub window: Window,
}

/// A file, how often each step is timed, the windows to scan for by hops, and the windows to scan for with a directory, if one
/// is to be built.
#[derive(Drop)]
pub struct Request<'a> {
    pub path: &'a str,
    pub repeats: u32,
    pub hops: Vec<Sought<'a>>,
    pub lookups: Option<Vec<Sought<'a>>>,
}

/// The request that the words make, if they make one; the first is the program's name.
pub fn request_of<'a>(
    alloc: Global,
    words: &'a [String],
) -> Result<Option<Request<'a>>, AllocError> {
    let [_, path, repeats, steps @ ..] = words else {
        return Ok(None);
    };
    let Ok(repeats) = repeats.as_str().parse::<u32>() else {
        return Ok(None);
    };
    let (hops, lookups) = match steps.iter().position(|step| step.as_str() == "build") {
        Some(at) => (&steps[..at], Some(&steps[at + 1..])),
        None => (steps, None),
    };
    let Some(hops) = windows_of(alloc, hops)? else {
        return Ok(None);
    };
    let lookups = match lookups {
        Some(words) => match windows_of(alloc, words)? {
            Some(lookups) => Some(lookups),
            None => return Ok(None),
        },
        None => None,
    };
    Ok(Some(Request {
        path: path.as_str(),
        repeats,
        hops,
        lookups,
    }))
}

/// The windows that the words name, if each names one.
fn windows_of<'a>(
    alloc: Global,
    words: &'a [String],
) -> Result<Option<Vec<Sought<'a>>>, AllocError> {
    let mut windows = Vec::with_capacity(alloc, words.len())?;
    for word in words {
        let word = word.as_str();
        let Ok(window) = Window::parse(word) else {
            return Ok(None);
        };
        windows.push_reserved(Sought { word, window });
    }
    Ok(Some(windows))
}
