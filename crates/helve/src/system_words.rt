//! The words of the program, as the system gives them.

ghost use Rattle.std.specs.Prelude.{◌≤◌, IfOk, IfSome, length};

use hv_command::{Status, Words};
use std::alloc::AllocError;
use std::env::FillError;
use std::rt::Env;

/// The words after the program's name, which isn't one of them and may be no text. A word that
/// isn't text is no word of a job; running out of memory is told as such.
pub(crate) fn words(rt: &HostRuntime) -> Result<Words, Status> {
    let mut words = Words::new(rt.alloc());
    let mut buffer = Vec::new(rt.alloc());
    buffer.resize(256, 0).map_err(|_| Status::Memory)?;
    for place in 1..usize::MAX {
        match word(rt, place, &mut buffer) {
            Ok(Some(length)) => put_word(&mut words, &buffer.as_slice()[..length])?,
            Ok(None) => break,
            Err(_) => return Err(Status::Memory),
        }
    }
    Ok(words)
}

// Puts the word of these bytes last.
fn put_word(words: &mut Words, bytes: &[u8]) -> Result<(), Status> {
    let Ok(word) = str::from_utf8(bytes) else {
        return Err(Status::Usage);
    };
    words.push(word).map_err(|_| Status::Memory)
}

// Copies the word at this place to the prefix of the buffer and gives its length; none where there
// are fewer words. The buffer is made longer until the word has room.
fn word(rt: &HostRuntime, place: usize, buffer: &mut Vec<u8>) -> Result<Option<usize>, AllocError>
    ensures { IfOk result (λ found. IfSome found (λ n. n ≤ length buffer.new.items)) }
{
    for _ in 0..usize::BITS {
        match rt.arg(place, buffer.as_mut_slice()) {
            Ok(length) => return Ok(Some(length)),
            Err(FillError::NotPresent) => return Ok(None),
            Err(FillError::TooLong) => buffer.resize(buffer.len().saturating_mul(2), 0)?,
        }
    }
    Err(AllocError)
}
