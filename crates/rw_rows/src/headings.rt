// The lines that begin a script.
ghost use Rattle.std.specs.Prelude.{◌≤◌, ◌<◌, length};

use crate::stop::Stop;
use std::alloc::Global;
use std::str;

const MARK: &[u8] = b"== ";

/// Where the line that begins at a place ends, behind its LF.
pub fn line_end(bytes: &[u8], at: usize) -> usize
    requires { at < length bytes.now }
    ensures later { at < result }
    ensures within { result ≤ length bytes.now }
{
    let mut end = at + 1;
    while end < bytes.len() && bytes[end - 1] != b'\n' {
        end += 1;
    }
    end
}

/// Where the next line begins that is a heading, from the begin of a line on; the end of the bytes where there is none.
pub fn next_heading(bytes: &[u8], from: usize) -> usize
    requires { from ≤ length bytes.now }
    ensures later { from ≤ result }
    ensures within { result ≤ length bytes.now }
{
    let mut at = from;
    while at < bytes.len() && !bytes[at..].starts_with(MARK) {
        at = line_end(bytes, at);
    }
    at
}

/// The words behind the colon of a heading, and `batch` where it has none.
pub fn words_of(alloc: Global, heading: &[u8]) -> Result<Vec<String>, Stop> {
    let mut words = Vec::new(alloc);
    let text = str::from_utf8(heading).unwrap_or("");
    match text.split_once(" : ") {
        None => words.push(String::from_str(alloc, "batch")?)?,
        Some((_, behind)) => {
            for word in behind.split_whitespace() {
                words.push(String::from_str(alloc, word)?)?;
            }
        }
    }
    Ok(words)
}
