// Making replies.
ghost use Rattle.std.specs.Prelude.{◌≡◌, IsTrue, IfOk, IfErr, length, string_bytes};
ghost use Rattle.rw_http.specs.Replies.{is_desk_status, phrase, content_type, reply_head, reply_text};

use crate::{Bytes, HttpError};
use http::StatusCode;
use rw_items::Items;
use std::alloc::{AllocError, Global};

fn phrase(status: u16) -> &'static str
    requires { IsTrue (is_desk_status status) }
    ensures { result.now ≡ phrase status }
{
    match StatusCode::from_u16(status) {
        Ok(code) => code.canonical_reason().unwrap_or(""),
        Err(_) => unreachable!(),
    }
}

fn content_type(plain: bool) -> &'static str
    ensures { result.now ≡ content_type plain }
{
    if plain {
        "text/plain"
    } else {
        "application/json"
    }
}

fn reply_head(alloc: Global, status: u16, plain: bool, size: usize) -> Result<String, AllocError>
    requires { IsTrue (is_desk_status status) }
    ensures { IfOk result (λ head. string_bytes head ≡ reply_head status plain size) }
{
    let phrase = phrase(status);
    let kind = content_type(plain);
    format!(in alloc;
        "HTTP/1.1 {status} {phrase}\r\nContent-Type: {kind}\r\nContent-Length: {size}\r\n\r\n"
    )
}

/// The bytes of a reply: of text where it is plain, else of JSON. The status is 200, 400, 404, 405, 409, 413, 422 or 423.
#[tactic(auto, unfolding(crate::specs::Replies::reply_text))]
pub fn reply_bytes(alloc: Global, status: u16, plain: bool, body: &[u8]) -> Result<Bytes, HttpError>
    requires { IsTrue (is_desk_status status) }
    ensures bytes { IfOk result (λ bytes. bytes ≡ reply_text status plain body.now) }
    ensures errors { IfErr result (λ e. e ≡ HttpError.Memory) }
{
    let mut bytes = reply_head(alloc, status, plain, body.len())?.into_bytes();
    bytes.extend_from_slice(body)?;
    Ok(Items::from_vec(bytes))
}
