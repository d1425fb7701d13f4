//! Reads requests and certificates.

ghost use Rattle.std.specs.Prelude.{◌≡◌, ℕ, ◌<◌, ◌^◌, ◌⊎◌, length, IfOk, IfErr};
ghost use Rattle.rw_reader.specs.Requests.{var_form, root_form, step_form, prove_form, status_form, goal_form, find_form};
ghost use Rattle.rw_reader.specs.Reading.{reading, reads, fault};
ghost use Rattle.rw_forms.specs.Certificates.{CertSpells, IsCertFault};
ghost use Rattle.rw_forms.specs.Progress.{IsPlace, Answers};
ghost use Rattle.rw_forms.specs.declared.request.ReadError.TheVariants as read_error;

use crate::certificate::cert;
use crate::step::step;
use crate::table::{read_define, read_drop, read_lemma};
use rw_forms::request::{ReadError, Request};
use rw_forms::taking::{accept, any_name, end, expect, kids, number, place, sort, variable};
use rw_forms::value::spec;
use rw_items::Boxed;
use rw_nodes::edit::Edit;
use rw_programs::prog::Param;
use rw_sequents::line::Cert;
use rw_tokens::token::skip;
use std::alloc::Global;

/// Reads a line as a request. Its tokens spell that request; else the fault is told, where its tokens cannot go on.
/// A line has fewer than 2^32 bytes, since an offset is a `u32`.
pub fn read_request(alloc: Global, line: &[u8]) -> Result<Request, ReadError>
    requires { length line.now < 2 ^ 32 }
    ensures ok { IfOk result (λ r. reading line.now ≡ reads r) }
    ensures err { IfErr result (λ e. (e ≡ read_error.Memory) ⊎ ((o : ℕ) × (e ≡ read_error.Syntax o) × (reading line.now ≡ fault o))) }
{
    let mut at = skip(line, 0);
    if accept(line, &mut at, b"var") {
        return read_var(line, at);
    }
    if accept(line, &mut at, b"root") {
        return read_root(alloc, line, at);
    }
    if accept(line, &mut at, b"step") {
        return read_step(alloc, line, at);
    }
    if accept(line, &mut at, b"prove") {
        return read_prove(alloc, line, at);
    }
    if accept(line, &mut at, b"status") {
        return read_status(alloc, line, at);
    }
    if accept(line, &mut at, b"define") {
        return read_define(alloc, line, at);
    }
    if accept(line, &mut at, b"lemma") {
        return read_lemma(alloc, line, at);
    }
    if accept(line, &mut at, b"drop") {
        return read_drop(line, at);
    }
    if accept(line, &mut at, b"find") {
        return read_find(alloc, line, at);
    }
    expect(line, &mut at, b"goal")?;
    read_goal(alloc, line, at)
}

/// Reads a text as a certificate. Its tokens spell that certificate; else the fault is told, where its tokens cannot go
/// on. A text has fewer than 2^32 bytes, since an offset is a `u32`.
pub fn read_cert(alloc: Global, text: &[u8]) -> Result<Cert, ReadError>
    requires { length text.now < 2 ^ 32 }
    ensures ok { IfOk result (λ c. CertSpells text.now c) }
    ensures err { IfErr result (λ e. (e ≡ read_error.Memory) ⊎ ((o : ℕ) × (e ≡ read_error.Syntax o) × IsCertFault text.now o)) }
{
    let mut at = skip(text, 0);
    let lines = cert(alloc, text, &mut at)?;
    end(text, at)?;
    Ok(Cert { lines })
}

// `NAME : SORT`
fn read_var(line: &[u8], mut at: usize) -> Result<Request, ReadError>
    requires { IsPlace line.now at }
    ensures { Answers var_form line.now at result }
{
    let name = variable(line, &mut at)?;
    expect(line, &mut at, b":")?;
    let sort = sort(line, &mut at)?;
    end(line, at)?;
    Ok(Request::Edit(Edit::Var(Param { name, sort })))
}

// `SPEC`
fn read_root(alloc: Global, line: &[u8], mut at: usize) -> Result<Request, ReadError>
    requires { IsPlace line.now at }
    ensures { Answers root_form line.now at result }
{
    let spec = spec(alloc, line, &mut at)?;
    end(line, at)?;
    Ok(Request::Edit(Edit::Root(spec.into_inner())))
}

// `PLACE STEP`, or `PLACE open`
fn read_step(alloc: Global, line: &[u8], mut at: usize) -> Result<Request, ReadError>
    requires { IsPlace line.now at }
    ensures { Answers step_form line.now at result }
{
    let place = place(alloc, line, &mut at)?;
    if accept(line, &mut at, b"open") {
        end(line, at)?;
        return Ok(Request::Edit(Edit::Clear(place)));
    }
    let made = step(alloc, line, &mut at)?;
    let made = Boxed::new(alloc, made)?;
    end(line, at)?;
    Ok(Request::Edit(Edit::Step(place, made.into_inner())))
}

// `PLACE NUMBER CERT`, or `lemma NAME CERT`
fn read_prove(alloc: Global, line: &[u8], mut at: usize) -> Result<Request, ReadError>
    requires { IsPlace line.now at }
    ensures { Answers prove_form line.now at result }
{
    if accept(line, &mut at, b"lemma") {
        let name = any_name(line, &mut at)?;
        let lines = cert(alloc, line, &mut at)?;
        end(line, at)?;
        return Ok(Request::Edit(Edit::ProveLemma(name, Cert { lines })));
    }
    let place = place(alloc, line, &mut at)?;
    let number = number(line, &mut at, 0, 4294967295)?;
    let lines = cert(alloc, line, &mut at)?;
    end(line, at)?;
    Ok(Request::Edit(Edit::Prove(place, number, Cert { lines })))
}

// Nothing, `all`, `PLACE` or `lemma NAME`
fn read_status(alloc: Global, line: &[u8], mut at: usize) -> Result<Request, ReadError>
    requires { IsPlace line.now at }
    ensures { Answers status_form line.now at result }
{
    if accept(line, &mut at, b"all") {
        end(line, at)?;
        return Ok(Request::StatusAll);
    }
    if accept(line, &mut at, b"main") {
        let place = kids(alloc, line, &mut at)?;
        end(line, at)?;
        return Ok(Request::StatusAt(place));
    }
    if accept(line, &mut at, b"lemma") {
        let name = any_name(line, &mut at)?;
        end(line, at)?;
        return Ok(Request::StatusLemma(name));
    }
    end(line, at)?;
    Ok(Request::Status)
}

// `PLACE`
fn read_goal(alloc: Global, line: &[u8], mut at: usize) -> Result<Request, ReadError>
    requires { IsPlace line.now at }
    ensures { Answers goal_form line.now at result }
{
    let place = place(alloc, line, &mut at)?;
    end(line, at)?;
    Ok(Request::Goal(place))
}

// `PLACE NUMBER`
fn read_find(alloc: Global, line: &[u8], mut at: usize) -> Result<Request, ReadError>
    requires { IsPlace line.now at }
    ensures { Answers find_form line.now at result }
{
    let place = place(alloc, line, &mut at)?;
    let number = number(line, &mut at, 0, 4294967295)?;
    end(line, at)?;
    Ok(Request::Find(place, number))
}
