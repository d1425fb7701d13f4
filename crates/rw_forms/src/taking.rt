//! The parts of requests, read from a place on.

ghost use Rattle.std.specs.Prelude.{◌≡◌, ℕ, ◌≤◌, ◌<◌, ◌^◌, length, IfOk, IfSome, IsTrue};
ghost use Rattle.rw_forms.specs.Forms.{is_text, is_lower, variable_of, constant_of, name_of, number_within, takes, exactly, a_variable, a_constant, any_name, a_number, a_reference};
ghost use Rattle.rw_forms.specs.Phrases.{sort, names, constants, kids, place};
ghost use Rattle.rw_forms.specs.Certificates.{any_number};
ghost use Rattle.rw_tokens.specs.Seen.{seen};
ghost use Rattle.rw_forms.specs.Progress.{IsPlace, Took, Chose, Ended};
ghost use Rattle.rw_forms.specs.declared.request.ReadError.TheVariants as read_error;

use crate::reference::reference_of;
use crate::request::ReadError;
use rw_arith::line::Ref;
use rw_items::Items;
use rw_nodes::edit::{Path, Place, TreeName};
use rw_terms::name::Name;
use rw_terms::term::Sort;
use rw_tokens::token::{LARGEST, Token, token_at};
use std::alloc::Global;

/// The fault at a place.
pub fn fault(at: usize) -> ReadError
    requires { at < 2 ^ 32 }
    ensures { result ≡ read_error.Syntax at }
{
    ReadError::Syntax(at as u32)
}

/// Reads this word or symbol.
pub fn expect(line: &[u8], at: &mut usize, text: &[u8]) -> Result<(), ReadError>
    requires { IsPlace line.now at.old }
    ensures took { Took (takes (exactly text.now)) line.now at.old at.new result }
    ensures on { at.old ≤ at.new }
{
    match token_at(line, *at) {
        Some((token, next)) => {
            if !is_text(token, text) {
                return Err(fault(*at));
            }
            *at = next;
            Ok(())
        }
        None => Err(fault(*at)),
    }
}

/// Reads this word or symbol, if it stands there.
pub fn accept(line: &[u8], at: &mut usize, text: &[u8]) -> bool
    requires { IsPlace line.now at.old }
    ensures chose { Chose text.now line.now at.old at.new result }
    ensures on { at.old ≤ at.new }
    ensures further { IsTrue result → at.old < at.new }
{
    match token_at(line, *at) {
        Some((token, next)) => {
            if !is_text(token, text) {
                return false;
            }
            *at = next;
            true
        }
        None => false,
    }
}

/// Reads a variable's name.
pub fn variable(line: &[u8], at: &mut usize) -> Result<Name, ReadError>
    requires { IsPlace line.now at.old }
    ensures took { Took (takes a_variable) line.now at.old at.new result }
    ensures on { at.old ≤ at.new }
{
    match token_at(line, *at) {
        Some((token, next)) => match variable_of(token) {
            Some(name) => {
                *at = next;
                Ok(name)
            }
            None => Err(fault(*at)),
        },
        None => Err(fault(*at)),
    }
}

/// Reads a constant's name.
pub fn constant(line: &[u8], at: &mut usize) -> Result<Name, ReadError>
    requires { IsPlace line.now at.old }
    ensures took { Took (takes a_constant) line.now at.old at.new result }
    ensures on { at.old ≤ at.new }
{
    match token_at(line, *at) {
        Some((token, next)) => match constant_of(token) {
            Some(name) => {
                *at = next;
                Ok(name)
            }
            None => Err(fault(*at)),
        },
        None => Err(fault(*at)),
    }
}

/// Reads a name, whatever it begins with.
pub fn any_name(line: &[u8], at: &mut usize) -> Result<Name, ReadError>
    requires { IsPlace line.now at.old }
    ensures took { Took (takes any_name) line.now at.old at.new result }
    ensures on { at.old ≤ at.new }
{
    match token_at(line, *at) {
        Some((token, next)) => match name_of(token) {
            Some(name) => {
                *at = next;
                Ok(name)
            }
            None => Err(fault(*at)),
        },
        None => Err(fault(*at)),
    }
}

/// Reads a number from the one to the other.
pub fn number(line: &[u8], at: &mut usize, least: u32, most: u32) -> Result<u32, ReadError>
    requires { IsPlace line.now at.old }
    ensures within { IfOk result (λ n. n ≤ most) }
    ensures took { Took (takes (a_number least most)) line.now at.old at.new result }
    ensures on { at.old ≤ at.new }
{
    match token_at(line, *at) {
        Some((token, next)) => match number_within(least, most, token) {
            Some(n) => {
                *at = next;
                Ok(n)
            }
            None => Err(fault(*at)),
        },
        None => Err(fault(*at)),
    }
}

/// Reads a number of any size.
pub fn any_number(line: &[u8], at: &mut usize) -> Result<u128, ReadError>
    requires { IsPlace line.now at.old }
    ensures within { IfOk result (λ n. n ≤ 170141183460469231731687303715884105727) }
    ensures took { Took any_number line.now at.old at.new result }
    ensures on { at.old ≤ at.new }
{
    match token_at(line, *at) {
        Some((token, next)) => match number_of(token) {
            Some(n) => {
                *at = next;
                Ok(n)
            }
            None => Err(fault(*at)),
        },
        None => Err(fault(*at)),
    }
}

/// Reads what a part of a sum names: `L` or `R` and the number of a formula in one word, or the number of a line.
pub fn reference(line: &[u8], at: &mut usize) -> Result<Ref, ReadError>
    requires { IsPlace line.now at.old }
    ensures took { Took (takes a_reference) line.now at.old at.new result }
    ensures on { at.old ≤ at.new }
{
    match token_at(line, *at) {
        Some((token, next)) => match reference_of(token) {
            Some(reference) => {
                *at = next;
                Ok(reference)
            }
            None => Err(fault(*at)),
        },
        None => Err(fault(*at)),
    }
}

/// Reads a sort: `int`, or `array` and a length.
pub fn sort(line: &[u8], at: &mut usize) -> Result<Sort, ReadError>
    requires { IsPlace line.now at.old }
    ensures took { Took sort line.now at.old at.new result }
    ensures on { at.old ≤ at.new }
{
    if accept(line, at, b"int") {
        return Ok(Sort::Int);
    }
    expect(line, at, b"array")?;
    let length = number(line, at, 1, 1024)?;
    Ok(Sort::Array(length as u16))
}

/// Reads names with commas between them.
pub fn names(alloc: Global, line: &[u8], at: &mut usize) -> Result<Items<Name>, ReadError>
    requires { IsPlace line.now at.old }
    ensures { Took names line.now at.old at.new result }
{
    let mut names = Items::new(alloc);
    let first = variable(line, at)?;
    names.push(first)?;
    'names: while accept(line, at, b",") {
        let name = variable(line, at)?;
        names.push(name)?;
    }
    Ok(names)
}

/// Reads constants with commas between them.
pub fn constants(alloc: Global, line: &[u8], at: &mut usize) -> Result<Items<Name>, ReadError>
    requires { IsPlace line.now at.old }
    ensures { Took constants line.now at.old at.new result }
{
    let mut names = Items::new(alloc);
    let first = constant(line, at)?;
    names.push(first)?;
    'constants: while accept(line, at, b",") {
        let name = constant(line, at)?;
        names.push(name)?;
    }
    Ok(names)
}

/// Reads `main` and kid numbers, each behind `/`.
pub fn place(alloc: Global, line: &[u8], at: &mut usize) -> Result<Place, ReadError>
    requires { IsPlace line.now at.old }
    ensures { Took place line.now at.old at.new result }
{
    expect(line, at, b"main")?;
    kids(alloc, line, at)
}

/// Reads the kid numbers of a place in the main tree, each behind `/`.
pub fn kids(alloc: Global, line: &[u8], at: &mut usize) -> Result<Place, ReadError>
    requires { IsPlace line.now at.old }
    ensures { Took kids line.now at.old at.new result }
{
    let mut kids = Items::new(alloc);
    'kids: while accept(line, at, b"/") {
        let kid = number(line, at, 1, 4294967295)?;
        kids.push(kid)?;
    }
    Ok(Place {
        tree: TreeName::Main,
        path: Path { kids },
    })
}

/// Sees that nothing is left.
pub fn end(line: &[u8], at: usize) -> Result<(), ReadError>
    requires { IsPlace line.now at }
    ensures { Ended line.now at result }
{
    if at < line.len() {
        return Err(fault(at));
    }
    Ok(())
}

fn is_text(token: Token, text: &[u8]) -> bool
    ensures { result ≡ is_text text.now (seen token.entry) }
{
    match token {
        Token::Text(found) => found == text,
        Token::Number(_) | Token::Binder(_) => false,
    }
}

fn variable_of(token: Token) -> Option<Name>
    ensures { result ≡ variable_of (seen token.entry) }
{
    match token {
        Token::Text(text) => match Name::read(text) {
            Ok(name) => { if is_lower(text) { Some(name) } else { None } }
            Err(_) => None,
        },
        Token::Number(_) | Token::Binder(_) => None,
    }
}

fn is_lower(text: &[u8]) -> bool
    ensures { result ≡ is_lower text.now }
{
    match text {
        [] => false,
        [first, ..] => *first >= b'a',
    }
}

fn number_within(least: u32, most: u32, token: Token) -> Option<u32>
    ensures number { result ≡ number_within least most (seen token.entry) }
    ensures within { IfSome result (λ n. n ≤ most) }
{
    match token {
        Token::Number(n) => {
            if u128::from(least) <= n && n <= u128::from(most) {
                Some(n as u32)
            } else {
                None
            }
        }
        Token::Text(_) | Token::Binder(_) => None,
    }
}

fn constant_of(token: Token) -> Option<Name>
    ensures { result ≡ constant_of (seen token.entry) }
{
    match token {
        Token::Text(text) => match Name::read(text) {
            Ok(name) => { if is_lower(text) { None } else { Some(name) } }
            Err(_) => None,
        },
        Token::Number(_) | Token::Binder(_) => None,
    }
}

fn name_of(token: Token) -> Option<Name>
    ensures { result ≡ name_of (seen token.entry) }
{
    match token {
        Token::Text(text) => match Name::read(text) {
            Ok(name) => Some(name),
            Err(_) => None,
        },
        Token::Number(_) | Token::Binder(_) => None,
    }
}

fn number_of(token: Token) -> Option<u128>
    ensures number { result ≡ number_within 0 170141183460469231731687303715884105727 (seen token.entry) }
    ensures within { IfSome result (λ n. n ≤ 170141183460469231731687303715884105727) }
{
    match token {
        Token::Number(n) => { if n <= LARGEST { Some(n) } else { None } }
        Token::Text(_) | Token::Binder(_) => None,
    }
}
