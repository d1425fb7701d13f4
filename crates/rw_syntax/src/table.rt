//! The levels of operators and frames.

ghost use Rattle.std.specs.Prelude.{◌≡◌, leb};
ghost use Rattle.rw_syntax.specs.Grammar.{level_of, left_of, right_of, prefix_level, head_level, is_upper, shut, fits, is_binder, is_length};
ghost use Rattle.rw_syntax.specs.Machine.{frame_level, frame_hole, frame_chain};

use crate::frame::{Binder, Frame, Head, Prefix};
use crate::token::Infix;
use rw_terms::name::Name;

pub fn level_of(op: Infix) -> u8
    ensures { result ≡ level_of op }
{
    match op {
        Infix::Implies => 1,
        Infix::Or => 2,
        Infix::And => 3,
        Infix::Equal
        | Infix::Unequal
        | Infix::Less
        | Infix::AtMost
        | Infix::Greater
        | Infix::AtLeast => 5,
        Infix::Plus | Infix::Minus => 6,
        Infix::Times | Infix::Div | Infix::Mod => 7,
    }
}

pub fn left_of(op: Infix) -> u8
    ensures { result ≡ left_of op }
{
    match op {
        Infix::Implies | Infix::Or => 2,
        Infix::And => 3,
        Infix::Equal
        | Infix::Unequal
        | Infix::Less
        | Infix::AtMost
        | Infix::Greater
        | Infix::AtLeast
        | Infix::Plus
        | Infix::Minus => 6,
        Infix::Times | Infix::Div | Infix::Mod => 7,
    }
}

pub fn right_of(op: Infix) -> u8
    ensures { result ≡ right_of op }
{
    match op {
        Infix::Implies => 1,
        Infix::Or => 3,
        Infix::And => 4,
        Infix::Equal
        | Infix::Unequal
        | Infix::Less
        | Infix::AtMost
        | Infix::Greater
        | Infix::AtLeast => 6,
        Infix::Plus | Infix::Minus => 7,
        Infix::Times | Infix::Div | Infix::Mod => 8,
    }
}

pub fn prefix_level(prefix: &Prefix) -> u8
    ensures { result ≡ prefix_level prefix.now }
{
    match prefix {
        Prefix::Minus => 8,
        Prefix::Not => 4,
        Prefix::Bind(_, _, _) => 1,
    }
}

/// Whether a name begins with an upper-case letter.
pub fn is_upper(name: &Name) -> bool
    ensures { result ≡ is_upper name.now }
{
    match name.bytes() {
        [] => true,
        [first, ..] => *first <= b'Z',
    }
}

pub fn head_level(head: &Head) -> u8
    ensures { result ≡ head_level head.now }
{
    match head {
        Head::Put => 9,
        Head::Named(name) => { if is_upper(name) { 5 } else { 9 } }
    }
}

pub fn shut(level: u8) -> u8
    ensures { result ≡ shut level }
{
    if level >= 6 { 9 } else { 5 }
}

pub fn fits(wanted: u8, level: u8) -> bool
    ensures { result ≡ fits wanted level }
{
    wanted <= level && (wanted >= 6 || level < 6)
}

pub fn is_binder(binder: &Binder) -> bool
    ensures { result ≡ is_binder binder.now }
{
    match binder {
        Binder::Named(name) => !is_upper(name),
        Binder::Numbered(_) => true,
    }
}

pub fn is_length(n: u128) -> bool
    ensures { result ≡ is_length n }
{
    1 <= n && n <= 1024
}

pub fn frame_level(frame: &Frame) -> u8
    ensures { result ≡ frame_level frame.now }
{
    match frame {
        Frame::Prefix(prefix) => prefix_level(prefix),
        Frame::Infix(op, _, _) => level_of(*op),
        Frame::Group(_) | Frame::Index(_, _) | Frame::Call(_, _) => 0,
    }
}

pub fn frame_hole(frame: &Frame) -> u8
    ensures { result ≡ frame_hole frame.now }
{
    match frame {
        Frame::Prefix(prefix) => prefix_level(prefix),
        Frame::Infix(op, _, _) => right_of(*op),
        Frame::Group(only) => { if *only { 6 } else { 1 } }
        Frame::Index(_, _) | Frame::Call(_, _) => 6,
    }
}

pub fn frame_chain(frame: &Frame) -> u32
    ensures { result ≡ frame_chain frame.now }
{
    match frame {
        Frame::Infix(_, _, chain) => *chain,
        Frame::Prefix(_) | Frame::Group(_) | Frame::Index(_, _) | Frame::Call(_, _) => 0,
    }
}
