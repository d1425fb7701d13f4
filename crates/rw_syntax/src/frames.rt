//! What is begun and not ended, seen as a list of frames with the innermost first.

ghost use Rattle.std.specs.Prelude.{◌≡◌, ◌≤◌, ◌<◌, ◌+◌, ◌^◌, ℕ, [], ◌∷◌, List, drop, length, IfSome, MatchOption, OnOk, IsTrue, ◌↔◌};
ghost use Rattle.rw_syntax.specs.declared.frame.Frame.{Frame};
ghost use Rattle.rw_syntax.specs.Open.{frame_nest, stack_nest};

use crate::frame::Frame;
use std::alloc::{AllocError, Global};
use std::marker::Model;

/// The open frames, and the nest inside the innermost one.
#[derive(Drop)]
pub struct Frames {
    items: Vec<Frame>,
    nest: u64,
}

impl Model for Frames {
    ghost use Rattle.std.specs.Prelude.{◌≡◌, List, reverse};
    ghost use Rattle.rw_syntax.specs.declared.frame.Frame.{Frame};
    ghost use Rattle.rw_syntax.specs.Open.{stack_nest};
    ghost use Rattle.rw_syntax.specs.contracts.frame.Frame as frames;
    ghost use Rattle.std.specs.Coded.{codes};

    ghost Value = { List Frame };

    ghost coded = { Prim.hlevel (codes, frames.the_row.coded) };

    ghost view = { λ s. reverse s.items.items };

    ghost invariant = { λ s. s.nest ≡ stack_nest (reverse s.items.items) };
}

impl Frames {
    pub fn new(alloc: Global) -> Frames
        ensures { result ≡ [] }
    {
        Frames {
            items: Vec::new(alloc),
            nest: 0,
        }
    }

    pub fn pop(&mut self) -> Option<Frame>
        ensures { MatchOption result (self.old ≡ []) (λ f. self.old ≡ f ∷ self.new) }
    {
        match self.items.pop() {
            Some(frame) => {
                self.nest -= frame_nest(&frame);
                Some(frame)
            }
            None => None,
        }
    }

    pub fn push(&mut self, frame: Frame) -> Result<(), AllocError>
        requires { frame_nest frame (stack_nest self.old) < 2 ^ 64 }
        ensures { OnOk result (self.new ≡ frame ∷ self.old) }
    {
        let more = frame_nest(&frame);
        self.items.push(frame)?;
        self.nest += more;
        Ok(())
    }

    pub fn top(&self) -> Option<&Frame>
        ensures { MatchOption result (self.now ≡ []) (λ f. (below : List Frame) × (self.now ≡ f.now ∷ below)) }
    {
        self.items.last()
    }

    /// The frame that stands so deep below the innermost one.
    pub fn get(&self, depth: usize) -> Option<&Frame>
        ensures frame { MatchOption result (length self.now ≤ depth) (λ f. drop depth self.now ≡ f.now ∷ drop (depth + 1) self.now) }
        ensures next { IfSome result (λ _. depth + 1 < 2 ^ 64) }
    {
        let items = self.items.as_slice();
        if depth < items.len() {
            Some(&items[items.len() - 1 - depth])
        } else {
            None
        }
    }

    pub fn is_empty(&self) -> bool
        ensures { IsTrue result ↔ (self.now ≡ []) }
    {
        self.top().is_none()
    }

    /// The nest of what stands behind the frames.
    pub fn nest(&self) -> u64
        ensures { result ≡ stack_nest self.now }
    {
        self.nest
    }
}

// What a frame adds to the nest.
fn frame_nest(frame: &Frame) -> u64
    ensures { (d : ℕ) → frame_nest frame.now d ≡ d + result }
{
    match frame {
        Frame::Prefix(_) | Frame::Group(_) | Frame::Call(_, _) => 1,
        Frame::Infix(_, _, more) => u64::from(*more),
        Frame::Index(_, indices) => u64::from(*indices) + 1,
    }
}
