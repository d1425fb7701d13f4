//! Texts that are written piece by piece.

ghost use Rattle.std.specs.Prelude.{◌≡◌, [], ◌++◌, OnOk, OnErr, IfOk, IsTrue, decimal};
ghost use Rattle.std.specs.Fmt.{signed_decimal};
ghost use Rattle.rw_terms.specs.Texts.{is_ascii};

use crate::name::Name;
use itoa::Buffer;
use std::alloc::{AllocError, Global};
use std::marker::Model;

/// A list of ASCII bytes. It keeps its allocator, and a call that is refused memory leaves it as it was.
#[derive(Debug, Drop)]
pub struct Text {
    bytes: Vec<u8>,
}

impl Model for Text {
    ghost use Rattle.std.specs.Prelude.{ℕ, List, IsTrue};
    ghost use Rattle.rw_terms.specs.Texts.{is_ascii};

    ghost Value = { List ℕ };

    ghost view = { λ t. t.bytes.items };

    ghost invariant = { λ t. IsTrue (is_ascii t.bytes.items) };
}

impl Text {
    pub fn new(alloc: Global) -> Text
        ensures { result ≡ [] }
    {
        Text {
            bytes: Vec::new(alloc),
        }
    }

    pub fn bytes(&self) -> &[u8]
        ensures value { result.now ≡ self.now }
        ensures ascii { IsTrue (is_ascii self.now) }
    {
        self.bytes.as_slice()
    }

    /// Writes a text of ASCII bytes at the end.
    pub fn push_str(&mut self, text: &str) -> Result<(), AllocError>
        requires { IsTrue (is_ascii text.now) }
        ensures ok { OnOk result (self.new ≡ self.old ++ text.now) }
        ensures err { OnErr result (self.new ≡ self.old) }
    {
        self.push_bytes(text.as_bytes())
    }

    /// Writes a name at the end.
    #[tactic(auto, using(crate::proofs::TextLemmas::name_is_ascii))]
    pub fn push_name(&mut self, name: &Name) -> Result<(), AllocError>
        ensures ok { OnOk result (self.new ≡ self.old ++ name.now) }
        ensures err { OnErr result (self.new ≡ self.old) }
    {
        self.push_bytes(name.bytes())
    }

    /// Writes the decimal digits of a number at the end.
    #[tactic(auto, using(crate::proofs::TextLemmas::ascii_passes))]
    pub fn push_number(&mut self, number: u64) -> Result<(), AllocError>
        ensures ok { OnOk result (self.new ≡ self.old ++ decimal number) }
        ensures err { OnErr result (self.new ≡ self.old) }
    {
        let mut buffer = Buffer::new();
        let digits = buffer.format(number);
        self.push_bytes(digits.as_bytes())
    }

    /// Writes the decimal digits of an integer at the end, behind `-` where it is negative.
    #[tactic(auto, using(crate::proofs::TextLemmas::ascii_passes))]
    pub fn push_integer(&mut self, integer: i128) -> Result<(), AllocError>
        ensures ok { OnOk result (self.new ≡ self.old ++ signed_decimal integer) }
        ensures err { OnErr result (self.new ≡ self.old) }
    {
        let mut buffer = Buffer::new();
        let digits = buffer.format(integer);
        self.push_bytes(digits.as_bytes())
    }

    fn push_bytes(&mut self, bytes: &[u8]) -> Result<(), AllocError>
        requires { IsTrue (is_ascii bytes.now) }
        ensures ok { OnOk result (self.new ≡ self.old ++ bytes.now) }
        ensures err { OnErr result (self.new ≡ self.old) }
    {
        self.bytes.extend_from_slice(bytes)
    }

    /// The same text again.
    pub fn copy(&self, alloc: Global) -> Result<Text, AllocError>
        ensures { IfOk result (λ t. t ≡ self.now) }
    {
        Ok(Text {
            bytes: Vec::from_slice(alloc, self.bytes.as_slice())?,
        })
    }
}
