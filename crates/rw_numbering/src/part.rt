//! Programs beside their counts of loops.

ghost use Rattle.std.specs.Prelude.{◌≡◌, Some};
ghost use Rattle.rw_numbering.specs.declared.tally.Tally.{out-Tally};
ghost use Rattle.rw_numbering.specs.Loops.{loops};
ghost use Rattle.rw_numbering.specs.Tallies.{tally_of, part_tally};

use crate::tally::Tally;
use rw_programs::prog::Prog;
use std::marker::Model;

/// A program, or a part of one, beside its tally. Contracts see it as the program.
#[derive(Drop)]
pub struct Part<'a> {
    prog: &'a Prog,
    tally: &'a Tally,
}

impl<'a> Model for Part<'a> {
    ghost use Rattle.std.specs.Prelude.{◌≡◌};
    ghost use Rattle.std.specs.Coded.{codes};
    ghost use Rattle.rw_programs.specs.contracts.prog.Prog as programs;
    ghost use Rattle.rw_programs.specs.declared.prog.Prog.{Prog as Program};
    ghost use Rattle.rw_numbering.specs.Tallies.{tally_of};

    ghost Value = { Program };

    ghost coded = { Prim.hlevel (codes, programs.the_row.coded) };

    ghost view = { λ p. p.prog.now };

    ghost invariant = { λ p. p.tally.now ≡ tally_of p.prog.now };
}

impl<'a> Part<'a> {
    /// A program beside its tally.
    pub fn new(prog: &'a Prog, tally: &'a Tally) -> Part<'a>
        requires { tally.now ≡ tally_of prog.now }
        ensures { result ≡ prog.now }
    {
        Part { prog, tally }
    }

    /// The program.
    pub fn prog(&self) -> &'a Prog
        ensures { result.now ≡ self.now }
    {
        self.prog
    }

    /// How many loops stand in it.
    pub fn loops(&self) -> u64
        ensures { result ≡ loops self.now }
    {
        self.tally.loops
    }

    /// The tallies of its parts.
    pub fn tallies(&self) -> &'a [Tally]
        ensures { result.now ≡ (out-Tally (tally_of self.now)).parts }
    {
        self.tally.parts.as_slice()
    }

    /// A program in it, which has this place among its parts.
    pub fn part(&self, at: usize, prog: &'a Prog) -> Part<'a>
        requires { part_tally self.now at ≡ Some (tally_of prog.now) }
        ensures { result ≡ prog.now }
    {
        Part {
            prog,
            tally: &self.tally.parts.as_slice()[at],
        }
    }
}
