//! The levels in the grammar of what is printed.

ghost use Rattle.std.specs.Prelude.{◌≡◌, ℕ, map, cond};
ghost use Rattle.rw_syntax.specs.Grammar.{level, fits};
ghost use Rattle.rw_printer.specs.Trees.{term_tree, formula_tree, argument_trees, application, is_quantified};

use rw_items::Items;
use rw_syntax::table::{is_upper, level_of};
use rw_syntax::token::Infix;
use rw_terms::name::Name;
use rw_terms::term::{Formula, Term};

/// The level of a term, whatever binders are around it.
pub fn term_level(term: &Term) -> u8
    ensures { (d : ℕ) → result ≡ level (term_tree term.now d) }
{
    match term {
        Term::Lit(n) => { if *n < 0 { 8 } else { 9 } }
        Term::Var(_) | Term::Init(_) | Term::Const(_) | Term::Bound(_) => 9,
        Term::Neg(_) => 8,
        Term::Add(_, _) => level_of(Infix::Plus),
        Term::Sub(_, _) => level_of(Infix::Minus),
        Term::Mul(_, _) => level_of(Infix::Times),
        Term::Div(_, _) => level_of(Infix::Div),
        Term::Mod(_, _) => level_of(Infix::Mod),
        Term::Read(_, _) | Term::Put(_, _, _) => 9,
        Term::Fun(f, args) => application_level(f, args),
    }
}

/// The level of a formula, whatever binders are around it.
pub fn formula_level(formula: &Formula) -> u8
    ensures { (d : ℕ) → result ≡ level (formula_tree formula.now d) }
{
    match formula {
        Formula::True | Formula::False => 5,
        Formula::Eq(_, _) => level_of(Infix::Equal),
        Formula::Less(_, _) => level_of(Infix::Less),
        Formula::AtMost(_, _) => level_of(Infix::AtMost),
        Formula::Not(_) => 4,
        Formula::And(_, _) => level_of(Infix::And),
        Formula::Or(_, _) => level_of(Infix::Or),
        Formula::Imp(_, _) => level_of(Infix::Implies),
        Formula::All(_, _) | Formula::Any(_, _) => 1,
        Formula::App(p, args) => application_level(p, args),
    }
}

// The level of a function or a predicate of terms.
#[tactic(auto, using(crate::proofs::LevelLemmas::application_level))]
fn application_level(name: &Name, args: &Items<Term>) -> u8
    ensures { (d : ℕ) → result ≡ level (application name.now (argument_trees args.now d)) }
{
    if args.is_empty() {
        return 9;
    }
    if is_upper(name) { 5 } else { 9 }
}

/// Whether a formula is quantified.
pub fn is_quantified(formula: &Formula) -> bool
    ensures { (d : ℕ) → result ≡ is_quantified (formula_tree formula.now d) }
{
    match formula {
        Formula::All(_, _) | Formula::Any(_, _) => true,
        Formula::True | Formula::False => false,
        Formula::Eq(_, _) | Formula::Less(_, _) | Formula::AtMost(_, _) => false,
        Formula::Not(_) | Formula::And(_, _) | Formula::Or(_, _) | Formula::Imp(_, _) => false,
        Formula::App(_, _) => false,
    }
}
