//! Whether a program is code. These calls take no memory.

ghost use Rattle.std.specs.Prelude.{◌≡◌};
ghost use Rattle.rw_programs.specs.CodeTest.{is_plain, are_plain, is_guard, is_code, arms_are_code};

use crate::prog::{Arm, Prog};
use rw_terms::term::{Formula, Term};

/// Whether the program is code: no specification, kid or block of constants is in it, and no term, guard or variant holds an
/// initial variable, a constant, a predicate or a quantifier.
#[cycle(is_code)]
#[tactic(auto, using(crate::proofs::Coded::seq_code, crate::proofs::Coded::if_code, crate::proofs::Coded::do_code, crate::proofs::Coded::block_code, crate::proofs::Coded::con_code, crate::proofs::Coded::module_code))]
pub fn is_code(prog: &Prog) -> bool
    ensures { result ≡ is_code prog.now }
{
    match prog {
        Prog::Spec(_) | Prog::Kid(_) | Prog::Con(_, _) => false,
        Prog::Skip => true,
        Prog::Assign(_, terms) => are_plain(terms.as_slice()),
        Prog::Seq(first, second) => is_code(first.get()) && is_code(second.get()),
        Prog::If(arms) => are_code(arms.as_slice()),
        Prog::Do(variant, arms) => is_plain(variant) && are_code(arms.as_slice()),
        Prog::Block(_, _, body) => is_code(body.get()),
        Prog::ModBlock(_, body) => is_code(body.get()),
        Prog::Call(_, args, _) | Prog::OpCall(_, _, args, _) => are_plain(args.as_slice()),
    }
}

#[cycle(is_code)]
fn are_code(arms: &[Arm]) -> bool
    ensures { result ≡ arms_are_code arms.now }
{
    for arm in arms {
        if !is_guard(&arm.guard) {
            return false;
        }
        if !is_code(&arm.body) {
            return false;
        }
    }
    true
}

/// Whether no initial variable, constant, predicate or quantifier is in a guard.
pub fn is_guard(guard: &Formula) -> bool
    ensures { result ≡ is_guard guard.now }
{
    match guard {
        Formula::True | Formula::False => true,
        Formula::Eq(t, u) | Formula::Less(t, u) | Formula::AtMost(t, u) => {
            is_plain(t) && is_plain(u)
        }
        Formula::Not(f) => is_guard(f.get()),
        Formula::And(f, g) | Formula::Or(f, g) | Formula::Imp(f, g) => {
            is_guard(f.get()) && is_guard(g.get())
        }
        Formula::All(_, _) | Formula::Any(_, _) | Formula::App(_, _) => false,
    }
}

/// Whether no initial variable and no constant is in a term.
#[cycle(is_plain)]
pub fn is_plain(term: &Term) -> bool
    ensures { result ≡ is_plain term.now }
{
    match term {
        Term::Lit(_) | Term::Var(_) | Term::Bound(_) => true,
        Term::Init(_) | Term::Const(_) => false,
        Term::Neg(a) => is_plain(a.get()),
        Term::Add(a, b)
        | Term::Sub(a, b)
        | Term::Mul(a, b)
        | Term::Div(a, b)
        | Term::Mod(a, b)
        | Term::Read(a, b) => is_plain(a.get()) && is_plain(b.get()),
        Term::Put(a, i, e) => is_plain(a.get()) && (is_plain(i.get()) && is_plain(e.get())),
        Term::Fun(_, args) => are_plain(args.as_slice()),
    }
}

/// The same of each of the terms.
#[cycle(is_plain)]
pub fn are_plain(terms: &[Term]) -> bool
    ensures { result ≡ are_plain terms.now }
{
    for term in terms {
        if !is_plain(term) {
            return false;
        }
    }
    true
}
