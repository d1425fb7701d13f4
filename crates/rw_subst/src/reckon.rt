//! How large the result of a rule is, reckoned without building it.

ghost use Rattle.std.specs.Prelude.{◌≡◌, ◌+◌, ◌≤◌, min, map};
ghost use Rattle.rw_terms.specs.Size.{term_weight, terms_weight, formula_weight, term_depth, terms_depth, formula_depth};
ghost use Rattle.rw_subst.specs.Leaves.{rebuilt_term, rebuilt_formula};
ghost use Rattle.rw_subst.specs.Rules.{leaves_of, IsMeasured};
ghost use Rattle.rw_subst.specs.Sizes.{term_size};
ghost use Rattle.rw_subst.specs.Slots.{changed};

use crate::rule::Rule;
use crate::size::{NONE, ONE, Size, above, above_two, beside};
use crate::slot::{Change, Form};
use rw_terms::measure;
use rw_terms::name::Name;
use rw_terms::term::{Formula, Term};

/// The size of the whole formula built again.
pub fn size_of_whole(rule: &Rule, formula: &Formula) -> Size
    requires { IsMeasured rule.now }
    ensures weight { result.weight ≡ min (formula_weight (rebuilt_formula (leaves_of rule.now) formula.now 0)) u32.MAX }
    ensures depth { result.depth ≡ min (formula_depth (rebuilt_formula (leaves_of rule.now) formula.now 0)) u32.MAX }
{
    if measure::depth(formula) == u32::MAX {
        return Size {
            weight: u32::MAX,
            depth: u32::MAX,
        };
    }
    size_of_formula(rule, formula, 0)
}

/// The size of a formula built again, with so many binders around it.
pub fn size_of_formula(rule: &Rule, formula: &Formula, under: u32) -> Size
    requires measured { IsMeasured rule.now }
    requires room { under + formula_depth formula.now ≤ u32.MAX }
    ensures weight { result.weight ≡ min (formula_weight (rebuilt_formula (leaves_of rule.now) formula.now under)) u32.MAX }
    ensures depth { result.depth ≡ min (formula_depth (rebuilt_formula (leaves_of rule.now) formula.now under)) u32.MAX }
{
    match formula {
        Formula::True | Formula::False => ONE,
        Formula::Eq(t, u) | Formula::Less(t, u) | Formula::AtMost(t, u) => {
            above_two(size_of_term(rule, t, under), size_of_term(rule, u, under))
        }
        Formula::Not(f) => above(size_of_formula(rule, f.get(), under)),
        Formula::All(_, f) | Formula::Any(_, f) => above(size_of_formula(rule, f.get(), under + 1)),
        Formula::And(f, g) | Formula::Or(f, g) | Formula::Imp(f, g) => {
            above_two(
                size_of_formula(rule, f.get(), under),
                size_of_formula(rule, g.get(), under),
            )
        }
        Formula::App(_, args) => above(size_of_terms(rule, args.as_slice(), under)),
    }
}

/// The size of a term built again, with so many binders around it.
#[cycle(size_of_term)]
pub fn size_of_term(rule: &Rule, term: &Term, under: u32) -> Size
    requires { IsMeasured rule.now }
    ensures weight { result.weight ≡ min (term_weight (rebuilt_term (leaves_of rule.now) under term.now)) u32.MAX }
    ensures depth { result.depth ≡ min (term_depth (rebuilt_term (leaves_of rule.now) under term.now)) u32.MAX }
{
    match term {
        Term::Lit(_) => ONE,
        Term::Var(x) => size_for_name(rule, under, Form::Variable, x),
        Term::Init(x) => size_for_name(rule, under, Form::Initial, x),
        Term::Const(x) => size_for_name(rule, under, Form::Constant, x),
        Term::Bound(k) => size_for_binder(rule, under, *k),
        Term::Neg(a) => above(size_of_term(rule, a.get(), under)),
        Term::Add(a, b)
        | Term::Sub(a, b)
        | Term::Mul(a, b)
        | Term::Div(a, b)
        | Term::Mod(a, b)
        | Term::Read(a, b) => above_two(
            size_of_term(rule, a.get(), under),
            size_of_term(rule, b.get(), under),
        ),
        Term::Put(a, i, e) => above(beside(
            size_of_term(rule, a.get(), under),
            beside(
                size_of_term(rule, i.get(), under),
                size_of_term(rule, e.get(), under),
            ),
        )),
        Term::Fun(_, args) => above(size_of_terms(rule, args.as_slice(), under)),
    }
}

#[cycle(size_of_term)]
fn size_of_terms(rule: &Rule, terms: &[Term], under: u32) -> Size
    requires { IsMeasured rule.now }
    ensures weight { result.weight ≡ min (terms_weight (map (rebuilt_term (leaves_of rule.now) under) terms.now)) u32.MAX }
    ensures depth { result.depth ≡ min (terms_depth (map (rebuilt_term (leaves_of rule.now) under) terms.now)) u32.MAX }
{
    let mut all = NONE;
    for term in terms {
        all = beside(all, size_of_term(rule, term, under));
    }
    all
}

fn size_for_name(rule: &Rule, under: u32, form: Form, name: &Name) -> Size
    requires { IsMeasured rule.now }
    ensures weight { result.weight ≡ min (term_weight ((leaves_of rule.now).name under form name.now)) u32.MAX }
    ensures depth { result.depth ≡ min (term_depth ((leaves_of rule.now).name under form name.now)) u32.MAX }
{
    match rule {
        Rule::Replace(changes, sizes) => size_of_change(changes, sizes, form, name),
        _ => ONE,
    }
}

fn size_for_binder(rule: &Rule, under: u32, binder: u32) -> Size
    requires { IsMeasured rule.now }
    ensures weight { result.weight ≡ min (term_weight ((leaves_of rule.now).binder under binder)) u32.MAX }
    ensures depth { result.depth ≡ min (term_depth ((leaves_of rule.now).binder under binder)) u32.MAX }
{
    match rule {
        Rule::Open(_, size) if binder == under => *size,
        _ => ONE,
    }
}

// The size of the term that a name in a form is changed to.
fn size_of_change(changes: &[Change], sizes: &[Size], form: Form, name: &Name) -> Size
    requires { sizes.now ≡ map (λ c. term_size c.term) changes.now }
    ensures { result ≡ term_size (changed changes.now form name.now) }
{
    for i in 0..changes.len() {
        if changes[i].slot.is(form, name) {
            return sizes[i];
        }
    }
    ONE
}
