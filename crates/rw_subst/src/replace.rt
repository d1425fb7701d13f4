//! Replacement at once, and what is made of it. Every function reckons the size of its result first, and builds none that passes a limit.

ghost use Rattle.std.specs.Prelude.{◌≡◌, IfOk, IfErr, map};
ghost use Rattle.rw_terms.specs.Sorted.{IsSmall};
ghost use Rattle.rw_terms.specs.WellFormed.{IsSmallFormula};
ghost use Rattle.rw_subst.specs.Leaves.{rebuilt_term, rebuilt_formula};
ghost use Rattle.rw_subst.specs.Limits.{IsTermRefusal, IsFormulaRefusal};
ghost use Rattle.rw_subst.specs.Replaced.{replaced_term, replaced_formula, to_initial, from_initial, opened, closed};
ghost use Rattle.rw_subst.specs.Rules.{leaves_of, IsMeasured};

use crate::build::{build, build_term};
use crate::error::SubstError;
use crate::reckon::{size_of_term, size_of_whole};
use crate::rule::Rule;
use crate::size::{fit, size_as_it_is, sizes_of};
use crate::slot::{Change, Slot};
use rw_items::Items;
use rw_terms::name::Name;
use rw_terms::term::{Formula, Term};
use std::alloc::{AllocError, Global};

/// The formula with each slot replaced by the term of its change, all at once. Of two changes of one slot the first counts.
/// No binder captures a name, since binders have numbers; the terms are to have no loose binder.
pub fn replace(alloc: Global, formula: &Formula, changes: &[Change]) -> Result<Formula, SubstError>
    ensures replaced { IfOk result (λ f. f ≡ replaced_formula changes.now formula.now) }
    ensures small { IfOk result IsSmallFormula }
    ensures large { IfErr result (IsFormulaRefusal (replaced_formula changes.now formula.now)) }
{
    let sizes = sizes_of(alloc, changes)?;
    rebuilt(alloc, formula, &Rule::Replace(changes, sizes.as_slice()))
}

/// The same of a term.
pub fn replace_term(alloc: Global, term: &Term, changes: &[Change]) -> Result<Term, SubstError>
    ensures replaced { IfOk result (λ t. t ≡ replaced_term changes.now term.now) }
    ensures small { IfOk result IsSmall }
    ensures large { IfErr result (IsTermRefusal (replaced_term changes.now term.now)) }
{
    let sizes = sizes_of(alloc, changes)?;
    let rule = Rule::Replace(changes, sizes.as_slice());
    fit(size_of_term(&rule, term, 0))?;
    Ok(build_term(alloc, &rule, term, 0)?)
}

/// The formula with each variable of the frame as initial variable.
pub fn to_initial(alloc: Global, formula: &Formula, frame: &[Name]) -> Result<Formula, SubstError>
    ensures replaced { IfOk result (λ f. f ≡ replaced_formula (map to_initial frame.now) formula.now) }
    ensures small { IfOk result IsSmallFormula }
    ensures large { IfErr result (IsFormulaRefusal (replaced_formula (map to_initial frame.now) formula.now)) }
{
    let changes = changes_to_initial(alloc, frame)?;
    replace(alloc, formula, changes.as_slice())
}

/// The term with each variable of the frame as initial variable.
pub fn term_to_initial(alloc: Global, term: &Term, frame: &[Name]) -> Result<Term, SubstError>
    ensures replaced { IfOk result (λ t. t ≡ replaced_term (map to_initial frame.now) term.now) }
    ensures small { IfOk result IsSmall }
    ensures large { IfErr result (IsTermRefusal (replaced_term (map to_initial frame.now) term.now)) }
{
    let changes = changes_to_initial(alloc, frame)?;
    replace_term(alloc, term, changes.as_slice())
}

/// The formula with each initial variable of the frame as variable.
pub fn from_initial(alloc: Global, formula: &Formula, frame: &[Name]) -> Result<Formula, SubstError>
    ensures replaced { IfOk result (λ f. f ≡ replaced_formula (map from_initial frame.now) formula.now) }
    ensures small { IfOk result IsSmallFormula }
    ensures large { IfErr result (IsFormulaRefusal (replaced_formula (map from_initial frame.now) formula.now)) }
{
    let changes = changes_from_initial(alloc, frame)?;
    replace(alloc, formula, changes.as_slice())
}

/// The body of a quantifier with the term for the quantifier's binder. The term is to have no loose binder.
pub fn open(alloc: Global, body: &Formula, term: &Term) -> Result<Formula, SubstError>
    ensures opened { IfOk result (λ f. f ≡ opened term.now body.now) }
    ensures small { IfOk result IsSmallFormula }
    ensures large { IfErr result (IsFormulaRefusal (opened term.now body.now)) }
{
    rebuilt(alloc, body, &Rule::Open(term, size_as_it_is(term)))
}

/// The formula with a loose binder for the slot, as the body of a quantifier. The formula is to have no loose binder of its own.
pub fn close(alloc: Global, formula: &Formula, slot: &Slot) -> Result<Formula, SubstError>
    ensures closed { IfOk result (λ f. f ≡ closed slot.now formula.now) }
    ensures small { IfOk result IsSmallFormula }
    ensures large { IfErr result (IsFormulaRefusal (closed slot.now formula.now)) }
{
    rebuilt(alloc, formula, &Rule::Close(slot))
}

fn rebuilt(alloc: Global, formula: &Formula, rule: &Rule) -> Result<Formula, SubstError>
    requires { IsMeasured rule.now }
    ensures rebuilt { IfOk result (λ f. f ≡ rebuilt_formula (leaves_of rule.now) formula.now 0) }
    ensures small { IfOk result IsSmallFormula }
    ensures large { IfErr result (IsFormulaRefusal (rebuilt_formula (leaves_of rule.now) formula.now 0)) }
{
    fit(size_of_whole(rule, formula))?;
    Ok(build(alloc, rule, formula, 0)?)
}

/// The change of each variable of the frame to its initial variable.
pub fn changes_to_initial(alloc: Global, frame: &[Name]) -> Result<Items<Change>, AllocError>
    ensures { IfOk result (λ changes. changes ≡ map to_initial frame.now) }
{
    let mut changes = Items::new(alloc);
    for name in frame {
        changes.push(Change {
            slot: Slot::Var(name.copy()),
            term: Term::Init(name.copy()),
        })?;
    }
    Ok(changes)
}

/// The change of each initial variable of the frame to its variable.
pub fn changes_from_initial(alloc: Global, frame: &[Name]) -> Result<Items<Change>, AllocError>
    ensures { IfOk result (λ changes. changes ≡ map from_initial frame.now) }
{
    let mut changes = Items::new(alloc);
    for name in frame {
        changes.push(Change {
            slot: Slot::Init(name.copy()),
            term: Term::Var(name.copy()),
        })?;
    }
    Ok(changes)
}
