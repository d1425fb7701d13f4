//! What is put for the names and the binders of a term.

ghost use Rattle.std.specs.Prelude.{◌≡◌, IfOk, unwrap_or, option_copied};
ghost use Rattle.rw_subst.specs.Slots.{plain, changed};
ghost use Rattle.rw_subst.specs.Rules.{leaves_of};

use crate::size::Size;
use crate::slot::{Change, Form, Slot};
use rw_terms::name::Name;
use rw_terms::term::Term;
use std::alloc::{AllocError, Global};

/// What is put for the names and the binders of a term.
#[derive(Clone, Copy)]
pub enum Rule<'a> {
    /// The terms of changes for their slots, and the size of each of them.
    Replace(&'a [Change], &'a [Size]),
    /// A term for the loose binder, and its size.
    Open(&'a Term, Size),
    /// A loose binder for a slot.
    Close(&'a Slot),
}

/// What stands for a name under so many binders.
pub fn for_name(
    alloc: Global,
    rule: &Rule,
    under: u32,
    form: Form,
    name: &Name,
) -> Result<Term, AllocError>
    ensures { IfOk result (λ t. t ≡ (leaves_of rule.now).name under form name.now) }
{
    match rule {
        Rule::Replace(changes, _) => match find(changes, form, name) {
            Some(term) => term.copy(alloc),
            None => Ok(plain(form, name)),
        },
        Rule::Open(_, _) => Ok(plain(form, name)),
        Rule::Close(slot) => {
            if slot.is(form, name) {
                Ok(Term::Bound(under))
            } else {
                Ok(plain(form, name))
            }
        }
    }
}

/// What stands for a binder under so many others.
pub fn for_binder(alloc: Global, rule: &Rule, under: u32, binder: u32) -> Result<Term, AllocError>
    ensures { IfOk result (λ t. t ≡ (leaves_of rule.now).binder under binder) }
{
    match rule {
        Rule::Open(term, _) if binder == under => term.copy(alloc),
        _ => Ok(Term::Bound(binder)),
    }
}

/// The term that a name is in a form.
pub fn plain(form: Form, name: &Name) -> Term
    ensures { result ≡ plain form name.now }
{
    match form {
        Form::Variable => Term::Var(name.copy()),
        Form::Initial => Term::Init(name.copy()),
        Form::Constant => Term::Const(name.copy()),
    }
}

/// The term of the first change of a name in a form.
pub fn find<'a>(changes: &'a [Change], form: Form, name: &Name) -> Option<&'a Term>
    ensures { unwrap_or (option_copied result) (plain form name.now) ≡ changed changes.now form name.now }
{
    for change in changes {
        if change.slot.is(form, name) {
            return Some(&change.term);
        }
    }
    None
}
