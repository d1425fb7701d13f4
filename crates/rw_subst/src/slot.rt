ghost use Rattle.std.specs.Prelude.{◌≡◌, option_copied};
ghost use Rattle.rw_subst.specs.Slots.{is_slot};

use rw_terms::name::Name;
use rw_terms::term::Term;

/// The forms in which a name stands in a term.
#[derive(Clone, Copy, Debug, PartialEq, Eq)]
pub enum Form {
    Variable,
    Initial,
    Constant,
}

/// A name in one of its forms.
#[derive(Drop)]
pub enum Slot {
    Var(Name),
    Init(Name),
    Const(Name),
}

/// A slot and the term to put for it.
#[derive(Drop)]
pub struct Change {
    pub slot: Slot,
    pub term: Term,
}

impl Slot {
    /// Whether it is the slot of this name in this form.
    pub fn is(&self, form: Form, name: &Name) -> bool
        ensures { result ≡ is_slot form name.now self.now }
    {
        match (form, self) {
            (Form::Variable, Slot::Var(x)) => name.is(x),
            (Form::Initial, Slot::Init(x)) => name.is(x),
            (Form::Constant, Slot::Const(x)) => name.is(x),
            _ => false,
        }
    }
}
