//! Names of trees.

ghost use Rattle.std.specs.Prelude.{◌≡◌};
ghost use Rattle.rw_edits.specs.Names.{is_tree, goes_with};

use crate::edit::TreeName;
use rw_terms::name::Name;

impl TreeName {
    /// The same name again. It takes no memory.
    pub fn copy(&self) -> TreeName
        ensures { result ≡ self.now }
    {
        match self {
            TreeName::Main => TreeName::Main,
            TreeName::Proc(name) => TreeName::Proc(name.copy()),
            TreeName::Start(module) => TreeName::Start(module.copy()),
            TreeName::Oper(module, name) => TreeName::Oper(module.copy(), name.copy()),
        }
    }

    /// Whether two names are one.
    pub fn is(&self, other: &TreeName) -> bool
        ensures { result ≡ is_tree self.now other.now }
    {
        match (self, other) {
            (TreeName::Main, TreeName::Main) => true,
            (TreeName::Proc(one), TreeName::Proc(two)) => one.is(two),
            (TreeName::Start(one), TreeName::Start(two)) => one.is(two),
            (TreeName::Oper(module, one), TreeName::Oper(other, two)) => {
                module.is(other) && one.is(two)
            }
            _ => false,
        }
    }

    /// Whether the tree is one of the table entry of the name.
    pub fn goes_with(&self, name: &Name) -> bool
        ensures { result ≡ goes_with name.now self.now }
    {
        match self {
            TreeName::Main => false,
            TreeName::Proc(own) => own.is(name),
            TreeName::Start(module) => module.is(name),
            TreeName::Oper(module, _) => module.is(name),
        }
    }
}
