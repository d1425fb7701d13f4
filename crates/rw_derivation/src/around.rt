//! What surrounds the steps of a project's trees.

ghost use Rattle.std.specs.Prelude.{◌≡◌};
ghost use Rattle.rw_library.specs.Entries.{heads_of};
ghost use Rattle.rw_trees.specs.Around.{around_in};
ghost use Rattle.rw_derivation.specs.Seen.{seen};

use rw_heads::head::{Module, ProcHead};
use rw_terms::name::Name;
use rw_terms::scope::Head;
use rw_trees::parts::Parts;

/// What laws read of the table: the heads of predicates, the procedures and the modules, and the names of all entries in table order.
#[derive(Drop)]
pub struct Around<'a> {
    pub heads: &'a [Head],
    pub procs: &'a [ProcHead],
    pub modules: &'a [Module],
    pub order: &'a [Name],
}

/// What surrounds the steps of a project, the heads of its predicates being given. It takes no memory.
pub fn around_in<'a>(heads: &'a [Head], parts: &'a Parts) -> Around<'a>
    requires { heads.now ≡ heads_of parts.now.library.entries }
    ensures { seen result ≡ around_in parts.now }
{
    Around {
        heads,
        procs: parts.procs.as_slice(),
        modules: parts.modules.as_slice(),
        order: parts.order.as_slice(),
    }
}
