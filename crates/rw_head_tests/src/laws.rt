//! Laws of the tests. A caller learns them from the contract; the call does nothing.

ghost use Rattle.std.specs.Prelude.{◌≡◌, ℕ, true, false, List, None};
ghost use Rattle.rw_goals.specs.declared.library.Item.{Item};
ghost use Rattle.rw_library.specs.Entries.{has_entry};
ghost use Rattle.rw_heads.specs.declared.head.Module.{Module};
ghost use Rattle.rw_heads.specs.declared.head.Oper.{Oper};
ghost use Rattle.rw_heads.specs.declared.head.ProcHead.{ProcHead};
ghost use Rattle.rw_heads.specs.Heads.{has_proc, has_module};
ghost use Rattle.rw_head_tests.specs.Procs.{proc_refusal};
ghost use Rattle.rw_head_tests.specs.Modules.{module_refusal, oper_refusal};

/// A procedure or a module that these tests let pass has the name of no entry of another kind, and an operation is one of a module that
/// is there.
pub fn heads_are_free()
    ensures proc { (entries : List Item) (modules : List Module) (order : List (List ℕ)) (h : ProcHead) → proc_refusal entries modules order h ≡ None → (has_entry h.name entries ≡ false) × (has_module h.name modules ≡ false) }
    ensures held { (entries : List Item) (procs : List ProcHead) (order : List (List ℕ)) (m : Module) → module_refusal entries procs order m ≡ None → (has_entry m.name entries ≡ false) × (has_proc m.name procs ≡ false) }
    ensures oper { (entries : List Item) (modules : List Module) (x : List ℕ) (o : Oper) → oper_refusal entries modules x o ≡ None → has_module x modules ≡ true }
{}
