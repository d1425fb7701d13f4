//! Laws of the tests. A caller learns them from the contract; the call does nothing.

ghost use Rattle.std.specs.Prelude.{◌≡◌, ℕ, false, List, None};
ghost use Rattle.rw_goals.specs.declared.library.Definition.{Definition};
ghost use Rattle.rw_goals.specs.declared.library.Lemma.{Lemma};
ghost use Rattle.rw_goals.specs.declared.library.Item.{Item};
ghost use Rattle.rw_heads.specs.declared.head.Module.{Module};
ghost use Rattle.rw_heads.specs.declared.head.ProcHead.{ProcHead};
ghost use Rattle.rw_heads.specs.Heads.{has_proc, has_module};
ghost use Rattle.rw_edit_tests.specs.Entering.{define_refusal, lemma_refusal};

/// A definition or a lemma that these tests let pass has the name of no procedure and of no module.
pub fn entries_are_free()
    ensures define { (entries : List Item) (procs : List ProcHead) (modules : List Module) (order : List (List ℕ)) (d : Definition) → define_refusal entries procs modules order d ≡ None → (has_proc d.name procs ≡ false) × (has_module d.name modules ≡ false) }
    ensures lemma { (entries : List Item) (procs : List ProcHead) (modules : List Module) (order : List (List ℕ)) (l : Lemma) → lemma_refusal entries procs modules order l ≡ None → (has_proc l.name procs ≡ false) × (has_module l.name modules ≡ false) }
{}
