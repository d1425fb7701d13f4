//! Laws of names that a program does not mention. A caller learns them from the contract; the calls do nothing.

ghost use Rattle.std.specs.Prelude.{◌≡◌, ◌↔◌, ℕ, false, List, is_some, None, IsTrue};
ghost use Rattle.rw_terms.specs.declared.scope.Entry.{Entry};
ghost use Rattle.rw_terms.specs.Sorts.{constant_sort};
ghost use Rattle.rw_programs.specs.declared.prog.Pin.{Pin};
ghost use Rattle.rw_programs.specs.declared.prog.Prog.{Prog};
ghost use Rattle.rw_programs.specs.Made.{Con};
ghost use Rattle.rw_programs.specs.State.{Name, State, is_in};
ghost use Rattle.rw_programs.specs.Tables.{Table, pin_names};
ghost use Rattle.rw_programs.specs.Meaning.{MayEnd, Sure};
ghost use Rattle.rw_programs.specs.CodeTest.{is_code};
ghost use Rattle.rw_programs.specs.Scoped.{prog_scoped};
ghost use Rattle.rw_meaning.specs.Filling.{brings_of};
ghost use Rattle.rw_meaning.specs.Mention.{is_brought, prog_mentions, MentionsNone, AgreeOff};

/// A program keeps the values of names that it does not mention, and does not look at them: from states that differ in these names
/// alone it has ends that differ in them alone, and it is sure from both or from neither.
pub fn unmentioned_names()
    ensures keeps { (E : Table) (p k : ℕ) (names : List Name) (c : Prog) → MentionsNone (brings_of E) names c
        → (s t : State) → MayEnd E p k c s t → (x : Name) → IsTrue (is_in x names) → t.own x ≡ s.own x }
    ensures ends { (E : Table) (p k : ℕ) (names : List Name) (c : Prog) → MentionsNone (brings_of E) names c
        → (s u : State) → AgreeOff names s u → (t : State) → MayEnd E p k c s t → (v : State) × MayEnd E p k c u v × AgreeOff names t v }
    ensures sure { (E : Table) (p k : ℕ) (names : List Name) (c : Prog) → MentionsNone (brings_of E) names c
        → (s u : State) → AgreeOff names s u → Sure E p k c s ↔ Sure E p k c u }
{}

/// A block of constants that its body does not mention means what the body means, in states that give the constants no values.
pub fn unmentioned_constants()
    ensures ends { (E : Table) (p k : ℕ) (pins : List Pin) (c : Prog) → MentionsNone (brings_of E) (pin_names pins) c
        → (s t : State) → ((x : Name) → IsTrue (is_in x (pin_names pins)) → s.own x ≡ None)
        → MayEnd E p k (Con pins c) s t ↔ MayEnd E p k c s t }
    ensures sure { (E : Table) (p k : ℕ) (pins : List Pin) (c : Prog) → MentionsNone (brings_of E) (pin_names pins) c
        → (s : State) → ((x : Name) → IsTrue (is_in x (pin_names pins)) → s.own x ≡ None)
        → Sure E p k (Con pins c) s ↔ Sure E p k c s }
{}

/// Well scoped code mentions no constant of its scope, unless the block of a module that is opened there brought the name.
pub fn code_mentions_no_constant()
    ensures { (brings : Name → List Entry) (opened : List Name) (scope : List Entry) (c : Prog) → IsTrue (is_code c) → IsTrue (prog_scoped brings opened scope c)
        → (x : Name) → IsTrue (is_some (constant_sort scope x)) → ((m : Name) → IsTrue (is_in m opened) → is_brought brings x m ≡ false)
        → prog_mentions brings x c ≡ false }
{}
