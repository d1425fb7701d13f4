//! Laws of all programs. A caller learns them from the contract; the calls do nothing.

ghost use Rattle.std.specs.Prelude.{◌≡◌, ◌≤◌, ◌↔◌, ℕ, List, [], Option, IsSomeAnd, IsTrue};
ghost use Rattle.rw_terms.specs.declared.scope.Entry.{Entry};
ghost use Rattle.rw_terms.specs.declared.term.Term.{Term};
ghost use Rattle.rw_terms.specs.State.{Value, State as Map};
ghost use Rattle.rw_programs.specs.declared.prog.Prog.{Prog};
ghost use Rattle.rw_programs.specs.Made.{ModBlock};
ghost use Rattle.rw_programs.specs.State.{Name, State, Fits, empty, alone, put_all, names_of, ValuesFor};
ghost use Rattle.rw_programs.specs.Tables.{Table, past, find_proc, find_module, Begins, returned, held, hold};
ghost use Rattle.rw_programs.specs.Meaning.{MayEnd, Sure, AllDefined, values};
ghost use Rattle.rw_programs.specs.Refine.{BetterAt, RefinesAt, RefinesGiven};
ghost use Rattle.rw_programs.specs.Scoped.{prog_scoped};
ghost use Rattle.rw_meaning.specs.Calls.{CallEnds, CallSure, EarlierEnds, EarlierSure};
ghost use Rattle.rw_meaning.specs.Given.{ValuesStay, KidsRefineGiven};
ghost use Rattle.rw_meaning.specs.Filling.{fill, FitsIn, RefinesIn, CallsFit, KidsRefine};

/// With more levels of calls of the own body a program has more ends and is sure at more states, and where it was sure it has
/// no new ends.
pub fn growth()
    ensures sure { (E : Table) (p k j : ℕ) (c : Prog) (s : State) → k ≤ j → Sure E p k c s → Sure E p j c s }
    ensures ends { (E : Table) (p k j : ℕ) (c : Prog) (s t : State) → k ≤ j → MayEnd E p k c s t → MayEnd E p j c s t }
    ensures same { (E : Table) (p k j : ℕ) (c : Prog) (s t : State) → k ≤ j → Sure E p k c s → MayEnd E p j c s t → MayEnd E p k c s t }
{}

/// At all places past the last of the table, with any numbers of levels, a program means the same: what is said of main's place
/// holds of each of them.
pub fn places_past_all()
    ensures ends { (E : Table) (p q k j : ℕ) (c : Prog) (s t : State) → past E ≤ p → past E ≤ q → MayEnd E p k c s t ↔ MayEnd E q j c s t }
    ensures sure { (E : Table) (p q k j : ℕ) (c : Prog) (s : State) → past E ≤ p → past E ≤ q → Sure E p k c s ↔ Sure E q j c s }
{}

/// What a call means: the body of the procedure at the own place with one level less, or of one at an earlier place, at that
/// place and with some number of levels.
pub fn calls()
    ensures ends { (E : Table) (p k : ℕ) (f : Name) (args : List Term) (names : List Name) (s t : State)
        → MayEnd E p k (Prog.Call f args names) s t ↔ IsSomeAnd (find_proc f E.procs) (λ e. (a b : State) × Begins empty e (values args s) a
        × CallEnds E p k e.place e.body a b × (t ≡ returned e names b s)) }
    ensures sure { (E : Table) (p k : ℕ) (f : Name) (args : List Term) (names : List Name) (s : State)
        → Sure E p k (Prog.Call f args names) s ↔ (AllDefined args s × IsSomeAnd (find_proc f E.procs) (λ e. (a : State)
        → Begins empty e (values args s) a → CallSure E p k e.place e.body a)) }
{}

/// What a call of an operation means: the body of the operation at the place of its module, which is an earlier one.
pub fn operation_calls()
    ensures ends { (E : Table) (p k : ℕ) (m o : Name) (args : List Term) (names : List Name) (s t : State)
        → MayEnd E p k (Prog.OpCall m o args names) s t
        ↔ IsSomeAnd (find_module m E.modules) (λ d. IsSomeAnd (find_proc o d.operations) (λ e. (a b : State)
        × Begins (held E.is_concrete d s) e (values args s) a × EarlierEnds E p d.place e.body a b
        × (t ≡ hold E.is_concrete d b.own (returned e names b s)))) }
    ensures sure { (E : Table) (p k : ℕ) (m o : Name) (args : List Term) (names : List Name) (s : State)
        → Sure E p k (Prog.OpCall m o args names) s
        ↔ (AllDefined args s × IsSomeAnd (find_module m E.modules) (λ d. IsSomeAnd (find_proc o d.operations) (λ e. (a : State)
        → Begins (held E.is_concrete d s) e (values args s) a → EarlierSure E p d.place e.body a))) }
{}

/// What the block of a module means: the start at the place of the module, which is an earlier one, and then the body.
pub fn module_blocks()
    ensures ends { (E : Table) (p k : ℕ) (m : Name) (c : Prog) (s t : State)
        → MayEnd E p k (ModBlock m c) s t
        ↔ IsSomeAnd (find_module m E.modules) (λ d. (vs : List (Option Value)) × (a b : State) × ValuesFor d.state vs
        × EarlierEnds E p d.place d.start (alone (put_all (names_of d.state) vs empty)) a
        × MayEnd E p k c (hold E.is_concrete d a.own s) b × (t ≡ hold E.is_concrete d empty b)) }
    ensures sure { (E : Table) (p k : ℕ) (m : Name) (c : Prog) (s : State)
        → Sure E p k (ModBlock m c) s
        ↔ IsSomeAnd (find_module m E.modules) (λ d. (vs : List (Option Value)) → ValuesFor d.state vs
        → EarlierSure E p d.place d.start (alone (put_all (names_of d.state) vs empty))
        × ((a : State) → EarlierEnds E p d.place d.start (alone (put_all (names_of d.state) vs empty)) a → Sure E p k c (hold E.is_concrete d a.own s))) }
{}

/// Where no module is opened, a state fits its context exactly where it fits the scope, and refinement in the context is that in the
/// scope.
pub fn contexts()
    ensures states { (E : Table) (scope : List Entry) (s : State) → FitsIn E [] scope s ↔ Fits scope s }
    ensures refinement { (fixed : Map) (scope : List Entry) (E : Table) (p k : ℕ) (c d : Prog)
        → RefinesIn fixed [] scope E p k c d ↔ RefinesGiven fixed scope E p k c E p k d }
{}

/// A well scoped program, whose calls and starts end in states that fit where they are sure, ends in states that fit where it is
/// sure.
pub fn ends_fit()
    ensures { (brings : Name → List Entry) (E : Table) (p k : ℕ) (opened : List Name) (scope : List Entry) (c : Prog)
        → IsTrue (prog_scoped brings opened scope c) → CallsFit brings E p k opened scope c
        → (s t : State) → FitsIn E opened scope s → Sure E p k c s → MayEnd E p k c s t → FitsIn E opened scope t }
{}

/// The filling law: in a well scoped program, whose calls and starts end in states that fit where they are sure, the programs
/// that stand for the kids of a skeleton may be replaced by refinements of them in the kids' contexts.
pub fn filling()
    ensures in_context { (brings : Name → List Entry) (E : Table) (p k : ℕ) (ks js : ℕ → Prog) (opened : List Name) (scope : List Entry) (c : Prog)
        → IsTrue (prog_scoped brings opened scope (fill ks c)) → CallsFit brings E p k opened scope (fill ks c)
        → KidsRefine brings E p k ks js opened scope c
        → (s : State) → FitsIn E opened scope s → BetterAt E p k (fill ks c) E p k (fill js c) s }
    ensures in_scope { (brings : Name → List Entry) (E : Table) (p k : ℕ) (ks js : ℕ → Prog) (scope : List Entry) (c : Prog)
        → IsTrue (prog_scoped brings [] scope (fill ks c)) → CallsFit brings E p k [] scope (fill ks c)
        → KidsRefine brings E p k ks js [] scope c → RefinesAt scope E p k (fill ks c) E p k (fill js c) }
{}

/// The filling law at the states with given values of the names of kind value: the kids need refine at these states alone, where no
/// part of the program changes such a name.
pub fn filling_given()
    ensures in_context { (fixed : Map) (brings : Name → List Entry) (E : Table) (p k : ℕ) (ks js : ℕ → Prog) (opened : List Name) (scope : List Entry) (c : Prog)
        → IsTrue (prog_scoped brings opened scope (fill ks c)) → CallsFit brings E p k opened scope (fill ks c)
        → ValuesStay brings E opened scope (fill ks c) → KidsRefineGiven fixed brings E p k ks js opened scope c
        → RefinesIn fixed opened scope E p k (fill ks c) (fill js c) }
    ensures in_scope { (fixed : Map) (brings : Name → List Entry) (E : Table) (p k : ℕ) (ks js : ℕ → Prog) (scope : List Entry) (c : Prog)
        → IsTrue (prog_scoped brings [] scope (fill ks c)) → CallsFit brings E p k [] scope (fill ks c)
        → ValuesStay brings E [] scope (fill ks c) → KidsRefineGiven fixed brings E p k ks js [] scope c
        → RefinesGiven fixed scope E p k (fill ks c) E p k (fill js c) }
{}
