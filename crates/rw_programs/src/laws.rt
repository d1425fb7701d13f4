//! What holds of all programs. Each law is the contract of a function that does nothing.

ghost use Rattle.std.specs.Prelude.{ℕ, List};
ghost use Rattle.rw_terms.specs.declared.scope.Entry.{Entry};
ghost use Rattle.rw_terms.specs.declared.term.Formula.{Formula};
ghost use Rattle.rw_terms.specs.declared.term.Term.{Term};
ghost use Rattle.rw_terms.specs.State.{State as Map};
ghost use Rattle.rw_programs.specs.declared.prog.Prog.{Prog};
ghost use Rattle.rw_programs.specs.declared.prog.Spec.{Spec};
ghost use Rattle.rw_programs.specs.State.{Name, State, Fits, Holds};
ghost use Rattle.rw_programs.specs.Tables.{Table};
ghost use Rattle.rw_programs.specs.Meaning.{MayEnd};
ghost use Rattle.rw_programs.specs.Refine.{Wp, WpAt, BetterAt, Refines, RefinesAt, HasValues, RefinesGiven};
ghost use Rattle.rw_programs.specs.Laws.{Follows, FollowsAfter, IsInitialFree, KeepsValues, AssignFits};
ghost use Rattle.rw_programs.specs.Made.{Seq};

/// A set of states.
pub trait States {
    ghost use Rattle.rw_programs.specs.State.{State};

    /// Holds of the states of the set.
    ghost has: { State → Type 0 };
}

/// Where a program refines another, each weakest precondition of the other implies its own: at one state, in a scope, and at the
/// states with given values of the names of kind value.
pub fn refinement_gives_preconditions<Q: States>()
    ensures at_state { (E F : Table) (p k q j : ℕ) (c d : Prog) (s : State)
        → BetterAt E p k c F q j d s → WpAt E p k c Q.has s → WpAt F q j d Q.has s }
    ensures anywhere { (scope : List Entry) (E F : Table) (p k q j : ℕ) (c d : Prog) → RefinesAt scope E p k c F q j d
        → (s : State) → Fits scope s → WpAt E p k c Q.has s → WpAt F q j d Q.has s }
    ensures given { (fixed : Map) (scope : List Entry) (E F : Table) (p k q j : ℕ) (c d : Prog) → RefinesGiven fixed scope E p k c F q j d
        → (s : State) → Fits scope s → HasValues scope fixed s → WpAt E p k c Q.has s → WpAt F q j d Q.has s }
    ensures past_all { (scope : List Entry) (E F : Table) (c d : Prog) → Refines scope c E d F
        → (s : State) → Fits scope s → Wp E c Q.has s → Wp F d Q.has s }
{}

/// The same of the states in which a formula holds, read by the first table's library on both sides.
pub fn refinement_gives_formulas()
    ensures anywhere { (scope : List Entry) (E F : Table) (p k q j : ℕ) (c d : Prog) → RefinesAt scope E p k c F q j d → (f : Formula)
        → (s : State) → Fits scope s → WpAt E p k c (λ t. Holds E.library f t t) s → WpAt F q j d (λ t. Holds E.library f t t) s }
    ensures given { (fixed : Map) (scope : List Entry) (E F : Table) (p k q j : ℕ) (c d : Prog) → RefinesGiven fixed scope E p k c F q j d
        → (f : Formula) → (s : State) → Fits scope s → HasValues scope fixed s
        → WpAt E p k c (λ t. Holds E.library f t t) s → WpAt F q j d (λ t. Holds E.library f t t) s }
    ensures past_all { (scope : List Entry) (E F : Table) (c d : Prog) → Refines scope c E d F → (f : Formula)
        → (s : State) → Fits scope s → Wp E c (λ t. Holds E.library f t t) s → Wp F d (λ t. Holds E.library f t t) s }
{}

/// A program refines another where each weakest precondition of the other implies its own. It is enough that this holds of
/// the set of the other's ends from each state.
pub fn preconditions_give_refinement()
    ensures anywhere { (scope : List Entry) (E F : Table) (p k q j : ℕ) (c d : Prog)
        → ((s : State) → Fits scope s → WpAt E p k c (λ t. MayEnd E p k c s t) s → WpAt F q j d (λ t. MayEnd E p k c s t) s)
        → RefinesAt scope E p k c F q j d }
    ensures given { (fixed : Map) (scope : List Entry) (E F : Table) (p k q j : ℕ) (c d : Prog)
        → ((s : State) → Fits scope s → HasValues scope fixed s
        → WpAt E p k c (λ t. MayEnd E p k c s t) s → WpAt F q j d (λ t. MayEnd E p k c s t) s)
        → RefinesGiven fixed scope E p k c F q j d }
{}

/// Refinement is reflexive and transitive.
pub fn refinement_is_an_order()
    ensures itself { (scope : List Entry) (E : Table) (c : Prog) → Refines scope c E c E }
    ensures through { (scope : List Entry) (E F G : Table) (b c d : Prog) → Refines scope b E c F → Refines scope c F d G → Refines scope b E d G }
    ensures itself_at { (scope : List Entry) (E : Table) (p k : ℕ) (c : Prog) → RefinesAt scope E p k c E p k c }
    ensures through_at { (scope : List Entry) (E F G : Table) (p k q j r i : ℕ) (b c d : Prog)
        → RefinesAt scope E p k b F q j c → RefinesAt scope F q j c G r i d → RefinesAt scope E p k b G r i d }
{}

/// The law of skip, at one state and in a scope: where the precondition gives the postcondition, skip refines the specification.
pub fn skip()
    ensures at_state { (scope : List Entry) (E F : Table) (p k q j : ℕ) (w : Spec) (s : State) → Fits scope s
        → (Holds E.library w.pre s s → ¬ (¬ (Holds E.library w.post s s))) → BetterAt E p k (Prog.Spec w) F q j Prog.Skip s }
    ensures in_scope { (scope : List Entry) (E F : Table) (p k q j : ℕ) (w : Spec)
        → Follows scope E.library w.pre (λ s. ¬ (¬ (Holds E.library w.post s s))) → RefinesAt scope E p k (Prog.Spec w) F q j Prog.Skip }
    ensures past_all { (scope : List Entry) (E F : Table) (w : Spec)
        → Follows scope E.library w.pre (λ s. ¬ (¬ (Holds E.library w.post s s))) → Refines scope (Prog.Spec w) E Prog.Skip F }
{}

/// Refinement is refinement for all values of the names of kind value.
pub fn refinement_for_all_values()
    ensures given { (fixed : Map) (scope : List Entry) (E F : Table) (p k q j : ℕ) (c d : Prog)
        → RefinesAt scope E p k c F q j d → RefinesGiven fixed scope E p k c F q j d }
    ensures all { (scope : List Entry) (E F : Table) (p k q j : ℕ) (c d : Prog)
        → ((fixed : Map) → RefinesGiven fixed scope E p k c F q j d) → RefinesAt scope E p k c F q j d }
{}

/// The law of a weaker precondition, for any program of the kid.
pub fn weaken()
    ensures { (fixed : Map) (scope : List Entry) (E : Table) (p k : ℕ) (w : List Name) (pre post f : Formula) (c : Prog)
        → Follows scope E.library pre (λ s. ¬ (¬ (Holds E.library f s s)))
        → RefinesGiven fixed scope E p k (Prog.Spec (record { frame = w; pre = f; post = post })) E p k c
        → RefinesGiven fixed scope E p k (Prog.Spec (record { frame = w; pre = pre; post = post })) E p k c }
{}

/// The law of a stronger postcondition, for any program of the kid.
pub fn strengthen()
    ensures { (fixed : Map) (scope : List Entry) (E : Table) (p k : ℕ) (w : List Name) (pre post f : Formula) (c : Prog)
        → FollowsAfter scope E.library w pre f post
        → RefinesGiven fixed scope E p k (Prog.Spec (record { frame = w; pre = pre; post = f })) E p k c
        → RefinesGiven fixed scope E p k (Prog.Spec (record { frame = w; pre = pre; post = post })) E p k c }
{}

/// The law of assignment.
pub fn assign()
    ensures { (fixed : Map) (scope : List Entry) (E : Table) (p k : ℕ) (w : List Name) (pre post : Formula) (names : List Name) (terms : List Term)
        → AssignFits scope E.library w pre post names terms
        → RefinesGiven fixed scope E p k (Prog.Spec (record { frame = w; pre = pre; post = post })) E p k (Prog.Assign names terms) }
{}

/// The law of sequences, for any programs of the kids.
pub fn sequence()
    ensures { (fixed : Map) (scope : List Entry) (E : Table) (p k : ℕ) (w : List Name) (pre mid post : Formula) (c d : Prog)
        → KeepsValues scope w → IsInitialFree E.library mid → IsInitialFree E.library post
        → RefinesGiven fixed scope E p k (Prog.Spec (record { frame = w; pre = pre; post = mid })) E p k c
        → RefinesGiven fixed scope E p k (Prog.Spec (record { frame = w; pre = mid; post = post })) E p k d
        → RefinesGiven fixed scope E p k (Prog.Spec (record { frame = w; pre = pre; post = post })) E p k (Seq c d) }
{}
