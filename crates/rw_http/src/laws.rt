// Laws of the requests that bytes give.
ghost use Rattle.std.specs.Prelude.{◌≡◌, ◌++◌, [], ℕ, List};
ghost use Rattle.rw_http.specs.declared.intake.Taken.{Taken};
ghost use Rattle.rw_http.specs.Requests.{Gives, IfEnds};

/// The bytes of an input give one answer, and leave one rest.
pub fn one_answer()
    ensures { (bytes : List ℕ) (one two : Taken) (rest other : List ℕ) → Gives bytes one rest → Gives bytes two other
        → (one ≡ two) × (rest ≡ other) }
{}

/// More bytes behind change no answer but the two at the end of an input.
pub fn more_bytes_keep_it()
    ensures { (bytes more : List ℕ) (answer : Taken) (rest : List ℕ) → Gives bytes answer rest
        → IfEnds answer (more ≡ []) → Gives (bytes ++ more) answer (rest ++ more) }
{}
