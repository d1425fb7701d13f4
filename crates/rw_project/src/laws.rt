// What the definitions mean, in other words. Each law is the contract of a function that does nothing.
ghost use Rattle.std.specs.Prelude.{◌≡◌, ◌↔◌, ◌++◌, ℕ, List};
ghost use Rattle.rw_nodes.specs.declared.edit.Edit.{Edit};
ghost use Rattle.rw_anew.specs.Uses.{IsClosed};
ghost use Rattle.rw_project.specs.Lines.{whole_lines, last_part, with_feeds};
ghost use Rattle.rw_project.specs.Session.{closing_of};
ghost use Rattle.rw_project.specs.Texts.{closed_text};

/// The lines that LF ends, each with its LF, and then the rest are the text.
pub fn lines_are_the_text()
    ensures { (bytes : List ℕ) → with_feeds (whole_lines bytes) ++ last_part bytes ≡ bytes }
{}

/// A derivation is shown closed exactly where each node is good, and each lemma that it uses.
pub fn shown_closed_exactly()
    ensures { (l : List Edit) → closing_of l ≡ closed_text ↔ IsClosed l }
{}
