//! Laws of projects.

ghost use Rattle.std.specs.Prelude.{◌≡◌, ℕ, List};
ghost use Rattle.rw_edits.specs.declared.edit.Edit.{Edit};
ghost use Rattle.rw_trees.specs.declared.parts.Parts.{Parts};
ghost use Rattle.rw_trees.specs.Parts.{Makes};
ghost use Rattle.rw_accepting.specs.Accepting.{IsGood, refusal_of, edited};
ghost use Rattle.rw_accepting.specs.Mirror.{refusal_in, IsBounded};

/// Where a list of edits is good, the project that it makes edit by edit is the one that is read backwards from its newest edits, and no
/// other is.
pub fn read_backwards()
    ensures made { (most : ℕ) (l : List Edit) → IsGood most l → Makes most l (edited most l) }
    ensures only { (most : ℕ) (l : List Edit) (parts : Parts) → IsGood most l → Makes most l parts → parts ≡ edited most l }
{}

/// The first test that refuses an edit, told from a project, is the one that is told from the edits that made it.
pub fn told_from_parts()
    ensures { (most : ℕ) (l : List Edit) (parts : Parts) (e : Edit) → IsGood most l → Makes most l parts → refusal_in parts e ≡ refusal_of most l e }
{}

/// A project that good edits make has few entries, each of the library with a certificate or none beside it, and trees of few nodes, all
/// certificates being short.
pub fn bounds()
    ensures { (most : ℕ) (l : List Edit) (parts : Parts) → IsGood most l → Makes most l parts → IsBounded parts }
{}
