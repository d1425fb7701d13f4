//! Laws of projects.

ghost use Rattle.std.specs.Prelude.{◌≡◌, ℕ, List};
ghost use Rattle.rw_nodes.specs.declared.edit.Edit.{Edit};
ghost use Rattle.rw_nodes.specs.declared.parts.Parts.{Parts};
ghost use Rattle.rw_nodes.specs.Parts.{Makes, edited};
ghost use Rattle.rw_tree.specs.Accepting.{IsGood};

/// Where a list of edits is good, the project that it makes edit by edit is the one that is read backwards from its newest edits, and no
/// other is.
pub fn read_backwards()
    ensures made { (most : ℕ) (l : List Edit) → IsGood most l → Makes most l (edited most l) }
    ensures only { (most : ℕ) (l : List Edit) (parts : Parts) → IsGood most l → Makes most l parts → parts ≡ edited most l }
{}
