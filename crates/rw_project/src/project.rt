// The project, and its replies.
ghost use Rattle.std.specs.Prelude.{◌≡◌, ◌<◌, ◌≤◌, ◌+◌, ◌∷◌, ◌++◌, ℕ, List, [], None, Some, true, false, length, map, reverse, Contains, IfOk, IfNone, OnOk, OnErr};
ghost use Rattle.rw_forms.specs.declared.request.Request.TheVariants as request;
ghost use Rattle.rw_reader.specs.Reading.{reading, reads};
ghost use Rattle.rw_nodes.specs.declared.edit.Edit.{Edit};
ghost use Rattle.rw_nodes.specs.Parts.{Makes};
ghost use Rattle.rw_tree.specs.Accepting.{refusal_of, IsGood, IsProject};
ghost use Rattle.rw_anew.specs.Anew.{anew};
ghost use Rattle.rw_project.specs.Texts.{syntax_text, refusal_text};
ghost use Rattle.rw_project.specs.Goals.{goal_texts, mark_of, need_of, lemma_of};
ghost use Rattle.rw_project.specs.Session.{reply, edited, told_of, told_lemma, told_need, told_found, closing_of, all_texts, no_lines, refusal_after, past_limits, no_history};
ghost use Rattle.rw_project.specs.Headline.{StatusIsAnew};
ghost use Rattle.rw_project.specs.declared.project.ProjectError.TheVariants.{Memory};

use crate::finding::find_need;
use crate::goals::{
    goal_texts, lemma_of, lemma_told_text, mark_of, mark_texts, node_text, push_lemmas,
};
use crate::texts::{
    accepted_text, closing_text, no_node_text, refusal_text, syntax_text, unknown_text,
};
use rw_anew::anew::check_anew;
use rw_anew::status::Statuses;
use rw_anew::uses::used_lemmas;
use rw_finder::find::FindError;
use rw_forms::request::{ReadError, Request};
use rw_items::Items;
use rw_nodes::edit::{Edit, Place};
use rw_nodes::parts::Parts;
use rw_reader::read_request;
use rw_refusals::refusal::{EditRefusal, Which};
use rw_sites::error::TreeError;
use rw_steps::Steps;
use rw_terms::name::Name;
use rw_terms::text::Text;
use rw_tree::apply::apply_edit;
use std::alloc::{AllocError, Global};
use std::marker::Model;
use std::sync::ledger::Ledger;
use thiserror::Error;

/// The most accepted edits of a project, and the most bytes of their lines.
const MOST_EDITS: u32 = 65536;

const MOST_BYTES: u32 = 16777216;

/// What a project may weigh.
const MOST_WEIGHT: u32 = 2000000;

/// A project that one session works on: its accepted edits, the derivation that they make, and how many bytes their lines had.
#[derive(Drop)]
pub struct Project {
    alloc: Global,
    parts: Parts,
    edits: Items<Edit>,
    bytes: u32,
}

impl Model for Project {
    ghost use Rattle.std.specs.Prelude.{reverse, ◌≤◌};
    ghost use Rattle.std.specs.Coded.{codes};
    ghost use Rattle.rw_nodes.specs.contracts.edit.Edit as e;
    ghost use Rattle.rw_tree.specs.Accepting.{IsGood};
    ghost use Rattle.rw_nodes.specs.Parts.{Makes};
    ghost use Rattle.rw_project.specs.Session.{History};

    ghost Value = { History };

    ghost coded = { Prim.hlevel (codes, e.the_row.coded) };

    ghost view = { λ p. (reverse p.edits, p.bytes) };

    ghost invariant = { λ p. Makes 2000000 (reverse p.edits) p.parts × IsGood 2000000 (reverse p.edits) × (p.bytes ≤ 16777216) };
}

/// Why a request got no reply.
#[derive(Debug, Drop, Error)]
pub enum ProjectError {
    #[error("out of memory")]
    Memory,
}

impl From<AllocError> for ProjectError {
    ghost from_gives = { λ _ e. e ≡ Memory };

    fn from(_: AllocError) -> ProjectError {
        ProjectError::Memory
    }
}

impl From<TreeError> for ProjectError {
    ghost from_gives = { λ _ e. e ≡ Memory };

    fn from(_: TreeError) -> ProjectError {
        ProjectError::Memory
    }
}

impl From<FindError> for ProjectError {
    ghost from_gives = { λ _ e. e ≡ Memory };

    fn from(_: FindError) -> ProjectError {
        ProjectError::Memory
    }
}

/// What is written for a request: body lines, the last line, and whether it is a refusal.
#[derive(Drop)]
pub struct Reply {
    pub lines: Items<Text>,
    pub end: Text,
    pub refused: bool,
}

impl Project {
    /// The project without edits.
    pub fn new(alloc: Global) -> Project
        ensures { result ≡ no_history }
    {
        Project {
            alloc,
            parts: Parts::empty(alloc, MOST_WEIGHT),
            edits: Items::new(alloc),
            bytes: 0,
        }
    }

    /// Answers a line of at most 65,536 bytes and without LF. A refused request leaves the project as it was, and so does want of
    /// memory. Lines that are blank or begin with `#` get no reply in a session, and are no requests here. The counter is handed on
    /// to the checks of certificates.
    #[tactic(auto, unfolding(crate::specs::Session::reply))]
    pub fn answer<L: Ledger>(
        &mut self,
        line: &[u8],
        steps: &mut Steps<L>,
    ) -> Result<Reply, ProjectError>
        requires short { length line.now ≤ 65536 }
        requires one_line { Contains line.now 10 → ⊥ }
        ensures lines { IfOk result (λ r. r.lines ≡ (reply self.old line.now).lines) }
        ensures end { IfOk result (λ r. r.end ≡ (reply self.old line.now).end) }
        ensures refused { IfOk result (λ r. r.refused ≡ (reply self.old line.now).refused) }
        ensures after { OnOk result (self.new ≡ (reply self.old line.now).after) }
        ensures same { IfOk result (λ r. r.refused ≡ true → self.new ≡ self.old) }
        ensures err { OnErr result (self.new ≡ self.old) }
        ensures headline { StatusIsAnew self.old line.now }
    {
        match read_request(self.alloc, line) {
            Ok(Request::Edit(edit)) => self.take(line.len() as u32, edit),
            Ok(Request::Status) => self.tell(steps),
            Ok(Request::StatusAt(place)) => self.tell_status(&place, steps),
            Ok(Request::StatusLemma(name)) => self.tell_lemma(&name, steps),
            Ok(Request::StatusAll) => self.tell_all(steps),
            Ok(Request::Goal(place)) => self.tell_goal(&place, steps),
            Ok(Request::Find(place, number)) => self.find_lines(&place, number, steps),
            Err(ReadError::Syntax(offset)) => self.misread(offset),
            Err(ReadError::Memory) => Err(ProjectError::Memory),
        }
    }

    // The reply to an edit whose line has so many bytes. It is kept where it is accepted.
    fn take(&mut self, bytes: u32, edit: Edit) -> Result<Reply, ProjectError>
        requires { bytes ≤ 65536 }
        ensures lines { IfOk result (λ r. r.lines ≡ (edited self.old bytes edit (refusal_after self.old bytes edit)).lines) }
        ensures end { IfOk result (λ r. r.end ≡ (edited self.old bytes edit (refusal_after self.old bytes edit)).end) }
        ensures refused { IfOk result (λ r. r.refused ≡ (edited self.old bytes edit (refusal_after self.old bytes edit)).refused) }
        ensures after { OnOk result (self.new ≡ (edited self.old bytes edit (refusal_after self.old bytes edit)).after) }
        ensures err { OnErr result (self.new ≡ self.old) }
    {
        let at = self.edits.len();
        self.edits.push(edit)?;
        match apply(
            self.alloc,
            at,
            self.bytes,
            bytes,
            &self.edits.as_slice()[at],
            &mut self.parts,
        ) {
            Ok(reply) => {
                if reply.refused {
                    discard_last(&mut self.edits);
                    return Ok(reply);
                }
                self.bytes += bytes;
                Ok(reply)
            }
            Err(error) => {
                discard_last(&mut self.edits);
                Err(error)
            }
        }
    }

    // What checking the live edits anew tells.
    fn statuses<L: Ledger>(&self, steps: &mut Steps<L>) -> Result<Statuses, ProjectError>
        ensures { IfOk result (λ s. s ≡ anew self.now.0) }
    {
        let statuses = check_anew(self.alloc, &self.parts, steps)?;
        Ok(statuses)
    }

    // The reply to a request for the status.
    fn tell<L: Ledger>(&self, steps: &mut Steps<L>) -> Result<Reply, ProjectError>
        ensures lines { IfOk result (λ r. r.lines ≡ []) }
        ensures end { IfOk result (λ r. r.end ≡ closing_of self.now.0) }
        ensures refused { IfOk result (λ r. r.refused ≡ false) }
    {
        let statuses = self.statuses(steps)?;
        let end = self.closing(&statuses)?;
        Ok(Reply {
            lines: Items::new(self.alloc),
            end,
            refused: false,
        })
    }

    // Closed, or the first that is not good, by what checking the live edits anew told.
    fn closing(&self, statuses: &Statuses) -> Result<Text, ProjectError>
        requires { statuses.now ≡ anew self.now.0 }
        ensures { IfOk result (λ text. text ≡ closing_of self.now.0) }
    {
        let used = used_lemmas(self.alloc, &self.parts, statuses.lemmas.as_slice())?;
        let text = closing_text(self.alloc, statuses.nodes.as_slice(), used.as_slice())?;
        Ok(text)
    }

    // The reply to a request for the status of a lemma.
    fn tell_lemma<L: Ledger>(
        &self,
        name: &Name,
        steps: &mut Steps<L>,
    ) -> Result<Reply, ProjectError>
        ensures lines { IfOk result (λ r. r.lines ≡ (told_lemma self.now name.now (lemma_of name.now (anew self.now.0).lemmas)).lines) }
        ensures end { IfOk result (λ r. r.end ≡ (told_lemma self.now name.now (lemma_of name.now (anew self.now.0).lemmas)).end) }
        ensures refused { IfOk result (λ r. r.refused ≡ (told_lemma self.now name.now (lemma_of name.now (anew self.now.0).lemmas)).refused) }
    {
        let statuses = self.statuses(steps)?;
        match lemma_of(name, statuses.lemmas.as_slice()) {
            Some(mark) => Ok(Reply {
                lines: Items::new(self.alloc),
                end: lemma_told_text(self.alloc, mark)?,
                refused: false,
            }),
            None => no_lemma(self.alloc, name),
        }
    }

    // The reply to a request for the status of each node and each lemma.
    fn tell_all<L: Ledger>(&self, steps: &mut Steps<L>) -> Result<Reply, ProjectError>
        ensures lines { IfOk result (λ r. r.lines ≡ all_texts self.now.0) }
        ensures end { IfOk result (λ r. r.end ≡ closing_of self.now.0) }
        ensures refused { IfOk result (λ r. r.refused ≡ false) }
    {
        let statuses = self.statuses(steps)?;
        let mut lines = mark_texts(self.alloc, statuses.nodes.as_slice())?;
        push_lemmas(self.alloc, &mut lines, statuses.lemmas.as_slice())?;
        let end = self.closing(&statuses)?;
        Ok(Reply {
            lines,
            end,
            refused: false,
        })
    }

    // The reply to a request for the status of a node.
    fn tell_status<L: Ledger>(
        &self,
        place: &Place,
        steps: &mut Steps<L>,
    ) -> Result<Reply, ProjectError>
        ensures lines { IfOk result (λ r. r.lines ≡ (told_of self.now place.now no_lines (mark_of place.now (anew self.now.0).nodes)).lines) }
        ensures end { IfOk result (λ r. r.end ≡ (told_of self.now place.now no_lines (mark_of place.now (anew self.now.0).nodes)).end) }
        ensures refused { IfOk result (λ r. r.refused ≡ (told_of self.now place.now no_lines (mark_of place.now (anew self.now.0).nodes)).refused) }
    {
        let statuses = self.statuses(steps)?;
        match mark_of(place, statuses.nodes.as_slice()) {
            Some(mark) => Ok(Reply {
                lines: Items::new(self.alloc),
                end: node_text(self.alloc, mark)?,
                refused: false,
            }),
            None => no_node(self.alloc, place),
        }
    }

    // The reply to a request for the specification and the obligations of a node.
    fn tell_goal<L: Ledger>(
        &self,
        place: &Place,
        steps: &mut Steps<L>,
    ) -> Result<Reply, ProjectError>
        ensures lines { IfOk result (λ r. r.lines ≡ (told_of self.now place.now goal_texts (mark_of place.now (anew self.now.0).nodes)).lines) }
        ensures end { IfOk result (λ r. r.end ≡ (told_of self.now place.now goal_texts (mark_of place.now (anew self.now.0).nodes)).end) }
        ensures refused { IfOk result (λ r. r.refused ≡ (told_of self.now place.now goal_texts (mark_of place.now (anew self.now.0).nodes)).refused) }
    {
        let statuses = self.statuses(steps)?;
        match mark_of(place, statuses.nodes.as_slice()) {
            Some(mark) => {
                let lines = goal_texts(self.alloc, mark)?;
                let end = node_text(self.alloc, mark)?;
                Ok(Reply {
                    lines,
                    end,
                    refused: false,
                })
            }
            None => no_node(self.alloc, place),
        }
    }

    // The reply to a request for arithmetic lines for an obligation of a node.
    fn find_lines<L: Ledger>(
        &self,
        place: &Place,
        number: u32,
        steps: &mut Steps<L>,
    ) -> Result<Reply, ProjectError>
        ensures lines { IfOk result (λ r. r.lines ≡ (told_found self.now place.now number (mark_of place.now (anew self.now.0).nodes)).lines) }
        ensures end { IfOk result (λ r. r.end ≡ (told_found self.now place.now number (mark_of place.now (anew self.now.0).nodes)).end) }
        ensures refused { IfOk result (λ r. r.refused ≡ (told_found self.now place.now number (mark_of place.now (anew self.now.0).nodes)).refused) }
    {
        let statuses = self.statuses(steps)?;
        match mark_of(place, statuses.nodes.as_slice()) {
            Some(mark) => find_need(self.alloc, number, mark.needs.as_slice()),
            None => no_node(self.alloc, place),
        }
    }

    // The reply to a line that is no request.
    fn misread(&self, offset: u32) -> Result<Reply, ProjectError>
        ensures lines { IfOk result (λ r. r.lines ≡ []) }
        ensures end { IfOk result (λ r. r.end ≡ syntax_text offset) }
        ensures refused { IfOk result (λ r. r.refused ≡ true) }
    {
        let end = syntax_text(self.alloc, offset)?;
        Ok(Reply {
            lines: Items::new(self.alloc),
            end,
            refused: true,
        })
    }
}

// The reply where no node is at the place.
fn no_node(alloc: Global, place: &Place) -> Result<Reply, ProjectError>
    ensures lines { IfOk result (λ r. r.lines ≡ []) }
    ensures end { IfOk result (λ r. r.end ≡ refusal_text (EditRefusal.NoNode place.now)) }
    ensures refused { IfOk result (λ r. r.refused ≡ true) }
{
    let end = no_node_text(alloc, place)?;
    Ok(Reply {
        lines: Items::new(alloc),
        end,
        refused: true,
    })
}

// The reply where no lemma has the name.
fn no_lemma(alloc: Global, name: &Name) -> Result<Reply, ProjectError>
    ensures lines { IfOk result (λ r. r.lines ≡ []) }
    ensures end { IfOk result (λ r. r.end ≡ refusal_text (EditRefusal.Unknown name.now)) }
    ensures refused { IfOk result (λ r. r.refused ≡ true) }
{
    let end = unknown_text(alloc, name)?;
    Ok(Reply {
        lines: Items::new(alloc),
        end,
        refused: true,
    })
}

// Takes the last item out.
fn discard_last<T: Drop>(items: &mut Items<T>)
    ensures { (rest : List T) (last : T) → items.old ≡ rest ++ last ∷ [] → items.new ≡ rest }
{
    items.pop();
}

// Applies an edit behind so many others, whose lines had so many bytes, and makes the reply; its own line has so many bytes.
fn apply(
    alloc: Global,
    count: usize,
    before: u32,
    bytes: u32,
    edit: &Edit,
    parts: &mut Parts,
) -> Result<Reply, ProjectError>
    requires sum { before + bytes ≤ u32.MAX }
    requires made { IsProject parts.old }
    ensures lines { IfOk result (λ r. r.lines ≡ []) }
    ensures end { IfOk result (λ r. (l : List Edit) → IsGood 2000000 l → Makes 2000000 l parts.old → count ≡ length l → r.end ≡ (edited (l, before) bytes edit.now (refusal_after (l, before) bytes edit.now)).end) }
    ensures refused { IfOk result (λ r. (l : List Edit) → IsGood 2000000 l → Makes 2000000 l parts.old → count ≡ length l → r.refused ≡ (edited (l, before) bytes edit.now (refusal_after (l, before) bytes edit.now)).refused) }
    ensures made { IfOk result (λ r. r.refused ≡ false → (l : List Edit) → IsGood 2000000 l → Makes 2000000 l parts.old → Makes 2000000 (edit.now ∷ l) parts.new × (refusal_of 2000000 l edit.now ≡ None)) }
    ensures room { IfOk result (λ r. r.refused ≡ false → before + bytes ≤ 16777216) }
    ensures same { IfOk result (λ r. r.refused ≡ true → parts.new ≡ parts.old) }
    ensures err { OnErr result (parts.new ≡ parts.old) }
{
    if let Some(refusal) = past_limits(count, before + bytes) {
        return refuse(alloc, &refusal);
    }
    let end = accepted_text(alloc, count as u64 + 1)?;
    match apply_edit(alloc, parts, edit) {
        Ok(()) => Ok(Reply {
            lines: Items::new(alloc),
            end,
            refused: false,
        }),
        Err(refusal) => refuse(alloc, &refusal),
    }
}

// The limit that one more edit behind so many passes, where the lines of all have so many bytes.
fn past_limits(count: usize, bytes: u32) -> Option<EditRefusal>
    ensures told { (l : List Edit) → count ≡ length l → result ≡ past_limits (length l) bytes }
    ensures memory { result ≡ Some EditRefusal.Memory → ⊥ }
    ensures few { IfNone result (count < 65536) }
    ensures short { IfNone result (bytes ≤ 16777216) }
{
    if count >= MOST_EDITS as usize {
        return Some(EditRefusal::Limit(Which::Edits, MOST_EDITS));
    }
    if bytes > MOST_BYTES {
        return Some(EditRefusal::Limit(Which::Bytes, MOST_BYTES));
    }
    None
}

// The reply to a refused edit.
fn refuse(alloc: Global, refusal: &EditRefusal) -> Result<Reply, ProjectError>
    ensures lines { IfOk result (λ r. r.lines ≡ []) }
    ensures end { IfOk result (λ r. r.end ≡ refusal_text refusal.now) }
    ensures refused { IfOk result (λ r. r.refused ≡ true) }
    ensures memory { IfOk result (λ _. refusal.now ≡ EditRefusal.Memory → ⊥) }
{
    if let EditRefusal::Memory = refusal {
        return Err(ProjectError::Memory);
    }
    let end = refusal_text(alloc, refusal)?;
    Ok(Reply {
        lines: Items::new(alloc),
        end,
        refused: true,
    })
}
