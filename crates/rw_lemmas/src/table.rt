//! The table of definitions and lemmas with its certificates and statuses.

ghost use Rattle.std.specs.Prelude.{◌≡◌, ◌<◌, ◌≤◌, ◌⊎◌, ◌↔◌, ℕ, length, slice_get, IfOk, IfErr, OnOk, OnErr, None, Some, IsTrue, option_copied};
ghost use Rattle.rw_sequents.specs.declared.line.Cert.{Cert};
ghost use Rattle.rw_goals.specs.declared.library.Item.{Item};
ghost use Rattle.std.specs.Option.{IfSome};
ghost use Rattle.rw_sequents.specs.After.{IsCounted};
ghost use Rattle.rw_citations.specs.Goal.{goal_of};
ghost use Rattle.rw_library.specs.Entries.{has_entry};
ghost use Rattle.rw_lemmas.specs.declared.error.LemmaError.{LemmaError};
ghost use Rattle.rw_lemmas.specs.Citing.{cited_names};
ghost use Rattle.rw_lemmas.specs.States.{AreCounted, proof_at, status_at, statuses_from, status_from, proof_from};
ghost use Rattle.rw_lemmas.specs.Table.{Table, IsTable, empty, anew, status_of, proof_of, with_entry, with_moved, without};
ghost use Rattle.rw_lemmas.specs.Affected.{goal_there, IsAffected, Costs, CostsAtMost, OnlyAffected, AtMostAffected};
ghost use Rattle.rw_lemmas.specs.Differing.{TellsChanges};
ghost use Rattle.rw_lemmas.specs.Refusals.{set_refusal, move_refusal, remove_refusal};

use crate::anew::{checked, proof_at};
use crate::citing::cited_names;
use crate::differing::{Changes, changes_between};
use crate::error::LemmaError;
use crate::placing::{copy_proofs, move_to, proof_of_entry, put_at, take_out};
use crate::refusal::{order_refusal, set_refusal, use_refusal};
use crate::same::{same_cert, same_goal};
use crate::status::LemmaStatus;
use crate::staying::reads_change;
use rw_goals::library::{Item, Lemma, Library};
use rw_items::{Items, at};
use rw_library::entries::{entry_name, is_entry, is_lemma, place_of};
use rw_sequents::line::Cert;
use rw_steps::Steps;
use rw_terms::name::Name;
use std::alloc::{AllocError, Global};
use std::marker::Model;
use std::sync::ledger::Ledger;

/// The ordered table of definitions and lemmas, each lemma with its certificate, or none, and with its status.
#[derive(Drop)]
pub struct Lemmas {
    alloc: Global,
    library: Library,
    proofs: Items<Option<Cert>>,
    statuses: Items<LemmaStatus>,
}

impl Model for Lemmas {
    ghost use Rattle.std.specs.Prelude.{◌≡◌};
    ghost use Rattle.std.specs.Coded.{codes};
    ghost use Rattle.rw_goals.specs.contracts.library.Item as items;
    ghost use Rattle.rw_sequents.specs.contracts.line.Cert as certs;
    ghost use Rattle.rw_lemmas.specs.Table.{Table, IsTable, anew};

    ghost Value = { Table };

    ghost coded = { Prim.hlevel (codes, items.the_row.coded, certs.the_row.coded) };

    ghost view = { λ l. record { library = l.library; proofs = l.proofs } };

    ghost invariant = { λ l. IsTable l.library l.proofs × (l.statuses ≡ anew (record { library = l.library; proofs = l.proofs })) };
}

impl Lemmas {
    /// The empty table.
    pub fn new(alloc: Global) -> Lemmas
        ensures { result ≡ empty }
    {
        Lemmas {
            alloc,
            library: Library {
                entries: Items::new(alloc),
            },
            proofs: Items::new(alloc),
            statuses: Items::new(alloc),
        }
    }

    /// The entries. It takes no memory.
    pub fn library(&self) -> &Library
        ensures { result.now ≡ self.now.library }
    {
        &self.library
    }

    /// The certificate of a lemma. It takes no memory.
    pub fn proof(&self, name: &Name) -> Option<&Cert>
        ensures { option_copied result ≡ proof_of self.now name.now }
    {
        proof_from(
            self.library.entries.as_slice(),
            self.proofs.as_slice(),
            name,
        )
    }

    /// The status of a lemma: that of checking its certificate anew, where it may cite the lemmas before its place. It takes no memory.
    pub fn status(&self, name: &Name) -> Option<LemmaStatus>
        ensures { result ≡ status_of self.now name.now }
    {
        status_from(
            self.library.entries.as_slice(),
            self.statuses.as_slice(),
            name,
        )
    }

    /// The lemmas that the certificate cites and, where it has an unfold line, the predicates in its formulas, in the order in which they first come.
    pub fn cites(&self, cert: &Cert) -> Result<Items<Name>, LemmaError>
        ensures ok { IfOk result (λ names. names ≡ cited_names cert.now) }
        ensures err { IfErr result (λ e. e ≡ LemmaError.Memory) }
    {
        let names = cited_names(self.alloc, cert)?;
        Ok(names)
    }

    /// The same table again.
    pub fn copy(&self) -> Result<Lemmas, LemmaError>
        ensures ok { IfOk result (λ copy. copy ≡ self.now) }
        ensures err { IfErr result (λ e. e ≡ LemmaError.Memory) }
    {
        let library = self.library.copy(self.alloc)?;
        let proofs = copy_proofs(self.alloc, self.proofs.as_slice())?;
        let statuses = Items::from_slice(self.alloc, self.statuses.as_slice())?;
        Ok(Lemmas {
            alloc: self.alloc,
            library,
            proofs,
            statuses,
        })
    }

    /// Puts an entry in the place of that of its name, or last. A lemma then has this certificate, or none; a definition has none.
    /// A refusal changes nothing, and so does want of memory.
    pub fn set<L: Ledger>(
        &mut self,
        entry: Item,
        proof: Option<Cert>,
        steps: &mut Steps<L>,
    ) -> Result<(), LemmaError>
        requires few { length self.old.library.entries < 4294967294 }
        requires counted { IfSome proof IsCounted }
        ensures ok { OnOk result ((set_refusal self.old entry ≡ None) × (self.new ≡ with_entry self.old entry proof)) }
        ensures err { IfErr result (λ e. (e ≡ LemmaError.Memory) ⊎ (set_refusal self.old entry ≡ Some e)) }
        ensures same { OnErr result (self.new ≡ self.old) }
        ensures refused { IfErr result (λ e. (e ≡ LemmaError.Memory) ⊎ (steps.new ≡ steps.old)) }
        ensures cost { OnOk result (OnlyAffected self.old self.new steps.old steps.new) }
        ensures memory { OnErr result (AtMostAffected self.old (with_entry self.old entry proof) steps.old steps.new) }
    {
        self.put(&entry, &proof, steps)
    }

    #[tactic(auto, using(rw_library::proofs::Places::place_within, crate::proofs::Whole::table_with))]
    fn put<L: Ledger>(
        &mut self,
        entry: &Item,
        proof: &Option<Cert>,
        steps: &mut Steps<L>,
    ) -> Result<(), LemmaError>
        requires few { length self.old.library.entries < 4294967294 }
        requires counted { IfSome proof.now IsCounted }
        ensures ok { OnOk result ((set_refusal self.old entry.now ≡ None) × (self.new ≡ with_entry self.old entry.now proof.now)) }
        ensures err { IfErr result (λ e. (e ≡ LemmaError.Memory) ⊎ (set_refusal self.old entry.now ≡ Some e)) }
        ensures same { OnErr result (self.new ≡ self.old) }
        ensures refused { IfErr result (λ e. (e ≡ LemmaError.Memory) ⊎ (steps.new ≡ steps.old)) }
        ensures cost { OnOk result (OnlyAffected self.old self.new steps.old steps.new) }
        ensures memory { OnErr result (AtMostAffected self.old (with_entry self.old entry.now proof.now) steps.old steps.new) }
    {
        let entries = self.library.entries.as_slice();
        if let Some(refusal) = set_refusal(self.alloc, entries, self.proofs.as_slice(), entry)? {
            return Err(refusal);
        }
        let place = place_of(entries, &entry_name(entry));
        let mut library = self.library.copy(self.alloc)?;
        let mut proofs = copy_proofs(self.alloc, self.proofs.as_slice())?;
        put_at(&mut library.entries, place, entry.copy(self.alloc)?)?;
        put_at(
            &mut proofs,
            place,
            proof_of_entry(self.alloc, entry, proof)?,
        )?;
        self.renew(library, proofs, steps)
    }

    // Another table in place of this one, unless there is no memory.
    fn renew<L: Ledger>(
        &mut self,
        library: Library,
        proofs: Items<Option<Cert>>,
        steps: &mut Steps<L>,
    ) -> Result<(), LemmaError>
        requires { IsTable library proofs }
        ensures ok { OnOk result (self.new ≡ record { library = library; proofs = proofs }) }
        ensures err { IfErr result (λ e. e ≡ LemmaError.Memory) }
        ensures same { OnErr result (self.new ≡ self.old) }
        ensures cost { OnOk result (OnlyAffected self.old self.new steps.old steps.new) }
        ensures memory { OnErr result (AtMostAffected self.old (record { library = library; proofs = proofs }) steps.old steps.new) }
    {
        let statuses = self.statuses_in(&library, proofs.as_slice(), steps)?;
        self.library = library;
        self.proofs = proofs;
        self.statuses = statuses;
        Ok(())
    }

    // The statuses of another table: those that the lemmas have here where their certificates read nothing that differs, else by checking.
    fn statuses_in<L: Ledger>(
        &self,
        library: &Library,
        proofs: &[Option<Cert>],
        steps: &mut Steps<L>,
    ) -> Result<Items<LemmaStatus>, LemmaError>
        requires few { length library.now.entries < 4294967295 }
        requires counted { AreCounted proofs.now }
        ensures statuses { IfOk result (λ ss. ss ≡ statuses_from library.now proofs.now 0 library.now.entries) }
        ensures err { IfErr result (λ e. e ≡ LemmaError.Memory) }
        ensures cost { IfOk result (λ _. OnlyAffected self.now (record { library = library.now; proofs = proofs.now }) steps.old steps.new) }
        ensures memory { OnErr result (AtMostAffected self.now (record { library = library.now; proofs = proofs.now }) steps.old steps.new) }
    {
        let entries = library.entries.as_slice();
        let changes = changes_between(self.alloc, self.library.entries.as_slice(), entries)?;
        let mut statuses = Items::new(self.alloc);
        for i in 0..entries.len() {
            let status = self.status_in(
                &changes,
                library,
                i as u32,
                &entries[i],
                proof_at(proofs, i),
                steps,
            )?;
            statuses.push(status)?;
        }
        Ok(statuses)
    }

    fn status_in<L: Ledger>(
        &self,
        changes: &Changes,
        library: &Library,
        place: u32,
        entry: &Item,
        proof: Option<&Cert>,
        steps: &mut Steps<L>,
    ) -> Result<LemmaStatus, LemmaError>
        requires told { TellsChanges self.now.library.entries library.now.entries changes.now }
        requires within { place ≤ length library.now.entries }
        requires counted { (cert : Cert) → option_copied proof ≡ Some cert → IsCounted cert }
        ensures status { IfOk result (λ s. s ≡ status_at library.now place entry.now (option_copied proof.entry)) }
        ensures err { IfErr result (λ e. e ≡ LemmaError.Memory) }
        ensures cost { IfOk result (λ _. Costs self.now library.now place entry.now (option_copied proof.entry) steps.old steps.new) }
        ensures memory { OnErr result (CostsAtMost self.now library.now place entry.now (option_copied proof.entry) steps.old steps.new) }
    {
        match (entry, proof) {
            (Item::Lemma(lemma), Some(cert)) => {
                self.lemma_status_in(changes, library, place, lemma, cert, steps)
            }
            _ => Ok(LemmaStatus::Missing),
        }
    }

    fn lemma_status_in<L: Ledger>(
        &self,
        changes: &Changes,
        library: &Library,
        place: u32,
        lemma: &Lemma,
        cert: &Cert,
        steps: &mut Steps<L>,
    ) -> Result<LemmaStatus, LemmaError>
        requires told { TellsChanges self.now.library.entries library.now.entries changes.now }
        requires within { place ≤ length library.now.entries }
        requires counted { IsCounted cert.now }
        ensures status { IfOk result (λ s. s ≡ status_at library.now place (Item.Lemma lemma.now) (Some cert.now)) }
        ensures err { IfErr result (λ e. e ≡ LemmaError.Memory) }
        ensures cost { IfOk result (λ _. Costs self.now library.now place (Item.Lemma lemma.now) (Some cert.now) steps.old steps.new) }
        ensures memory { OnErr result (CostsAtMost self.now library.now place (Item.Lemma lemma.now) (Some cert.now) steps.old steps.new) }
    {
        match self.kept(changes, library, place, lemma, cert)? {
            Some(status) => Ok(status),
            None => checked(self.alloc, library, place, lemma, cert, steps),
        }
    }

    // The status that the lemma has here, if it has this goal and this certificate and that reads nothing that differs.
    fn kept(
        &self,
        changes: &Changes,
        library: &Library,
        place: u32,
        lemma: &Lemma,
        cert: &Cert,
    ) -> Result<Option<LemmaStatus>, AllocError>
        requires told { TellsChanges self.now.library.entries library.now.entries changes.now }
        requires within { place ≤ length library.now.entries }
        ensures status { IfOk result (λ o. IfSome o (λ s. s ≡ status_at library.now place (Item.Lemma lemma.now) (Some cert.now))) }
        ensures affected { IfOk result (λ o. o ≡ None → IsAffected self.now library.now place lemma.now cert.now) }
    {
        let entries = self.library.entries.as_slice();
        let old = place_of(entries, &lemma.name);
        let status = self.status_there(old, lemma, cert)?;
        let after = &library.entries.as_slice()[..place as usize];
        if reads_change(changes, &entries[..old], after, lemma, cert) {
            return Ok(None);
        }
        Ok(status)
    }

    // The status in a place, if a lemma stands there with this goal and this certificate.
    #[tactic(auto, using(crate::proofs::Unaffected::no_gap))]
    fn status_there(
        &self,
        place: usize,
        lemma: &Lemma,
        cert: &Cert,
    ) -> Result<Option<LemmaStatus>, AllocError>
        ensures status { IfOk result (λ o. IfSome o (λ s. slice_get (anew self.now) place ≡ Some s)) }
        ensures goal { IfOk result (λ o. IfSome o (λ _. goal_there (slice_get self.now.library.entries place) ≡ Some (goal_of lemma.now))) }
        ensures cert { IfOk result (λ o. IfSome o (λ _. proof_at self.now.proofs place ≡ Some cert.now)) }
        ensures none { IfOk result (λ o. o ≡ None → goal_there (slice_get self.now.library.entries place) ≡ Some (goal_of lemma.now) → proof_at self.now.proofs place ≡ Some cert.now → ⊥) }
    {
        if !has_cert(proof_at(self.proofs.as_slice(), place), cert) {
            return Ok(None);
        }
        let here = at(self.library.entries.as_slice(), place);
        if has_goal(self.alloc, here, lemma)? {
            return Ok(at(self.statuses.as_slice(), place).copied());
        }
        Ok(None)
    }

    /// Moves an entry to a place, counted from 0; the others keep their order.
    #[tactic(auto, using(rw_library::proofs::Places::place_found, crate::proofs::Whole::table_moved, crate::proofs::Whole::beside_found), unfolding(crate::specs::Refusals::move_refusal))]
    pub fn move_to<L: Ledger>(
        &mut self,
        name: &Name,
        to: u32,
        steps: &mut Steps<L>,
    ) -> Result<(), LemmaError>
        requires there { IsTrue (has_entry name.now self.old.library.entries) }
        requires within { to < length self.old.library.entries }
        ensures ok { OnOk result ((move_refusal self.old name.now to ≡ None) × (self.new ≡ with_moved self.old name.now to)) }
        ensures err { IfErr result (λ e. (e ≡ LemmaError.Memory) ⊎ (move_refusal self.old name.now to ≡ Some e)) }
        ensures same { OnErr result (self.new ≡ self.old) }
        ensures refused { IfErr result (λ e. (e ≡ LemmaError.Memory) ⊎ (steps.new ≡ steps.old)) }
        ensures cost { OnOk result (OnlyAffected self.old self.new steps.old steps.new) }
        ensures memory { OnErr result (AtMostAffected self.old (with_moved self.old name.now to) steps.old steps.new) }
    {
        let place = place_of(self.library.entries.as_slice(), name);
        let mut library = self.library.copy(self.alloc)?;
        move_to(&mut library.entries, place, to as usize)?;
        if let Some(refusal) = order_refusal(self.alloc, library.entries.as_slice())? {
            return Err(refusal);
        }
        let mut proofs = copy_proofs(self.alloc, self.proofs.as_slice())?;
        move_to(&mut proofs, place, to as usize)?;
        self.renew(library, proofs, steps)
    }

    /// Takes an entry away. No certificate is checked again: nothing names the entry. It takes no memory.
    #[tactic(auto, using(rw_library::proofs::Places::place_found, crate::proofs::Whole::beside_found), unfolding(crate::specs::Refusals::remove_refusal))]
    pub fn remove(&mut self, name: &Name) -> Result<(), LemmaError>
        requires { IsTrue (has_entry name.now self.old.library.entries) }
        ensures ok { OnOk result ((remove_refusal self.old name.now ≡ None) × (self.new ≡ without self.old name.now)) }
        ensures err { IfErr result (λ e. remove_refusal self.old name.now ≡ Some e) }
        ensures same { OnErr result (self.new ≡ self.old) }
    {
        let entries = self.library.entries.as_slice();
        if let Some(refusal) = use_refusal(entries, self.proofs.as_slice(), name) {
            return Err(refusal);
        }
        let place = place_of(entries, name);
        take_out(&mut self.library.entries, place);
        take_out(&mut self.proofs, place);
        take_out(&mut self.statuses, place);
        Ok(())
    }
}

fn proof_from<'a>(entries: &'a [Item], proofs: &'a [Option<Cert>], name: &Name) -> Option<&'a Cert>
    ensures { option_copied result ≡ proof_from proofs.now 0 entries.now name.now }
{
    for i in 0..entries.len() {
        if is_lemma(&entries[i]) && is_entry(name, &entries[i]) {
            return proof_at(proofs, i);
        }
    }
    None
}

fn status_from(entries: &[Item], statuses: &[LemmaStatus], name: &Name) -> Option<LemmaStatus>
    ensures { result ≡ status_from statuses.now 0 entries.now name.now }
{
    for i in 0..entries.len() {
        if is_lemma(&entries[i]) && is_entry(name, &entries[i]) {
            return at(statuses, i).copied();
        }
    }
    None
}

fn has_goal(alloc: Global, entry: Option<&Item>, lemma: &Lemma) -> Result<bool, AllocError>
    ensures { IfOk result (λ b. IsTrue b ↔ (goal_there (option_copied entry.entry) ≡ Some (goal_of lemma.now))) }
{
    match entry {
        Some(Item::Lemma(there)) => {
            let same = same_goal(alloc, there, lemma)?;
            Ok(same)
        }
        Some(Item::Definition(_)) => Ok(false),
        None => Ok(false),
    }
}

fn has_cert(proof: Option<&Cert>, cert: &Cert) -> bool
    ensures { IsTrue result ↔ (option_copied proof.entry ≡ Some cert.now) }
{
    match proof {
        Some(proof) => same_cert(proof, cert),
        None => false,
    }
}
