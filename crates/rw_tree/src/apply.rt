//! What an edit does to a project.

ghost use Rattle.std.specs.Prelude.{◌≡◌, ◌⊎◌, ◌++◌, ℕ, List, [], ◌∷◌, length, OnOk, OnErr, IfOk, IfErr, IsSome, Some, None, true, false};
ghost use Rattle.std.specs.Option.{option_or};
ghost use Rattle.rw_nodes.specs.declared.edit.Edit.{Edit};
ghost use Rattle.rw_nodes.specs.declared.edit.Edit.TheVariants as edit;
ghost use Rattle.rw_nodes.specs.Nodes.{look};
ghost use Rattle.rw_goals.specs.declared.library.Item.{Item};
ghost use Rattle.rw_goals.specs.declared.library.Item.TheVariants as item;
ghost use Rattle.rw_nodes.specs.declared.parts.Parts.{Parts};
ghost use Rattle.rw_library.specs.Entries.{entry_name, has_entry};
ghost use Rattle.rw_nodes.specs.Edits.{is_param, without_param};
ghost use Rattle.rw_nodes.specs.Parts.{Makes, applied_to, set_step, with_entry, with_proof, less_entry};
ghost use Rattle.rw_tree.specs.Accepting.{full, refusal_of, IsGood, IsProject};
ghost use Rattle.rw_refusals.specs.Entering.{order_refusal};
ghost use Rattle.rw_tree.specs.Used.{sorts_refusal};
ghost use Rattle.rw_tree.specs.Mirror.{AreSound, early_refusal, late_refusal};

use crate::early::early_refusal;
use crate::used::sorts_refusal;
use crate::weight::within_weight;
use rw_goals::library::{Definition, Item, Lemma};
use rw_items::Items;
use rw_library::entries::{entry_name, has_entry, place_of};
use rw_nodes::edit::{Edit, Step};
use rw_nodes::globals::param_place;
use rw_nodes::node::Node;
use rw_nodes::parts::Parts;
use rw_programs::prog::{Param, Spec};
use rw_refusals::entering::order_refusal;
use rw_refusals::refusal::EditRefusal;
use rw_sequents::line::Cert;
use rw_terms::name::Name;
use std::alloc::{AllocError, Global};
use std::mem;

/// Applies an edit in place, or refuses it by the first test that holds and changes nothing.
pub fn apply_edit(alloc: Global, parts: &mut Parts, edit: &Edit) -> Result<(), EditRefusal>
    requires { IsProject parts.old }
    ensures made { OnOk result ((most : ℕ) (l : List Edit) → IsGood most l → Makes most l parts.old → Makes most (edit.now ∷ l) parts.new) }
    ensures project { OnOk result (IsProject parts.new) }
    ensures accepted { OnOk result ((most : ℕ) (l : List Edit) → IsGood most l → Makes most l parts.old → refusal_of most l edit.now ≡ None) }
    ensures refused { IfErr result (λ e. (most : ℕ) (l : List Edit) → IsGood most l → Makes most l parts.old → (e ≡ EditRefusal.Memory) ⊎ (refusal_of most l edit.now ≡ Some e)) }
    ensures same { OnErr result (parts.new ≡ parts.old) }
{
    if let Some(refusal) = early_refusal(alloc, parts, edit)? {
        return Err(refusal);
    }
    apply_within(alloc, parts, edit)
}

// Applies an edit that no earlier test refuses, or refuses it by the weight of the project with it.
#[tactic(auto, using(crate::proofs::Bounded::proved_entry))]
fn apply_within(alloc: Global, parts: &mut Parts, edit: &Edit) -> Result<(), EditRefusal>
    requires early { early_refusal parts.old edit.now ≡ None }
    requires sound { AreSound parts.old.main }
    requires lengths { length parts.old.proofs ≡ length parts.old.library.entries }
    ensures ok { OnOk result ((late_refusal parts.old edit.now ≡ None) × (parts.new ≡ applied_to parts.old edit.now)) }
    ensures err { IfErr result (λ e. (parts.new ≡ parts.old) × ((e ≡ EditRefusal.Memory) ⊎ (late_refusal parts.old edit.now ≡ Some e))) }
{
    match edit {
        Edit::Var(param) => add_global(alloc, parts, param),
        Edit::Root(spec) => set_root(alloc, parts, spec),
        Edit::Step(place, step) => {
            let step = step.copy(alloc)?;
            set_step(alloc, parts, place.path.kids.as_slice(), Some(step))
        }
        Edit::Clear(place) => set_step(alloc, parts, place.path.kids.as_slice(), None),
        Edit::Prove(place, number, cert) => {
            let cert = cert.copy(alloc)?;
            parts
                .main
                .put_cert(place.path.kids.as_slice(), *number, cert);
            Ok(())
        }
        Edit::ProveLemma(name, cert) => {
            let cert = cert.copy(alloc)?;
            set_proof(parts, name, cert);
            Ok(())
        }
        Edit::Define(definition) => define(alloc, parts, definition),
        Edit::Lemma(lemma) => {
            let lemma = lemma.copy(alloc)?;
            set_lemma(parts, lemma)?;
            Ok(())
        }
        Edit::Drop(name) => {
            drop_name(parts, name);
            Ok(())
        }
    }
}

// The later tests of a definition, behind that of the weight: the order, and what uses it.
fn later_refusal(
    alloc: Global,
    parts: &Parts,
    definition: &Definition,
) -> Result<Option<EditRefusal>, AllocError>
    requires { AreSound parts.now.main }
    ensures { IfOk result (λ refusal. refusal ≡ option_or (order_refusal parts.now.library.entries definition.now) (sorts_refusal parts.now definition.now)) }
{
    match order_refusal(alloc, parts.library.entries.as_slice(), definition)? {
        Some(refusal) => Ok(Some(refusal)),
        None => sorts_refusal(alloc, parts, definition),
    }
}

fn define(alloc: Global, parts: &mut Parts, definition: &Definition) -> Result<(), EditRefusal>
    requires sound { AreSound parts.old.main }
    requires lengths { length parts.old.proofs ≡ length parts.old.library.entries }
    ensures ok { OnOk result ((late_refusal parts.old (edit.Define definition.now) ≡ None) × (parts.new ≡ applied_to parts.old (edit.Define definition.now))) }
    ensures err { IfErr result (λ e. (parts.new ≡ parts.old) × ((e ≡ EditRefusal.Memory) ⊎ (late_refusal parts.old (edit.Define definition.now) ≡ Some e))) }
{
    let refusal = later_refusal(alloc, parts, definition)?;
    let entry = Item::Definition(definition.copy(alloc)?);
    if has_entry(&definition.name, parts.library.entries.as_slice()) {
        set_again(alloc, parts, entry, refusal)
    } else {
        set_new(alloc, parts, entry, refusal)
    }
}

// Sets an entry again, unless the project weighs too much with it or is refused for another reason.
#[tactic(auto, using(rw_library::proofs::Places::place_found, rw_library::proofs::Places::set_back, crate::proofs::TableLemmas::set_within, crate::proofs::TableLemmas::set_there))]
fn set_again(
    alloc: Global,
    parts: &mut Parts,
    entry: Item,
    refusal: Option<EditRefusal>,
) -> Result<(), EditRefusal>
    requires { has_entry (entry_name entry) parts.old.library.entries ≡ true }
    ensures ok { OnOk result ((option_or (full (with_entry parts.old entry)) refusal ≡ None) × (parts.new ≡ with_entry parts.old entry)) }
    ensures err { IfErr result (λ e. (parts.new ≡ parts.old) × ((e ≡ EditRefusal.Memory) ⊎ (option_or (full (with_entry parts.old entry)) refusal ≡ Some e))) }
{
    let name = entry_name(&entry);
    let place = place_of(parts.library.entries.as_slice(), &name);
    let old = parts.library.entries.replace(place, entry);
    match settled(alloc, parts, refusal) {
        Ok(()) => Ok(()),
        Err(refusal) => {
            parts.library.entries.set(place, old);
            Err(refusal)
        }
    }
}

// Adds an entry, unless the project weighs too much with it or is refused for another reason.
fn set_new(
    alloc: Global,
    parts: &mut Parts,
    entry: Item,
    refusal: Option<EditRefusal>,
) -> Result<(), EditRefusal>
    requires { has_entry (entry_name entry) parts.old.library.entries ≡ false }
    ensures ok { OnOk result ((option_or (full (with_entry parts.old entry)) refusal ≡ None) × (parts.new ≡ with_entry parts.old entry)) }
    ensures err { IfErr result (λ e. (parts.new ≡ parts.old) × ((e ≡ EditRefusal.Memory) ⊎ (option_or (full (with_entry parts.old entry)) refusal ≡ Some e))) }
{
    add_entry(parts, entry)?;
    match settled(alloc, parts, refusal) {
        Ok(()) => Ok(()),
        Err(refusal) => {
            remove_last_entry(parts);
            Err(refusal)
        }
    }
}

// Takes the entry away that was added last.
fn remove_last_entry(parts: &mut Parts)
    ensures { (before : Parts) (e : Item) → has_entry (entry_name e) before.library.entries ≡ false → parts.old ≡ with_entry before e → parts.new ≡ before }
{
    remove_last(&mut parts.proofs);
    remove_last(&mut parts.library.entries);
}

fn remove_last<T: Drop>(items: &mut Items<T>)
    ensures { (rest : List T) (last : T) → items.old ≡ rest ++ last ∷ [] → items.new ≡ rest }
{
    items.pop();
}

// The refusal by the weight, or else the other one.
fn settled(alloc: Global, parts: &Parts, refusal: Option<EditRefusal>) -> Result<(), EditRefusal>
    ensures ok { OnOk result (option_or (full parts.now) refusal ≡ None) }
    ensures err { IfErr result (λ e. (e ≡ EditRefusal.Memory) ⊎ (option_or (full parts.now) refusal ≡ Some e)) }
{
    match within_weight(alloc, parts) {
        Ok(()) => match refusal {
            Some(refusal) => Err(refusal),
            None => Ok(()),
        },
        Err(refusal) => Err(refusal),
    }
}

#[tactic(auto, using(crate::proofs::TableLemmas::place_in, crate::proofs::TableLemmas::set_there))]
fn set_lemma(parts: &mut Parts, lemma: Lemma) -> Result<(), AllocError>
    ensures ok { OnOk result (parts.new ≡ with_entry parts.old (item.Lemma lemma)) }
    ensures err { OnErr result (parts.new ≡ parts.old) }
{
    let name = lemma.name.copy();
    let entry = Item::Lemma(lemma);
    if has_entry(&name, parts.library.entries.as_slice()) {
        let place = place_of(parts.library.entries.as_slice(), &name);
        parts.library.entries.set(place, entry);
        Ok(())
    } else {
        add_entry(parts, entry)
    }
}

// Adds an entry without a certificate.
#[tactic(auto, using(crate::proofs::TableLemmas::set_last))]
fn add_entry(parts: &mut Parts, entry: Item) -> Result<(), AllocError>
    requires { has_entry (entry_name entry) parts.old.library.entries ≡ false }
    ensures ok { OnOk result (parts.new ≡ with_entry parts.old entry) }
    ensures err { OnErr result (parts.new ≡ parts.old) }
{
    parts.library.entries.push(entry)?;
    match parts.proofs.push(None) {
        Ok(()) => Ok(()),
        Err(error) => {
            let _ = parts.library.entries.pop();
            Err(error)
        }
    }
}

#[tactic(auto, using(crate::proofs::TableLemmas::place_in))]
fn set_proof(parts: &mut Parts, name: &Name, cert: Cert)
    requires there { has_entry name.now parts.old.library.entries ≡ true }
    requires lengths { length parts.old.proofs ≡ length parts.old.library.entries }
    ensures { parts.new ≡ with_proof parts.old name.now cert }
{
    let place = place_of(parts.library.entries.as_slice(), name);
    parts.proofs.set(place, Some(cert));
}

// Drops an entry, or else a global.
fn drop_name(parts: &mut Parts, name: &Name)
    requires lengths { length parts.old.proofs ≡ length parts.old.library.entries }
    requires there { has_entry name.now parts.old.library.entries ≡ false → is_param parts.old.globals name.now ≡ true }
    ensures { parts.new ≡ applied_to parts.old (edit.Drop name.now) }
{
    if has_entry(name, parts.library.entries.as_slice()) {
        drop_entry(parts, name);
    } else {
        drop_global(&mut parts.globals, name);
    }
}

#[tactic(auto, using(crate::proofs::TableLemmas::place_in, crate::proofs::TableLemmas::taken_away))]
fn drop_entry(parts: &mut Parts, name: &Name)
    requires lengths { length parts.old.proofs ≡ length parts.old.library.entries }
    requires there { has_entry name.now parts.old.library.entries ≡ true }
    ensures { parts.new ≡ less_entry parts.old name.now }
{
    let place = place_of(parts.library.entries.as_slice(), name);
    parts.library.entries.remove(place);
    parts.proofs.remove(place);
}

#[tactic(auto, using(crate::proofs::TableLemmas::param_found, crate::proofs::TableLemmas::param_removed))]
fn drop_global(globals: &mut Items<Param>, name: &Name)
    requires { is_param globals.old name.now ≡ true }
    ensures { globals.new ≡ without_param globals.old name.now }
{
    let place = param_place(globals.as_slice(), name);
    globals.remove(place);
}

fn add_global(alloc: Global, parts: &mut Parts, param: &Param) -> Result<(), EditRefusal>
    ensures ok { OnOk result ((full (applied_to parts.old (edit.Var param.now)) ≡ None) × (parts.new ≡ applied_to parts.old (edit.Var param.now))) }
    ensures err { IfErr result (λ e. (parts.new ≡ parts.old) × ((e ≡ EditRefusal.Memory) ⊎ (full (applied_to parts.old (edit.Var param.now)) ≡ Some e))) }
{
    parts.globals.push(param.copy())?;
    match within_weight(alloc, parts) {
        Ok(()) => Ok(()),
        Err(refusal) => {
            let _ = parts.globals.pop();
            Err(refusal)
        }
    }
}

fn set_root(alloc: Global, parts: &mut Parts, spec: &Spec) -> Result<(), EditRefusal>
    ensures ok { OnOk result ((full (applied_to parts.old (edit.Root spec.now)) ≡ None) × (parts.new ≡ applied_to parts.old (edit.Root spec.now))) }
    ensures err { IfErr result (λ e. (parts.new ≡ parts.old) × ((e ≡ EditRefusal.Memory) ⊎ (full (applied_to parts.old (edit.Root spec.now)) ≡ Some e))) }
{
    let spec = spec.copy(alloc)?;
    let old = mem::replace(&mut parts.root, Some(spec));
    match within_weight(alloc, parts) {
        Ok(()) => Ok(()),
        Err(refusal) => {
            parts.root = old;
            Err(refusal)
        }
    }
}

// Sets a step, or none; where the project weighs too much with it, all is put back.
#[tactic(auto, using(crate::proofs::Restored::still_there, crate::proofs::Restored::put_back))]
fn set_step(
    alloc: Global,
    parts: &mut Parts,
    path: &[u32],
    step: Option<Step>,
) -> Result<(), EditRefusal>
    requires { IsSome (look parts.old.main path.now) }
    ensures ok { OnOk result ((full (record parts.old { main = set_step path.now step parts.old.main }) ≡ None) × (parts.new ≡ record parts.old { main = set_step path.now step parts.old.main })) }
    ensures err { IfErr result (λ e. (parts.new ≡ parts.old) × ((e ≡ EditRefusal.Memory) ⊎ (full (record parts.old { main = set_step path.now step parts.old.main }) ≡ Some e))) }
{
    let mut other = Node::fresh(alloc, step)?;
    parts.main.graft(path, &mut other);
    match within_weight(alloc, parts) {
        Ok(()) => Ok(()),
        Err(refusal) => {
            parts.main.graft(path, &mut other);
            Err(refusal)
        }
    }
}
