//! The tests of what the table gets and loses.

ghost use Rattle.std.specs.Prelude.{◌≡◌, ◌&&◌, if◌then◌else◌, map, IfOk, [], bytes_eq};
ghost use Rattle.std.specs.List.{list_all};
ghost use Rattle.rw_faults.specs.Limits.{is_light, is_shallow};
ghost use Rattle.rw_faults.specs.Faults.{first_of_names, unknown_in};
ghost use Rattle.rw_library.specs.Entries.{head_of};
ghost use Rattle.rw_refusals.specs.Entering.{duplicate, entry_limit, heads_with, define_refusal, order_refusal, lemma_unknown, ill_formed_from, number_behind, lemma_part, lemma_refusal, prove_refusal};
ghost use Rattle.rw_citations.specs.Goal.{scope_of_parameters};

use crate::certificate::cert_limit;
use crate::limits::{are_light, are_shallow};
use crate::refusal::{EditRefusal, Which};
use crate::root::is_ill_formed;
use crate::unknown::unknown_in_cert;
use rw_citations::goal::scope_of_parameters;
use rw_faults::limits::{is_light, is_shallow};
use rw_faults::unknown::{predicate_unknown_in, unknown_in};
use rw_goals::library::{Definition, Item, Lemma};
use rw_items::Items;
use rw_library::entries::{before_entry, has_definition, has_entry, has_lemma, head_of, heads_of};
use rw_library::parameters::first_repeated;
use rw_sequents::line::Cert;
use rw_terms::name::Name;
use rw_terms::scope::{Head, Scope};
use rw_terms::sorts::{MOST_DEPTH, MOST_PARTS};
use rw_terms::term::{Formula, Sort};
use std::alloc::{AllocError, Global};

const MOST_PARAMS: u32 = 16;

const MOST_ENTRIES: u32 = 1024;

/// The first test that refuses the definition, but for those of the weight, the order and its users.
#[tactic(auto, unfolding(crate::specs::Entering::define_refusal))]
pub fn define_refusal(
    alloc: Global,
    entries: &[Item],
    definition: &Definition,
) -> Result<Option<EditRefusal>, AllocError>
    ensures { IfOk result (λ refusal. refusal ≡ define_refusal entries.now definition.now) }
{
    let params = definition.params.as_slice();
    let scope = scope_of_parameters(alloc, params)?;
    let heads = heads_with(alloc, definition, entries)?;
    let heads = heads.as_slice();
    if let Some(name) = unknown_in(&scope, heads, &definition.body) {
        return Ok(Some(EditRefusal::Unknown(name)));
    }
    if let Some(refusal) = duplicate(
        has_lemma(&definition.name, entries),
        &definition.name,
        params,
    ) {
        return Ok(Some(refusal));
    }
    if is_ill_formed(alloc, &scope, heads, &[], &definition.body)? {
        return Ok(Some(EditRefusal::Sort(1)));
    }
    let light = is_light(&definition.body);
    let shallow = is_shallow(&definition.body);
    Ok(entry_limit(light, shallow, params, &definition.name, entries))
}

/// The heads of the predicates, where a definition that is set again has its new one.
pub fn heads_with(
    alloc: Global,
    definition: &Definition,
    entries: &[Item],
) -> Result<Items<Head>, AllocError>
    ensures { IfOk result (λ heads. heads ≡ heads_with definition.now entries.now) }
{
    let mut heads = Items::new(alloc);
    for entry in entries {
        if let Item::Definition(old) = entry {
            heads.push(newer_head(alloc, old, definition)?)?;
        }
    }
    Ok(heads)
}

fn newer_head(alloc: Global, old: &Definition, new: &Definition) -> Result<Head, AllocError>
    ensures { IfOk result (λ head. head ≡ (if bytes_eq old.now.name new.now.name then head_of new.now else head_of old.now)) }
{
    if old.name.is(&new.name) {
        head_of(alloc, new)
    } else {
        head_of(alloc, old)
    }
}

fn duplicate(clash: bool, name: &Name, params: &[(Name, Sort)]) -> Option<EditRefusal>
    ensures { result ≡ duplicate clash name.now params.now }
{
    if clash {
        return Some(EditRefusal::Duplicate(name.copy()));
    }
    match first_repeated(params) {
        Some(name) => Some(EditRefusal::Duplicate(name)),
        None => None,
    }
}

fn entry_limit(
    light: bool,
    shallow: bool,
    params: &[(Name, Sort)],
    name: &Name,
    entries: &[Item],
) -> Option<EditRefusal>
    ensures { result ≡ entry_limit light shallow params.now name.now entries.now }
{
    if !light {
        return Some(EditRefusal::Limit(Which::Weight, MOST_PARTS));
    }
    if !shallow {
        return Some(EditRefusal::Limit(Which::Depth, MOST_DEPTH));
    }
    if params.len() > MOST_PARAMS as usize {
        return Some(EditRefusal::Limit(Which::Params, MOST_PARAMS));
    }
    if !has_entry(name, entries) && entries.len() >= MOST_ENTRIES as usize {
        return Some(EditRefusal::Limit(Which::Table, MOST_ENTRIES));
    }
    None
}

/// A definition may use those before its own place alone.
pub fn order_refusal(
    alloc: Global,
    entries: &[Item],
    definition: &Definition,
) -> Result<Option<EditRefusal>, AllocError>
    ensures { IfOk result (λ refusal. refusal ≡ order_refusal entries.now definition.now) }
{
    let heads = heads_of(alloc, before_entry(entries, &definition.name))?;
    match predicate_unknown_in(heads.as_slice(), &definition.body) {
        Some(name) => Ok(Some(EditRefusal::Order(name))),
        None => Ok(None),
    }
}

/// The first test that refuses the lemma.
#[tactic(auto, unfolding(crate::specs::Entering::lemma_refusal))]
pub fn lemma_refusal(
    alloc: Global,
    entries: &[Item],
    lemma: &Lemma,
) -> Result<Option<EditRefusal>, AllocError>
    ensures { IfOk result (λ refusal. refusal ≡ lemma_refusal entries.now lemma.now) }
{
    let params = lemma.params.as_slice();
    let scope = scope_of_parameters(alloc, params)?;
    let heads = heads_of(alloc, entries)?;
    if let Some(name) = lemma_unknown(&scope, heads.as_slice(), lemma) {
        return Ok(Some(EditRefusal::Unknown(name)));
    }
    if let Some(refusal) = duplicate(has_definition(&lemma.name, entries), &lemma.name, params) {
        return Ok(Some(refusal));
    }
    if let Some(part) = lemma_part(alloc, &scope, heads.as_slice(), lemma)? {
        return Ok(Some(EditRefusal::Sort(part)));
    }
    let light = is_light_lemma(lemma);
    let shallow = is_shallow_lemma(lemma);
    Ok(entry_limit(light, shallow, params, &lemma.name, entries))
}

fn is_light_lemma(lemma: &Lemma) -> bool
    ensures { result ≡ (list_all is_light lemma.now.sequent.left && list_all is_light lemma.now.sequent.right) }
{
    are_light(lemma.sequent.left.as_slice()) && are_light(lemma.sequent.right.as_slice())
}

fn is_shallow_lemma(lemma: &Lemma) -> bool
    ensures { result ≡ (list_all is_shallow lemma.now.sequent.left && list_all is_shallow lemma.now.sequent.right) }
{
    are_shallow(lemma.sequent.left.as_slice()) && are_shallow(lemma.sequent.right.as_slice())
}

fn lemma_unknown(scope: &Scope, heads: &[Head], lemma: &Lemma) -> Option<Name>
    requires { scope.now ≡ scope_of_parameters lemma.now.params }
    ensures { result ≡ lemma_unknown heads.now lemma.now }
{
    let name = unknown_in_any(scope, heads, lemma.sequent.left.as_slice());
    if name.is_some() {
        name
    } else {
        unknown_in_any(scope, heads, lemma.sequent.right.as_slice())
    }
}

fn unknown_in_any(scope: &Scope, heads: &[Head], formulas: &[Formula]) -> Option<Name>
    ensures { result ≡ first_of_names (map (unknown_in scope.now heads.now) formulas.now) }
{
    for formula in formulas {
        let name = unknown_in(scope, heads, formula);
        if name.is_some() {
            return name;
        }
    }
    None
}

fn lemma_part(
    alloc: Global,
    scope: &Scope,
    heads: &[Head],
    lemma: &Lemma,
) -> Result<Option<u32>, AllocError>
    requires { scope.now ≡ scope_of_parameters lemma.now.params }
    ensures { IfOk result (λ part. part ≡ lemma_part heads.now lemma.now) }
{
    let left = lemma.sequent.left.as_slice();
    if let Some(part) = ill_formed_from(alloc, scope, heads, 1, left)? {
        return Ok(Some(part));
    }
    let number = number_behind(left.len());
    ill_formed_from(alloc, scope, heads, number, lemma.sequent.right.as_slice())
}

fn number_behind(count: usize) -> u32
    ensures { result ≡ number_behind count }
{
    if count < u32::MAX as usize {
        count as u32 + 1
    } else {
        u32::MAX
    }
}

// The number of the first ill-formed one of formulas that are numbered from `first` on.
fn ill_formed_from(
    alloc: Global,
    scope: &Scope,
    heads: &[Head],
    first: u32,
    formulas: &[Formula],
) -> Result<Option<u32>, AllocError>
    ensures { IfOk result (λ part. part ≡ ill_formed_from scope.now heads.now first formulas.now) }
{
    let mut number = first;
    for formula in formulas {
        if is_ill_formed(alloc, scope, heads, &[], formula)? {
            return Ok(Some(number));
        }
        number = number.saturating_add(1);
    }
    Ok(None)
}

/// The first test that refuses the certificate for the lemma of this name.
pub fn prove_refusal(
    alloc: Global,
    entries: &[Item],
    name: &Name,
    cert: &Cert,
) -> Result<Option<EditRefusal>, AllocError>
    ensures { IfOk result (λ refusal. refusal ≡ prove_refusal entries.now name.now cert.now) }
{
    if !has_lemma(name, entries) {
        return Ok(Some(EditRefusal::Unknown(name.copy())));
    }
    if let Some(name) = unknown_in_cert(alloc, entries, cert)? {
        return Ok(Some(EditRefusal::Unknown(name)));
    }
    Ok(cert_limit(cert))
}
