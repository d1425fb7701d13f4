//! The tests of what the table gets and loses.

ghost use Rattle.std.specs.Prelude.{◌≡◌, ◌+◌, if◌then◌else◌, map, length, IfOk, bytes_eq};
ghost use Rattle.rw_faults.specs.Faults.{first_of_names, unknown_in};
ghost use Rattle.rw_library.specs.Entries.{head_of};
ghost use Rattle.rw_edit_tests.specs.Entering.{repeated, duplicate, is_headed, are_few, entry_limit, heads_with, define_unknown, define_duplicate, define_part, define_limit, define_refusal, order_refusal, lemma_unknown, lemma_duplicate, ill_formed_from, number_behind, lemma_part, is_light_lemma, is_shallow_lemma, lemma_limit, lemma_refusal, prove_refusal};
ghost use Rattle.rw_citations.specs.Goal.{scope_of_parameters};

use crate::certificate::cert_limit;
use crate::limits::{are_light, are_shallow};
use crate::refusal::{EditRefusal, Which};
use crate::root::is_ill_formed;
use crate::unknown::unknown_in_cert;
use rw_citations::goal::scope_of_parameters;
use rw_faults::limits::{is_light, is_shallow};
use rw_faults::unknown::{predicate_unknown_in, unknown_in};
use rw_goals::library::{Definition, Item, Lemma};
use rw_heads::head::{Module, ProcHead};
use rw_heads::modules::has_module;
use rw_heads::names::has_name;
use rw_heads::procs::has_proc;
use rw_items::Items;
use rw_library::entries::{before_entry, has_definition, has_lemma, head_of, heads_of};
use rw_library::parameters::first_repeated;
use rw_programs::prog::Param;
use rw_sequents::line::Cert;
use rw_terms::name::Name;
use rw_terms::scope::{Head, Scope};
use rw_terms::sorts::{MOST_DEPTH, MOST_PARTS};
use rw_terms::term::{Formula, Sort};
use std::alloc::{AllocError, Global};

/// The most parameters of a declaration, and variables of a state of a module.
pub const MOST_PARAMS: u32 = 16;

const MOST_ENTRIES: u32 = 1024;

/// The first test that refuses the definition, but for those of the weight, the order and its users.
#[tactic(auto, unfolding(crate::specs::Entering::define_refusal))]
pub fn define_refusal(
    alloc: Global,
    entries: &[Item],
    procs: &[ProcHead],
    modules: &[Module],
    order: &[Name],
    definition: &Definition,
) -> Result<Option<EditRefusal>, AllocError>
    ensures { IfOk result (λ refusal. refusal ≡ define_refusal entries.now procs.now modules.now order.now definition.now) }
{
    let scope = scope_of_parameters(alloc, definition.params.as_slice())?;
    let heads = heads_with(alloc, definition, entries)?;
    if let Some(name) = define_unknown(&scope, heads.as_slice(), definition) {
        return Ok(Some(EditRefusal::Unknown(name)));
    }
    if let Some(refusal) = define_duplicate(entries, procs, modules, definition) {
        return Ok(Some(refusal));
    }
    if let Some(part) = define_part(alloc, &scope, heads.as_slice(), definition)? {
        return Ok(Some(EditRefusal::Sort(part)));
    }
    Ok(define_limit(order, definition))
}

fn define_unknown(scope: &Scope, heads: &[Head], definition: &Definition) -> Option<Name>
    requires { scope.now ≡ scope_of_parameters definition.now.params }
    ensures { result ≡ define_unknown heads.now definition.now }
{
    unknown_in(scope, heads, &definition.body)
}

// The body is part 1.
fn define_part(
    alloc: Global,
    scope: &Scope,
    heads: &[Head],
    definition: &Definition,
) -> Result<Option<u32>, AllocError>
    requires { scope.now ≡ scope_of_parameters definition.now.params }
    ensures { IfOk result (λ part. part ≡ define_part heads.now definition.now) }
{
    if is_ill_formed(alloc, scope, heads, &[], &definition.body)? {
        Ok(Some(1))
    } else {
        Ok(None)
    }
}

fn define_duplicate(
    entries: &[Item],
    procs: &[ProcHead],
    modules: &[Module],
    definition: &Definition,
) -> Option<EditRefusal>
    ensures { result ≡ define_duplicate entries.now procs.now modules.now definition.now }
{
    let name = &definition.name;
    let clash = has_lemma(name, entries) || is_headed(name, procs, modules);
    duplicate(clash, name, first_repeated(definition.params.as_slice()))
}

fn define_limit(order: &[Name], definition: &Definition) -> Option<EditRefusal>
    ensures { result ≡ define_limit order.now definition.now }
{
    let light = is_light(&definition.body);
    let shallow = is_shallow(&definition.body);
    let few = are_few(definition.params.len());
    entry_limit(light, shallow, few, &definition.name, order)
}

/// The heads of the predicates, where a definition that is set again has its new one.
pub fn heads_with(
    alloc: Global,
    definition: &Definition,
    entries: &[Item],
) -> Result<Items<Head>, AllocError>
    ensures { IfOk result (λ heads. heads ≡ heads_with definition.now entries.now) }
{
    let mut heads = Items::new(alloc);
    for entry in entries {
        if let Item::Definition(old) = entry {
            heads.push(newer_head(alloc, old, definition)?)?;
        }
    }
    Ok(heads)
}

fn newer_head(alloc: Global, old: &Definition, new: &Definition) -> Result<Head, AllocError>
    ensures { IfOk result (λ head. head ≡ (if bytes_eq old.now.name new.now.name then head_of new.now else head_of old.now)) }
{
    if old.name.is(&new.name) {
        head_of(alloc, new)
    } else {
        head_of(alloc, old)
    }
}

/// The refusal of a name that is there as another kind, or else of a parameter that stands twice.
pub fn duplicate(clash: bool, name: &Name, twice: Option<Name>) -> Option<EditRefusal>
    ensures { result ≡ duplicate clash name.now twice }
{
    if clash {
        return Some(EditRefusal::Duplicate(name.copy()));
    }
    repeated(twice)
}

/// The refusal of a name that stands twice.
pub fn repeated(twice: Option<Name>) -> Option<EditRefusal>
    ensures { result ≡ repeated twice }
{
    match twice {
        Some(name) => Some(EditRefusal::Duplicate(name)),
        None => None,
    }
}

/// The first limit that an entry of the table passes: the weight and the depth of its formulas, 16 parameters, 1024 entries.
pub fn entry_limit(
    light: bool,
    shallow: bool,
    few: bool,
    name: &Name,
    order: &[Name],
) -> Option<EditRefusal>
    ensures { result ≡ entry_limit light shallow few name.now order.now }
{
    if !light {
        return Some(EditRefusal::Limit(Which::Weight, MOST_PARTS));
    }
    if !shallow {
        return Some(EditRefusal::Limit(Which::Depth, MOST_DEPTH));
    }
    if !few {
        return Some(EditRefusal::Limit(Which::Params, MOST_PARAMS));
    }
    if !has_name(name, order) && order.len() >= MOST_ENTRIES as usize {
        return Some(EditRefusal::Limit(Which::Table, MOST_ENTRIES));
    }
    None
}

/// Whether so many parameters are at most 16.
pub fn are_few(count: usize) -> bool
    ensures { result ≡ are_few count }
{
    count <= MOST_PARAMS as usize
}

/// Whether values and results are at most 16 together.
pub fn are_few_together(values: &[Param], results: &[Param]) -> bool
    ensures { result ≡ are_few (length values.now + length results.now) }
{
    let (values, results) = (values.len(), results.len());
    if values > MOST_PARAMS as usize || results > MOST_PARAMS as usize {
        return false;
    }
    are_few(values + results)
}

fn is_headed(name: &Name, procs: &[ProcHead], modules: &[Module]) -> bool
    ensures { result ≡ is_headed name.now procs.now modules.now }
{
    has_proc(name, procs) || has_module(name, modules)
}

/// A definition may use those before its own place alone.
pub fn order_refusal(
    alloc: Global,
    entries: &[Item],
    definition: &Definition,
) -> Result<Option<EditRefusal>, AllocError>
    ensures { IfOk result (λ refusal. refusal ≡ order_refusal entries.now definition.now) }
{
    let heads = heads_of(alloc, before_entry(entries, &definition.name))?;
    match predicate_unknown_in(heads.as_slice(), &definition.body) {
        Some(name) => Ok(Some(EditRefusal::Order(name))),
        None => Ok(None),
    }
}

/// The first test that refuses the lemma.
#[tactic(auto, unfolding(crate::specs::Entering::lemma_refusal))]
pub fn lemma_refusal(
    alloc: Global,
    entries: &[Item],
    procs: &[ProcHead],
    modules: &[Module],
    order: &[Name],
    lemma: &Lemma,
) -> Result<Option<EditRefusal>, AllocError>
    ensures { IfOk result (λ refusal. refusal ≡ lemma_refusal entries.now procs.now modules.now order.now lemma.now) }
{
    let scope = scope_of_parameters(alloc, lemma.params.as_slice())?;
    let heads = heads_of(alloc, entries)?;
    if let Some(name) = lemma_unknown(&scope, heads.as_slice(), lemma) {
        return Ok(Some(EditRefusal::Unknown(name)));
    }
    if let Some(refusal) = lemma_duplicate(entries, procs, modules, lemma) {
        return Ok(Some(refusal));
    }
    if let Some(part) = lemma_part(alloc, &scope, heads.as_slice(), lemma)? {
        return Ok(Some(EditRefusal::Sort(part)));
    }
    Ok(lemma_limit(order, lemma))
}

fn lemma_duplicate(
    entries: &[Item],
    procs: &[ProcHead],
    modules: &[Module],
    lemma: &Lemma,
) -> Option<EditRefusal>
    ensures { result ≡ lemma_duplicate entries.now procs.now modules.now lemma.now }
{
    let name = &lemma.name;
    let clash = has_definition(name, entries) || is_headed(name, procs, modules);
    duplicate(clash, name, first_repeated(lemma.params.as_slice()))
}

fn lemma_limit(order: &[Name], lemma: &Lemma) -> Option<EditRefusal>
    ensures { result ≡ lemma_limit order.now lemma.now }
{
    let light = is_light_lemma(lemma);
    let shallow = is_shallow_lemma(lemma);
    let few = are_few(lemma.params.len());
    entry_limit(light, shallow, few, &lemma.name, order)
}

fn is_light_lemma(lemma: &Lemma) -> bool
    ensures { result ≡ is_light_lemma lemma.now }
{
    are_light(lemma.sequent.left.as_slice()) && are_light(lemma.sequent.right.as_slice())
}

fn is_shallow_lemma(lemma: &Lemma) -> bool
    ensures { result ≡ is_shallow_lemma lemma.now }
{
    are_shallow(lemma.sequent.left.as_slice()) && are_shallow(lemma.sequent.right.as_slice())
}

fn lemma_unknown(scope: &Scope, heads: &[Head], lemma: &Lemma) -> Option<Name>
    requires { scope.now ≡ scope_of_parameters lemma.now.params }
    ensures { result ≡ lemma_unknown heads.now lemma.now }
{
    let name = unknown_in_any(scope, heads, lemma.sequent.left.as_slice());
    if name.is_some() {
        name
    } else {
        unknown_in_any(scope, heads, lemma.sequent.right.as_slice())
    }
}

fn unknown_in_any(scope: &Scope, heads: &[Head], formulas: &[Formula]) -> Option<Name>
    ensures { result ≡ first_of_names (map (unknown_in scope.now heads.now) formulas.now) }
{
    for formula in formulas {
        let name = unknown_in(scope, heads, formula);
        if name.is_some() {
            return name;
        }
    }
    None
}

fn lemma_part(
    alloc: Global,
    scope: &Scope,
    heads: &[Head],
    lemma: &Lemma,
) -> Result<Option<u32>, AllocError>
    requires { scope.now ≡ scope_of_parameters lemma.now.params }
    ensures { IfOk result (λ part. part ≡ lemma_part heads.now lemma.now) }
{
    let left = lemma.sequent.left.as_slice();
    if let Some(part) = ill_formed_from(alloc, scope, heads, 1, left)? {
        return Ok(Some(part));
    }
    let number = number_behind(left.len());
    ill_formed_from(alloc, scope, heads, number, lemma.sequent.right.as_slice())
}

fn number_behind(count: usize) -> u32
    ensures { result ≡ number_behind count }
{
    if count < u32::MAX as usize {
        count as u32 + 1
    } else {
        u32::MAX
    }
}

// The number of the first ill-formed one of formulas that are numbered from `first` on.
fn ill_formed_from(
    alloc: Global,
    scope: &Scope,
    heads: &[Head],
    first: u32,
    formulas: &[Formula],
) -> Result<Option<u32>, AllocError>
    ensures { IfOk result (λ part. part ≡ ill_formed_from scope.now heads.now first formulas.now) }
{
    let mut number = first;
    for formula in formulas {
        if is_ill_formed(alloc, scope, heads, &[], formula)? {
            return Ok(Some(number));
        }
        number = number.saturating_add(1);
    }
    Ok(None)
}

/// The first test that refuses the certificate for the lemma of this name.
pub fn prove_refusal(
    alloc: Global,
    entries: &[Item],
    name: &Name,
    cert: &Cert,
) -> Result<Option<EditRefusal>, AllocError>
    ensures { IfOk result (λ refusal. refusal ≡ prove_refusal entries.now name.now cert.now) }
{
    if !has_lemma(name, entries) {
        return Ok(Some(EditRefusal::Unknown(name.copy())));
    }
    if let Some(name) = unknown_in_cert(alloc, entries, cert)? {
        return Ok(Some(EditRefusal::Unknown(name)));
    }
    Ok(cert_limit(cert))
}
