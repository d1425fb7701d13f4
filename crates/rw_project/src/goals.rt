// What is told of one node, and of all.
ghost use Rattle.std.specs.Prelude.{◌≡◌, ◌++◌, map, codes, option_copied, IfOk, OnOk};
ghost use Rattle.rw_printer.specs.Layout.{spec_text};
ghost use Rattle.rw_anew.specs.declared.status.NodeMark.{NodeMark};
ghost use Rattle.rw_project.specs.Goals.{mark_text, node_text, need_text, needs_texts, spec_texts, goal_texts, is_at, mark_of, lemma_told_text, lemma_of};
ghost use Rattle.rw_project.specs.Texts.{lemma_text};

use crate::texts::{push_lemma, push_place, push_state, push_status};
use rw_anew::status::{LemmaMark, Need, NodeMark};
use rw_items::Items;
use rw_nodes::edit::Place;
use rw_printer::{push_sequent, push_spec};
use rw_programs::prog::Spec;
use rw_terms::name::Name;
use rw_terms::text::Text;
use std::alloc::{AllocError, Global};

/// The place and the status of each node.
pub fn mark_texts(alloc: Global, marks: &[NodeMark]) -> Result<Items<Text>, AllocError>
    ensures { IfOk result (λ texts. texts ≡ map mark_text marks.now) }
{
    let mut texts = Items::new(alloc);
    for mark in marks {
        let mut text = Text::new(alloc);
        push_mark(&mut text, mark)?;
        texts.push(text)?;
    }
    Ok(texts)
}

/// Adds the name and the status of each lemma.
pub fn push_lemmas(
    alloc: Global,
    texts: &mut Items<Text>,
    marks: &[LemmaMark],
) -> Result<(), AllocError>
    ensures { OnOk result (texts.new ≡ texts.old ++ map lemma_text marks.now) }
{
    for mark in marks {
        let mut text = Text::new(alloc);
        push_lemma(&mut text, mark)?;
        texts.push(text)?;
    }
    Ok(())
}

/// `ok`, and the name and the status of a lemma.
pub fn lemma_told_text(alloc: Global, mark: &LemmaMark) -> Result<Text, AllocError>
    ensures { IfOk result (λ text. text ≡ lemma_told_text mark.now) }
{
    let mut text = Text::new(alloc);
    text.push_str("ok ")?;
    push_lemma(&mut text, mark)?;
    Ok(text)
}

/// What checking tells of the lemma of a name, if there is one.
pub fn lemma_of<'a>(name: &Name, marks: &'a [LemmaMark]) -> Option<&'a LemmaMark>
    ensures { option_copied result ≡ lemma_of name.now marks.now }
{
    for mark in marks {
        if mark.name.is(name) {
            return Some(mark);
        }
    }
    None
}

/// `ok`, and the place and the status of a node.
pub fn node_text(alloc: Global, mark: &NodeMark) -> Result<Text, AllocError>
    ensures { IfOk result (λ text. text ≡ node_text mark.now) }
{
    let mut text = Text::new(alloc);
    text.push_str("ok ")?;
    push_mark(&mut text, mark)?;
    Ok(text)
}

fn push_mark(text: &mut Text, mark: &NodeMark) -> Result<(), AllocError>
    ensures { OnOk result (text.new ≡ text.old ++ mark_text mark.now) }
{
    push_place(text, &mark.place)?;
    text.push_str(" ")?;
    push_status(text, mark.status)
}

/// The specification of a node, where it has one, and its obligations with their numbers and states.
pub fn goal_texts(alloc: Global, mark: &NodeMark) -> Result<Items<Text>, AllocError>
    ensures { IfOk result (λ texts. texts ≡ goal_texts mark.now) }
{
    let mut texts = Items::new(alloc);
    if let Some(spec) = &mark.spec {
        texts.push(spec_line(alloc, spec)?)?;
    }
    push_needs(alloc, &mut texts, mark.needs.as_slice())?;
    Ok(texts)
}

fn spec_line(alloc: Global, spec: &Spec) -> Result<Text, AllocError>
    ensures { IfOk result (λ text. text ≡ codes "spec " ++ spec_text spec.now) }
{
    let mut text = Text::new(alloc);
    text.push_str("spec ")?;
    push_spec(&mut text, spec)?;
    Ok(text)
}

fn push_needs(alloc: Global, texts: &mut Items<Text>, needs: &[Need]) -> Result<(), AllocError>
    ensures { OnOk result (texts.new ≡ texts.old ++ needs_texts 1 needs.now) }
{
    let mut number = 1;
    for need in needs {
        texts.push(need_line(alloc, number, need)?)?;
        number += 1;
    }
    Ok(())
}

fn need_line(alloc: Global, number: u64, need: &Need) -> Result<Text, AllocError>
    ensures { IfOk result (λ text. text ≡ need_text number need.now) }
{
    let mut text = Text::new(alloc);
    text.push_str("need ")?;
    text.push_number(number)?;
    text.push_str(" ")?;
    push_state(&mut text, need.state)?;
    text.push_str(" : ")?;
    push_sequent(&mut text, &need.sequent)?;
    Ok(text)
}

/// What checking tells of the node at a place, if one is there.
pub fn mark_of<'a>(place: &Place, marks: &'a [NodeMark]) -> Option<&'a NodeMark>
    ensures { option_copied result ≡ mark_of place.now marks.now }
{
    for mark in marks {
        if is_at(place, mark) {
            return Some(mark);
        }
    }
    None
}

fn is_at(place: &Place, mark: &NodeMark) -> bool
    ensures { result ≡ is_at place.now mark.now }
{
    mark.place.path.kids.as_slice() == place.path.kids.as_slice()
}
