// The texts of replies.
ghost use Rattle.std.specs.Prelude.{◌≡◌, ◌++◌, [], ◌∷◌, List, IfOk, OnOk};
ghost use Rattle.rw_project.specs.Texts.{kids_text, tree_text, place_text, point_text, state_text, misfit_number, status_text, which_text, spot_text, refusal_text, accepted_text, syntax_text, is_good, is_good_state, lemma_state_text, lemma_text, lemma_open_text, lemmas_text, closed_text, not_closed_text, closing_text};

use rw_anew::status::{LemmaMark, NeedState, NodeMark, Status};
use rw_nodes::edit::{Place, TreeName};
use rw_programs::applied::Misfit;
use rw_refusals::refusal::{EditRefusal, Spot, Which};
use rw_terms::name::Name;
use rw_terms::text::Text;
use std::alloc::{AllocError, Global};

pub fn accepted_text(alloc: Global, number: u64) -> Result<Text, AllocError>
    ensures { IfOk result (λ text. text ≡ accepted_text number) }
{
    let mut text = Text::new(alloc);
    text.push_str("ok ")?;
    text.push_number(number)?;
    Ok(text)
}

pub fn syntax_text(alloc: Global, offset: u32) -> Result<Text, AllocError>
    ensures { IfOk result (λ text. text ≡ syntax_text offset) }
{
    let mut text = Text::new(alloc);
    text.push_str("E1 syntax ")?;
    text.push_number(offset as u64)?;
    Ok(text)
}

pub fn refusal_text(alloc: Global, refusal: &EditRefusal) -> Result<Text, AllocError>
    ensures { IfOk result (λ text. text ≡ refusal_text refusal.now) }
{
    let mut text = Text::new(alloc);
    match refusal {
        EditRefusal::Unknown(name) => {
            text.push_str("E2 unknown ")?;
            text.push_name(name)?;
        }
        EditRefusal::Duplicate(name) => {
            text.push_str("E3 duplicate ")?;
            text.push_name(name)?;
        }
        EditRefusal::Sort(part) => {
            text.push_str("E4 sort ")?;
            text.push_number(*part as u64)?;
        }
        EditRefusal::NoNode(place) => {
            text.push_str("E5 no node ")?;
            push_place(&mut text, place)?;
        }
        EditRefusal::NoObligation(number) => {
            text.push_str("E6 no obligation ")?;
            text.push_number(*number as u64)?;
        }
        EditRefusal::Limit(which, most) => push_limit(&mut text, *which, *most)?,
        EditRefusal::Full(weight) => {
            text.push_str("E8 full weight ")?;
            text.push_number(*weight)?;
        }
        EditRefusal::Order(name) => {
            text.push_str("E9 order ")?;
            text.push_name(name)?;
        }
        EditRefusal::InUse(name, spot) => {
            text.push_str("E10 in use ")?;
            text.push_name(name)?;
            text.push_str(" ")?;
            push_spot(&mut text, spot)?;
        }
        EditRefusal::Memory => {}
    }
    Ok(text)
}

fn push_spot(text: &mut Text, spot: &Spot) -> Result<(), AllocError>
    ensures { OnOk result (text.new ≡ text.old ++ spot_text spot.now) }
{
    match spot {
        Spot::Define(name) | Spot::Lemma(name) => text.push_name(name),
        Spot::At(place) => push_place(text, place),
    }
}

fn push_limit(text: &mut Text, which: Which, most: u32) -> Result<(), AllocError>
    ensures { OnOk result (text.new ≡ text.old ++ refusal_text (EditRefusal.Limit which most)) }
{
    text.push_str("E7 limit ")?;
    push_which(text, which)?;
    text.push_str(" ")?;
    text.push_number(most as u64)
}

fn push_which(text: &mut Text, which: Which) -> Result<(), AllocError>
    ensures { OnOk result (text.new ≡ text.old ++ which_text which) }
{
    match which {
        Which::Weight => text.push_str("weight"),
        Which::Depth => text.push_str("depth"),
        Which::Globals => text.push_str("globals"),
        Which::Params => text.push_str("params"),
        Which::Table => text.push_str("table"),
        Which::Operations => text.push_str("operations"),
        Which::Guards => text.push_str("guards"),
        Which::Nodes => text.push_str("nodes"),
        Which::Path => text.push_str("path"),
        Which::Lines => text.push_str("lines"),
        Which::Edits => text.push_str("edits"),
        Which::Bytes => text.push_str("bytes"),
        Which::Authors => text.push_str("authors"),
        Which::Steps => text.push_str("steps"),
    }
}

/// What is answered where no node is at the place.
pub fn no_node_text(alloc: Global, place: &Place) -> Result<Text, AllocError>
    ensures { IfOk result (λ text. text ≡ refusal_text (EditRefusal.NoNode place.now)) }
{
    let mut text = Text::new(alloc);
    text.push_str("E5 no node ")?;
    push_place(&mut text, place)?;
    Ok(text)
}

/// What is answered where no obligation has the number.
pub fn no_obligation_text(alloc: Global, number: u32) -> Result<Text, AllocError>
    ensures { IfOk result (λ text. text ≡ refusal_text (EditRefusal.NoObligation number)) }
{
    let mut text = Text::new(alloc);
    text.push_str("E6 no obligation ")?;
    text.push_number(number as u64)?;
    Ok(text)
}

/// What is answered where no lemma has the name.
pub fn unknown_text(alloc: Global, name: &Name) -> Result<Text, AllocError>
    ensures { IfOk result (λ text. text ≡ refusal_text (EditRefusal.Unknown name.now)) }
{
    let mut text = Text::new(alloc);
    text.push_str("E2 unknown ")?;
    text.push_name(name)?;
    Ok(text)
}

/// `ok closed` where each node is good and each lemma that is used, and else the first that is not.
pub fn closing_text(
    alloc: Global,
    marks: &[NodeMark],
    used: &[LemmaMark],
) -> Result<Text, AllocError>
    ensures { IfOk result (λ text. text ≡ closing_text marks.now used.now) }
{
    for mark in marks {
        if !is_good(mark.status) {
            return not_closed_text(alloc, mark);
        }
    }
    lemmas_text(alloc, used)
}

fn lemmas_text(alloc: Global, used: &[LemmaMark]) -> Result<Text, AllocError>
    ensures { IfOk result (λ text. text ≡ lemmas_text used.now) }
{
    for mark in used {
        if !is_good_state(mark.state) {
            return lemma_open_text(alloc, mark);
        }
    }
    closed_text(alloc)
}

fn is_good_state(state: NeedState) -> bool
    ensures { result ≡ is_good_state state }
{
    matches!(state, NeedState::Good)
}

fn lemma_open_text(alloc: Global, mark: &LemmaMark) -> Result<Text, AllocError>
    ensures { IfOk result (λ text. text ≡ lemma_open_text mark.now) }
{
    let mut text = Text::new(alloc);
    text.push_str("ok not closed ")?;
    push_lemma(&mut text, mark)?;
    Ok(text)
}

/// Writes a lemma's name and status behind a text.
pub fn push_lemma(text: &mut Text, mark: &LemmaMark) -> Result<(), AllocError>
    ensures { OnOk result (text.new ≡ text.old ++ lemma_text mark.now) }
{
    text.push_str("lemma ")?;
    text.push_name(&mark.name)?;
    text.push_str(" ")?;
    push_lemma_state(text, mark.state)
}

fn push_lemma_state(text: &mut Text, state: NeedState) -> Result<(), AllocError>
    ensures { OnOk result (text.new ≡ text.old ++ lemma_state_text state) }
{
    match state {
        NeedState::Good => text.push_str("good"),
        state => {
            text.push_str("pending ")?;
            push_state(text, state)
        }
    }
}

fn closed_text(alloc: Global) -> Result<Text, AllocError>
    ensures { IfOk result (λ text. text ≡ closed_text) }
{
    let mut text = Text::new(alloc);
    text.push_str("ok closed")?;
    Ok(text)
}

fn is_good(status: Status) -> bool
    ensures { result ≡ is_good status }
{
    matches!(status, Status::Good)
}

fn not_closed_text(alloc: Global, mark: &NodeMark) -> Result<Text, AllocError>
    ensures { IfOk result (λ text. text ≡ not_closed_text mark.now) }
{
    let mut text = Text::new(alloc);
    text.push_str("ok not closed ")?;
    push_place(&mut text, &mark.place)?;
    text.push_str(" ")?;
    push_status(&mut text, mark.status)?;
    Ok(text)
}

/// Writes a place behind a text.
pub fn push_place(text: &mut Text, place: &Place) -> Result<(), AllocError>
    ensures { OnOk result (text.new ≡ text.old ++ place_text place.now) }
{
    match place.tree {
        TreeName::Main => text.push_str("main")?,
    }
    push_kids(text, place.path.kids.as_slice())
}

fn push_kids(text: &mut Text, kids: &[u32]) -> Result<(), AllocError>
    ensures { OnOk result (text.new ≡ text.old ++ kids_text kids.now) }
{
    for kid in kids {
        push_kid(text, *kid)?;
    }
    Ok(())
}

fn push_kid(text: &mut Text, kid: u32) -> Result<(), AllocError>
    ensures { OnOk result (text.new ≡ text.old ++ kids_text (kid ∷ [])) }
{
    text.push_str("/")?;
    text.push_number(kid as u64)
}

/// Writes a status behind a text.
pub fn push_status(text: &mut Text, status: Status) -> Result<(), AllocError>
    ensures { OnOk result (text.new ≡ text.old ++ status_text status) }
{
    match status {
        Status::NoSpec => text.push_str("nospec"),
        Status::Open => text.push_str("open"),
        Status::Misfit(misfit) => {
            text.push_str("misfit ")?;
            text.push_number(misfit_number(misfit))
        }
        Status::Pending(number, state) => {
            text.push_str("pending ")?;
            text.push_number(number as u64)?;
            text.push_str(" ")?;
            push_state(text, state)
        }
        Status::Good => text.push_str("good"),
    }
}

fn misfit_number(misfit: Misfit) -> u64
    ensures { result ≡ misfit_number misfit }
{
    match misfit {
        Misfit::Shape => 1,
        Misfit::InitialNotAllowed => 2,
        Misfit::NotFresh => 3,
        Misfit::NotCode => 4,
        Misfit::NotInFrame => 5,
        Misfit::Sort => 6,
        Misfit::Unknown => 7,
        Misfit::TooLarge => 8,
        Misfit::Order => 9,
        Misfit::Alias => 10,
    }
}

/// Writes an obligation's state behind a text.
pub fn push_state(text: &mut Text, state: NeedState) -> Result<(), AllocError>
    ensures { OnOk result (text.new ≡ text.old ++ state_text state) }
{
    match state {
        NeedState::Good => text.push_str("good"),
        NeedState::Missing => text.push_str("none"),
        NeedState::Bad(line, sub, cause) => {
            text.push_str("bad ")?;
            push_point(text, line, sub)?;
            text.push_str(" ")?;
            text.push_number(cause as u64)
        }
    }
}

// A line of a certificate, and an arithmetic line in it, if there is one.
fn push_point(text: &mut Text, line: u32, sub: u32) -> Result<(), AllocError>
    ensures { OnOk result (text.new ≡ text.old ++ point_text line sub) }
{
    text.push_number(line as u64)?;
    if sub == 0 {
        return Ok(());
    }
    text.push_str(".")?;
    text.push_number(sub as u64)
}
