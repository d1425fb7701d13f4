//! Copies on their happy path; those of programs, terms and tables stand with the other tests of these.

use rw_anew::status::{LemmaMark, Need, NeedState, NodeMark, Status, Statuses};
use rw_arith::line::LinLine;
use rw_arith::poly::Summand;
use rw_goals::library::{Definition, Item, Library};
use rw_items::Items;
use rw_laws::step::BasicStep;
use rw_nodes::edit::{Edit, Path, Place, Step, TreeName, counts, place_at};
use rw_nodes::node::Node;
use rw_nodes::parts::Parts;
use rw_programs::applied::{Applied, Child, Context};
use rw_programs::prog::{Code, ModCode, Param, ProcCode, Prog, Spec};
use rw_refusals::refusal::Spot;
use rw_sequents::line::{Cert, CertLine};
use rw_terms::name::Name;
use rw_terms::scope::{Head, Scope, copy_heads};
use rw_terms::sequent::Sequent;
use rw_terms::term::{Formula, Sort};
use rw_terms::text::Text;
use std::alloc::Global;
use std::test::Fail;

fn name(word: &str) -> Result<Name, Fail> {
    Ok(Name::read(word.as_bytes())?)
}

fn params(alloc: Global, word: &str) -> Result<Items<Param>, Fail> {
    let mut params = Items::new(alloc);
    params.push(Param {
        name: name(word)?,
        sort: Sort::Int,
    })?;
    Ok(params)
}

// A body that does nothing.
fn procedure(alloc: Global) -> Result<ProcCode, Fail> {
    Ok(ProcCode {
        name: name("p")?,
        place: 1,
        values: params(alloc, "v")?,
        results: params(alloc, "r")?,
        body: Prog::Skip,
    })
}

fn module(alloc: Global) -> Result<ModCode, Fail> {
    let mut operations = Items::new(alloc);
    operations.push(procedure(alloc)?)?;
    Ok(ModCode {
        name: name("m")?,
        place: 2,
        state: params(alloc, "s")?,
        start: Prog::Skip,
        operations,
    })
}

fn code(alloc: Global) -> Result<Code, Fail> {
    let mut procs = Items::new(alloc);
    procs.push(procedure(alloc)?)?;
    let mut modules = Items::new(alloc);
    modules.push(module(alloc)?)?;
    Ok(Code {
        main: Prog::Skip,
        procs,
        modules,
    })
}

#[test]
fn code_is_copied(rt: HostRuntime) -> Result<(), Fail> {
    let alloc = rt.alloc();
    let again = code(alloc)?.copy(alloc)?;
    assert!(rt; matches!(again.main, Prog::Skip));
    assert_eq!(rt; again.procs.len(), 1);
    assert_eq!(rt; again.modules.len(), 1);
    Ok(())
}

// One kid with `:[true, true]`, and one obligation.
fn applied(alloc: Global) -> Result<Applied, Fail> {
    let mut children = Items::new(alloc);
    children.push(Child {
        context: Context {
            scope: Scope::new(alloc),
            opened: Items::new(alloc),
            order: u32::MAX,
            inner: false,
        },
        spec: Spec {
            frame: Items::new(alloc),
            pre: Formula::True,
            post: Formula::True,
        },
    })?;
    let mut obligations = Items::new(alloc);
    obligations.push(Sequent {
        names: Items::new(alloc),
        left: Items::new(alloc),
        right: Items::new(alloc),
    })?;
    Ok(Applied {
        skeleton: Prog::Kid(1),
        children,
        obligations,
    })
}

#[test]
fn what_a_law_makes_is_copied(rt: HostRuntime) -> Result<(), Fail> {
    let alloc = rt.alloc();
    let again = applied(alloc)?.copy(alloc)?;
    assert!(rt; matches!(again.skeleton, Prog::Kid(1)));
    assert_eq!(rt; again.children.len(), 1);
    assert_eq!(rt; again.obligations.len(), 1);
    Ok(())
}

#[test]
fn places_and_steps_are_copied(rt: HostRuntime) -> Result<(), Fail> {
    let alloc = rt.alloc();
    let place = Place {
        tree: TreeName::Main,
        path: Path {
            kids: Items::from_slice(alloc, &[1, 2])?,
        },
    };
    let again = place.copy(alloc)?;
    assert_eq!(rt; again.path.kids.as_slice(), [1, 2].as_slice());
    let again = Step::Basic(BasicStep::Skip).copy(alloc)?;
    assert_eq!(rt; counts(&again), (0, 1));
    Ok(())
}

// `lin [1/2] ; cut true`.
fn cert(alloc: Global) -> Result<Cert, Fail> {
    let mut parts = Items::new(alloc);
    parts.push(LinLine::Divide(1, 2).copy(alloc)?)?;
    let mut lines = Items::new(alloc);
    lines.push(CertLine::Lin(parts))?;
    lines.push(CertLine::Cut(Formula::True))?;
    Ok(Cert { lines })
}

#[test]
fn certificates_and_summands_are_copied(rt: HostRuntime) -> Result<(), Fail> {
    let alloc = rt.alloc();
    let again = cert(alloc)?.copy(alloc)?;
    assert_eq!(rt; again.lines.len(), 2);
    let summand = Summand {
        times: 3,
        atoms: Items::new(alloc),
    };
    assert_eq!(rt; summand.copy(alloc)?.times, 3);
    Ok(())
}

// `P` without parameters is `true`.
fn library(alloc: Global) -> Result<Library, Fail> {
    let mut entries = Items::new(alloc);
    entries.push(Item::Definition(Definition {
        name: name("P")?,
        params: Items::new(alloc),
        body: Formula::True,
    }))?;
    Ok(Library { entries })
}

#[test]
fn libraries_heads_and_texts_are_copied(rt: HostRuntime) -> Result<(), Fail> {
    let alloc = rt.alloc();
    assert_eq!(rt; library(alloc)?.copy(alloc)?.entries.len(), 1);
    let heads = [Head {
        name: name("P")?,
        sorts: Items::from_slice(alloc, &[Sort::Int])?,
    }];
    assert_eq!(rt; copy_heads(alloc, &heads)?.len(), 1);
    let mut text = Text::new(alloc);
    text.push_str("x")?;
    assert_eq!(rt; text.copy(alloc)?.bytes(), b"x".as_slice());
    Ok(())
}

#[test]
fn edits_and_users_are_copied(rt: HostRuntime) -> Result<(), Fail> {
    let alloc = rt.alloc();
    let edit = Edit::Prove(place_at(alloc, &[1])?, 2, cert(alloc)?);
    match edit.copy(alloc)? {
        Edit::Prove(place, number, cert) => {
            assert_eq!(rt; place.path.kids.as_slice(), [1].as_slice());
            assert_eq!(rt; number, 2);
            assert_eq!(rt; cert.lines.len(), 2);
        }
        _ => return Err("another edit")?,
    }
    match Spot::At(place_at(alloc, &[2])?).copy(alloc)? {
        Spot::At(place) => assert_eq!(rt; place.path.kids.as_slice(), [2].as_slice()),
        _ => return Err("another user")?,
    }
    Ok(())
}

#[test]
fn nodes_and_projects_are_copied(rt: HostRuntime) -> Result<(), Fail> {
    let alloc = rt.alloc();
    let node = Node::fresh(alloc, Some(Step::Basic(BasicStep::Weaken(Formula::True))))?;
    let again = node.copy(alloc)?;
    assert!(rt; again.step.is_some());
    assert_eq!(rt; again.kids.len(), 1);
    assert_eq!(rt; again.certs.len(), 1);
    let mut parts = Parts::empty(alloc, 9);
    parts.globals = params(alloc, "x")?;
    let again = parts.copy(alloc)?;
    assert_eq!(rt; again.globals.len(), 1);
    assert_eq!(rt; again.most, 9);
    Ok(())
}

// A node with one good obligation and a lemma without a certificate.
fn statuses(alloc: Global) -> Result<Statuses, Fail> {
    let mut needs = Items::new(alloc);
    needs.push(Need {
        sequent: Sequent {
            names: Items::new(alloc),
            left: Items::new(alloc),
            right: Items::new(alloc),
        },
        state: NeedState::Good,
    })?;
    let mut nodes = Items::new(alloc);
    nodes.push(NodeMark {
        place: place_at(alloc, &[])?,
        status: Status::Good,
        spec: None,
        needs,
    })?;
    let mut lemmas = Items::new(alloc);
    lemmas.push(LemmaMark {
        name: name("l")?,
        state: NeedState::Missing,
    })?;
    Ok(Statuses { nodes, lemmas })
}

#[test]
fn statuses_are_copied(rt: HostRuntime) -> Result<(), Fail> {
    let alloc = rt.alloc();
    let again = statuses(alloc)?.copy(alloc)?;
    let node = again.nodes.as_slice().first().ok_or("no node")?;
    assert_eq!(rt; node.status, Status::Good);
    assert_eq!(rt; node.needs.len(), 1);
    let lemma = again.lemmas.as_slice().first().ok_or("no lemma")?;
    assert_eq!(rt; lemma.state, NeedState::Missing);
    Ok(())
}
