//! A table of a definition and two lemmas, of which one cites the other.

ghost use Rattle.std.specs.Prelude.{◌≡◌, ◌<◌};

use rw_goals::library::{Definition, Item, Lemma};
use rw_items::{Boxed, Items};
use rw_lemmas::status::LemmaStatus;
use rw_lemmas::table::Lemmas;
use rw_library::entries::has_entry;
use rw_sequents::line::{Cert, CertLine};
use rw_steps::Steps;
use rw_terms::name::Name;
use rw_terms::sequent::Sequent;
use rw_terms::term::{Formula, Sort, Term};
use std::alloc::Global;
use std::marker::Brand;
use std::process::Abort;
use std::sync::ledger::{Blank, Ledger};
use std::test::Fail;

fn x_alone(alloc: Global) -> Result<Items<Term>, Fail> {
    let mut terms = Items::new(alloc);
    terms.push(Term::Var(Name::read(b"x")?))?;
    Ok(terms)
}

fn params(alloc: Global) -> Result<Items<(Name, Sort)>, Fail> {
    let mut params = Items::new(alloc);
    params.push((Name::read(b"x")?, Sort::Int))?;
    Ok(params)
}

// `Always(x)` is `true`.
fn always(alloc: Global) -> Result<Item, Fail> {
    Ok(Item::Definition(Definition {
        name: Name::read(b"Always")?,
        params: params(alloc)?,
        body: Formula::True,
    }))
}

// It is to be shown of x.
fn lemma(alloc: Global, name: &[u8]) -> Result<Item, Fail> {
    let mut right = Items::new(alloc);
    right.push(Formula::App(Name::read(b"Always")?, x_alone(alloc)?))?;
    Ok(Item::Lemma(Lemma {
        name: Name::read(name)?,
        params: params(alloc)?,
        sequent: Sequent {
            names: params(alloc)?,
            left: Items::new(alloc),
            right,
        },
    }))
}

fn line(alloc: Global, word: &str) -> Result<CertLine, Fail> {
    match word {
        "unfoldR" => Ok(CertLine::UnfoldR(1)),
        "impL" => Ok(CertLine::ImpL(1)),
        "trueR" => Ok(CertLine::TrueR),
        "lemma" => Ok(CertLine::Lemma(Name::read(b"Shown")?, x_alone(alloc)?)),
        _ => Ok(CertLine::Ax),
    }
}

fn cert(alloc: Global, words: &[&str]) -> Result<Cert, Fail> {
    let mut lines = Items::new(alloc);
    for word in words {
        lines.push(line(alloc, word)?)?;
    }
    Ok(Cert { lines })
}

fn put<L: Ledger>(
    alloc: Global,
    table: &mut Lemmas,
    entry: &Item,
    cert: &Cert,
    steps: &mut Steps<L>,
) -> Result<bool, Fail> {
    if !cert.has_at_most(100) {
        return Ok(false);
    }
    if table.library().entries.len() > 100 {
        return Ok(false);
    }
    let entry = Boxed::new(alloc, entry.copy(alloc)?)?;
    let cert = cert.copy(alloc)?;
    Ok(table.set(entry.into_inner(), Some(cert), steps).is_ok())
}

fn moved<L: Ledger>(table: &mut Lemmas, name: &Name, to: u32, steps: &mut Steps<L>) -> bool {
    let entries = table.library().entries.as_slice();
    if !has_entry(name, entries) || to as usize >= entries.len() {
        return false;
    }
    table.move_to(name, to, steps).is_ok()
}

fn removed(table: &mut Lemmas, name: &Name) -> bool {
    if !has_entry(name, table.library().entries.as_slice()) {
        return false;
    }
    table.remove(name).is_ok()
}

// Whether the lemma has a certificate that cites one lemma.
fn cites_one(table: &Lemmas, name: &Name) -> bool {
    match table.proof(name) {
        Some(cert) => match table.cites(cert) {
            Ok(names) => names.len() == 1,
            Err(_) => false,
        },
        None => false,
    }
}

// Whether the certificate is there in a copy of the table too.
fn is_copied(table: &Lemmas, name: &Name) -> bool {
    match table.copy() {
        Ok(copy) => cites_one(&copy, name),
        Err(_) => false,
    }
}

// `Always`, `Shown` by its definition, and `Again` by `Shown`.
fn filled<L: Ledger>(alloc: Global, steps: &mut Steps<L>) -> Result<Lemmas, Fail> {
    let mut table = Lemmas::new(alloc);
    let shown = cert(alloc, &["unfoldR", "trueR"])?;
    let again = cert(alloc, &["lemma", "impL", "trueR", "ax"])?;
    put(alloc, &mut table, &always(alloc)?, &shown, steps)?;
    put(alloc, &mut table, &lemma(alloc, b"Shown")?, &shown, steps)?;
    put(alloc, &mut table, &lemma(alloc, b"Again")?, &again, steps)?;
    Ok(table)
}

// What comes of changes of the filled table, and the statuses of the two lemmas after each.
fn played<L: Ledger>(
    alloc: Global,
    blank: Blank,
    done: &mut Items<bool>,
    statuses: &mut Items<Option<LemmaStatus>>,
) -> Result<(), Fail>
    requires name { blank.name ≡ L.name }
    requires parts { blank.parts ≡ L.parts }
    requires some { 0 < L.parts }
{
    let mut steps = Steps::<L>::new(blank);
    let shown = Name::read(b"Shown")?;
    let again = Name::read(b"Again")?;
    let mut table = filled(alloc, &mut steps)?;
    done.push(cites_one(&table, &shown))?;
    done.push(is_copied(&table, &again))?;
    done.push(removed(&mut table, &shown))?;
    statuses.push(table.status(&shown))?;
    statuses.push(table.status(&again))?;
    done.push(moved(&mut table, &again, 1, &mut steps))?;
    statuses.push(table.status(&again))?;
    done.push(removed(&mut table, &again))?;
    done.push(removed(&mut table, &shown))?;
    statuses.push(table.status(&shown))?;
    Ok(())
}

#[test]
fn lemmas_have_statuses(rt: HostRuntime) -> Result<(), Fail> {
    let alloc = rt.alloc();
    let mut done = Items::new(alloc);
    let mut statuses = Items::new(alloc);
    played::<Brand>(alloc, Blank::new(1), &mut done, &mut statuses)?;
    assert_eq!(rt;
        done.as_slice(),
        [false, true, false, true, true, true].as_slice()
    );
    let good = Some(LemmaStatus::Good);
    let bad = Some(LemmaStatus::Bad(1, 0, 8));
    assert_eq!(rt; statuses.as_slice(), [good, good, bad, None].as_slice());
    Ok(())
}
