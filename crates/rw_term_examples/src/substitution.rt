//! Replacement, opening, closing and definedness at work.

use crate::texts::{formula, globals, names, spells, term};
use rw_items::{Boxed, Items};
use rw_subst::defined::{defined, defined_guard};
use rw_subst::error::SubstError;
use rw_subst::laws::{closing, definedness, kinds, opening, replacement};
use rw_subst::replace::{close, from_initial, open, replace, replace_term, to_initial};
use rw_subst::slot::{Change, Slot};
use rw_terms::name::Name;
use rw_terms::scope::Scope;
use rw_terms::term::{Formula, Term};
use std::alloc::Global;
use std::process::Abort;
use std::test::Fail;

// A name as a variable, as an initial variable with a `0` behind it, or as a constant with a capital.
fn slot(text: &str) -> Result<Slot, Fail> {
    if let Some(x) = text.strip_suffix("0") {
        return Ok(Slot::Init(Name::read(x.as_bytes())?));
    }
    let name = Name::read(text.as_bytes())?;
    if text == "K" {
        Ok(Slot::Const(name))
    } else {
        Ok(Slot::Var(name))
    }
}

fn changes(rt: &impl Abort, alloc: Global, pairs: &[(&str, &str)]) -> Result<Items<Change>, Fail> {
    let mut changes = Items::new(alloc);
    for (old, new) in pairs {
        let slot = slot(old)?;
        let term = term(rt, alloc, new)?.into_inner();
        changes.push(Change { slot, term })?;
    }
    Ok(changes)
}

fn replaced(
    rt: &impl Abort,
    alloc: Global,
    old: &str,
    pairs: &[(&str, &str)],
    want: &str,
) -> Result<bool, Fail> {
    let old = formula(rt, alloc, old)?;
    let changes = changes(rt, alloc, pairs)?;
    let new = replace(alloc, old.get(), changes.as_slice());
    is_it(rt, alloc, new, want)
}

fn is_it(
    rt: &impl Abort,
    alloc: Global,
    found: Result<Formula, SubstError>,
    want: &str,
) -> Result<bool, Fail> {
    match found {
        Ok(found) => spells(rt, alloc, want, &found),
        Err(error) => Err(error.into()),
    }
}

#[test]
fn slots_change_at_once_and_nothing_is_captured(rt: HostRuntime) -> Result<(), Fail> {
    let cases: [(&str, &[(&str, &str)], &str); 6] = [
        ("x = x0 + 1", &[("x", "x + 1")], "x + 1 = x0 + 1"),
        ("x = x0 + 1", &[("x0", "x + 1")], "x = x + 1 + 1"),
        (
            "forall _1:int . 0 <= _1 => not x = _1 - 1",
            &[("x", "i")],
            "forall _1:int . 0 <= _1 => not i = _1 - 1",
        ),
        ("x < y", &[("x", "y"), ("y", "x")], "y < x"),
        (
            "x < K or y < K",
            &[("K", "2"), ("y", "K")],
            "x < 2 or K < 2",
        ),
        ("x < y0", &[("y", "1"), ("x0", "2")], "x < y0"),
    ];
    for (old, pairs, want) in cases {
        assert!(rt; replaced(&rt, rt.alloc(), old, pairs, want)?, "at {old}");
    }
    replacement();
    kinds();
    Ok(())
}

fn made_initial(rt: &impl Abort, alloc: Global, old: &str, want: &str) -> Result<bool, Fail> {
    let old = formula(rt, alloc, old)?;
    let frame = names(alloc, &["x", "y"])?;
    is_it(
        rt,
        alloc,
        to_initial(alloc, old.get(), frame.as_slice()),
        want,
    )
}

fn made_current(rt: &impl Abort, alloc: Global, old: &str, want: &str) -> Result<bool, Fail> {
    let old = formula(rt, alloc, old)?;
    let frame = names(alloc, &["x", "y"])?;
    is_it(
        rt,
        alloc,
        from_initial(alloc, old.get(), frame.as_slice()),
        want,
    )
}

#[test]
fn variables_of_the_frame_become_initial_and_back(rt: HostRuntime) -> Result<(), Fail> {
    let alloc = rt.alloc();
    assert!(rt; made_initial(&rt, alloc, "x < z and y0 = 1", "x0 < z and y0 = 1")?);
    assert!(rt; made_current(&rt, alloc, "x0 < z0 and y0 = 1", "x < z0 and y = 1")?);
    Ok(())
}

// The body of a quantifier, opened by a term.
fn opened(
    rt: &impl Abort,
    alloc: Global,
    quantified: &str,
    put: &str,
    want: &str,
) -> Result<bool, Fail> {
    let quantified = formula(rt, alloc, quantified)?;
    let put = term(rt, alloc, put)?;
    match quantified.get() {
        Formula::All(_, body) => is_it(rt, alloc, open(alloc, body.get(), put.get()), want),
        _ => Ok(false),
    }
}

// What is closed, opened again by the same name.
fn closed(rt: &impl Abort, alloc: Global, old: &str, taken: &str) -> Result<bool, Fail> {
    let read = formula(rt, alloc, old)?;
    let put = term(rt, alloc, taken)?;
    match close(alloc, read.get(), &slot(taken)?) {
        Ok(body) => is_it(rt, alloc, open(alloc, &body, put.get()), old),
        Err(error) => Err(error.into()),
    }
}

#[test]
fn bodies_are_opened_and_closed_under_quantifiers(rt: HostRuntime) -> Result<(), Fail> {
    let alloc = rt.alloc();
    let quantified = "forall i:int . i < x and (exists j:int . i + j = y0)";
    let want = "y + 1 < x and (exists j:int . y + 1 + j = y0)";
    assert!(rt; opened(&rt, alloc, quantified, "y + 1", want)?);
    assert!(rt; closed(&rt, alloc, want, "y")?);
    opening();
    closing();
    Ok(())
}

fn asked(
    rt: &impl Abort,
    alloc: Global,
    scope: &Scope,
    old: &str,
    want: &str,
) -> Result<bool, Fail> {
    let old = term(rt, alloc, old)?;
    is_it(rt, alloc, defined(alloc, scope, old.get()), want)
}

#[test]
fn conditions_stand_in_order_of_text(rt: HostRuntime) -> Result<(), Fail> {
    let alloc = rt.alloc();
    let scope = globals(alloc)?;
    let cases = [
        ("x + 1", "true"),
        ("1 div x", "not x = 0"),
        ("x mod (1 div x)", "not x = 0 and not 1 div x = 0"),
        ("b[x]", "0 <= x and x < 4"),
        (
            "put(a, x, 1)[x0]",
            "0 <= x and x < 3 and 0 <= x0 and x0 < 3",
        ),
        ("a[b[x]]", "0 <= x and x < 4 and 0 <= b[x] and b[x] < 3"),
    ];
    for (old, want) in cases {
        assert!(rt; asked(&rt, alloc, &scope, old, want)?, "at {old}");
    }
    definedness();
    Ok(())
}

fn asked_of_guard(
    rt: &impl Abort,
    alloc: Global,
    scope: &Scope,
    old: &str,
    want: &str,
) -> Result<bool, Fail> {
    let old = formula(rt, alloc, old)?;
    is_it(rt, alloc, defined_guard(alloc, scope, old.get()), want)
}

#[test]
fn conditions_of_a_guard_are_those_of_all_its_terms(rt: HostRuntime) -> Result<(), Fail> {
    let alloc = rt.alloc();
    let scope = globals(alloc)?;
    let cases = [
        ("true or not x < 1", "true"),
        ("x < 1 or 1 div x = x", "not x = 0"),
        (
            "1 div x < 1 => a[0] = 2 mod x",
            "not x = 0 and 0 <= 0 and 0 < 3 and not x = 0",
        ),
    ];
    for (old, want) in cases {
        assert!(rt; asked_of_guard(&rt, alloc, &scope, old, want)?, "at {old}");
    }
    Ok(())
}

// The weight that is refused where the term takes the place of `x`, or 0.
fn refused(alloc: Global, old: &Term, put: Term) -> Result<u32, Fail> {
    let changes = [Change {
        slot: slot("x")?,
        term: put,
    }];
    match replace_term(alloc, old, &changes) {
        Ok(_) => Ok(0),
        Err(SubstError::TooLarge(weight)) => Ok(weight),
        Err(error) => Err(error.into()),
    }
}

// A sum of the text with itself, so often made again with itself, and then so often negated.
fn grown(
    rt: &impl Abort,
    alloc: Global,
    text: &str,
    doubled: u32,
    negated: u32,
) -> Result<Boxed<Term>, Fail> {
    let mut grown = term(rt, alloc, text)?;
    for _ in 0..doubled {
        let again = Boxed::new(alloc, grown.get().copy(alloc)?)?;
        grown = Boxed::new(alloc, Term::Add(grown, again))?;
    }
    for _ in 0..negated {
        grown = Boxed::new(alloc, Term::Neg(grown))?;
    }
    Ok(grown)
}

// At the limits: the sizes of the old term and of what is put for `x`, and the weight that is refused.
#[test]
fn results_past_a_limit_are_refused_with_their_weight(rt: HostRuntime) -> Result<(), Fail> {
    let alloc = rt.alloc();
    for (old, put, refusal) in [
        ((1, 0), (8, 0), 0),
        ((1, 0), (8, 1), 1025),
        ((0, 62), (0, 1), 0),
        ((0, 63), (0, 1), 65),
        ((15, 0), (15, 0), 2147483647),
        ((15, 0), (18, 0), u32::MAX),
    ] {
        let old = grown(&rt, alloc, "x", old.0, old.1)?;
        let put = grown(&rt, alloc, "1", put.0, put.1)?;
        assert_eq!(rt; refused(alloc, old.get(), put.into_inner())?, refusal);
    }
    Ok(())
}
