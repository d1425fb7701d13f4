//! Recursion at the depth that the reader can make, where no script reaches it: a line is refused before these calls see its formulas.

use crate::texts::{globals, names};
use rw_faults::faults::is_ill_sorted;
use rw_faults::initial::initial_outside;
use rw_faults::unknown::unknown_in;
use rw_items::Boxed;
use rw_reader::read_formula;
use rw_subst::error::SubstError;
use rw_subst::replace::{close, from_initial, open, replace, to_initial};
use rw_subst::slot::{Change, Slot};
use rw_terms::name::Name;
use rw_terms::term::{Formula, Term};
use std::alloc::Global;
use std::process::Abort;
use std::test::Fail;

// So many fronts, and a formula.
fn nested(
    rt: &impl Abort,
    alloc: Global,
    times: u32,
    front: &str,
    formula: &str,
) -> Result<Boxed<Formula>, Fail> {
    let mut text = String::new(alloc);
    for _ in 0..times {
        text.push_str(front)?;
    }
    text.push_str(formula)?;
    let text = text.as_bytes();
    assert!(rt; text.len() <= 65536);
    Ok(Boxed::new(alloc, read_formula(alloc, text)?)?)
}

#[test]
fn faults_of_the_deepest_formulas(rt: HostRuntime) -> Result<(), Fail> {
    let alloc = rt.alloc();
    let scope = globals(alloc)?;
    let frame = names(alloc, &["x"])?;
    for (front, formula, ill) in [
        ("not ", "x0 = x", false),
        ("true => ", "x0 = a", true),
        ("forall i:int . ", "x0 < x", false),
    ] {
        let read = nested(&rt, alloc, 512, front, formula)?;
        assert!(rt; unknown_in(&scope, &[], read.get()).is_none());
        assert_eq!(rt; is_ill_sorted(alloc, &scope, &[], &[], read.get())?, ill);
        assert!(rt; initial_outside(&[], read.get()));
        assert!(rt; !initial_outside(frame.as_slice(), read.get()));
    }
    Ok(())
}

// Whether it is refused because a limit is passed.
fn is_too_large(found: Result<Formula, SubstError>) -> bool {
    matches!(found, Err(SubstError::TooLarge(_)))
}

#[test]
fn nothing_is_replaced_in_the_deepest_formulas(rt: HostRuntime) -> Result<(), Fail> {
    let alloc = rt.alloc();
    let frame = names(alloc, &["x"])?;
    let x = Slot::Var(Name::read(b"x")?);
    let put = Term::Lit(1);
    let changes = [Change {
        slot: Slot::Var(Name::read(b"x")?),
        term: Term::Lit(1),
    }];
    for front in ["not ", "true => ", "forall i:int . "] {
        let read = nested(&rt, alloc, 512, front, "x0 = x")?;
        assert!(rt; is_too_large(replace(alloc, read.get(), &changes)));
        assert!(rt; is_too_large(to_initial(alloc, read.get(), frame.as_slice())));
        assert!(rt; is_too_large(from_initial(alloc, read.get(), frame.as_slice())));
        assert!(rt; is_too_large(open(alloc, read.get(), &put)));
        assert!(rt; is_too_large(close(alloc, read.get(), &x)));
    }
    Ok(())
}
