//! What is printed, by tables, and that it reads back.

use rw_items::{Boxed, Items};
use rw_printer::{print_cert, print_formula, print_sequent, print_spec, print_term};
use rw_programs::prog::Spec;
use rw_reader::{read_cert, read_formula, read_term};
use rw_terms::name::Name;
use rw_terms::sameness::{same, same_term};
use rw_terms::sequent::Sequent;
use rw_terms::term::{Formula, Term};
use std::alloc::Global;
use std::process::Abort;
use std::test::Fail;

fn term(rt: &impl Abort, alloc: Global, text: &[u8]) -> Result<Boxed<Term>, Fail> {
    assert!(rt; text.len() <= 65536);
    let term = read_term(alloc, text)?;
    Ok(Boxed::new(alloc, term)?)
}

fn formula(rt: &impl Abort, alloc: Global, text: &[u8]) -> Result<Boxed<Formula>, Fail> {
    assert!(rt; text.len() <= 65536);
    let formula = read_formula(alloc, text)?;
    Ok(Boxed::new(alloc, formula)?)
}

// Each is printed as the text behind it, which reads back as it.
fn terms(rt: &impl Abort, alloc: Global, cases: &[(&[u8], &[u8])]) -> Result<(), Fail> {
    for (read, printed) in cases {
        let one = term(rt, alloc, read)?;
        let text = print_term(alloc, one.get())?;
        assert_eq!(rt; text.bytes(), *printed);
        let again = term(rt, alloc, text.bytes())?;
        assert!(rt; same_term(one.get(), again.get()));
    }
    Ok(())
}

fn formulas(rt: &impl Abort, alloc: Global, cases: &[(&[u8], &[u8])]) -> Result<(), Fail> {
    for (read, printed) in cases {
        let one = formula(rt, alloc, read)?;
        let text = print_formula(alloc, one.get())?;
        assert_eq!(rt; text.bytes(), *printed);
        let again = formula(rt, alloc, text.bytes())?;
        assert!(rt; same(one.get(), again.get()));
    }
    Ok(())
}

// The others stand in scripts, where a goal shows them.
#[test]
fn terms_that_no_goal_shows_are_printed(rt: HostRuntime) -> Result<(), Fail> {
    terms(
        &rt,
        rt.alloc(),
        &[
            (b"a [ i ] [ j+1 ]", b"a[i][j + 1]"),
            (b"(-a)[i]", b"(-a)[i]"),
            (b"f(x,(y+1))", b"f(x, y + 1)"),
        ],
    )
}

// So many fronts, and a middle.
fn nested(alloc: Global, times: usize, front: &[u8], middle: &[u8]) -> Result<Vec<u8>, Fail> {
    let mut text = Vec::new(alloc);
    for _ in 0..times {
        text.extend_from_slice(front)?;
    }
    text.extend_from_slice(middle)?;
    Ok(text)
}

#[test]
fn what_is_deepest_is_printed(rt: HostRuntime) -> Result<(), Fail> {
    let minus = nested(rt.alloc(), 512, b"-", b"x")?;
    terms(&rt, rt.alloc(), &[(&minus, &minus)])?;
    let sum = nested(rt.alloc(), 512, b"x + ", b"x")?;
    terms(&rt, rt.alloc(), &[(&sum, &sum)])?;
    let nots = nested(rt.alloc(), 512, b"not ", b"true")?;
    formulas(&rt, rt.alloc(), &[(&nots, &nots)])
}

fn name(text: &[u8]) -> Result<Name, Fail> {
    Ok(Name::read(text)?)
}

#[test]
fn specifications_are_printed(rt: HostRuntime) -> Result<(), Fail> {
    let alloc = rt.alloc();
    let mut frame = Items::new(alloc);
    frame.push(name(b"x")?)?;
    frame.push(name(b"y")?)?;
    is_spec(
        &rt,
        alloc,
        frame,
        [b"true", b"x = y0 and y = x0"],
        b"x,y:[true, x = y0 and y = x0]",
    )?;
    is_spec(
        &rt,
        alloc,
        Items::new(alloc),
        [b"x = 1", b"true"],
        b":[x = 1, true]",
    )
}

fn is_spec(
    rt: &impl Abort,
    alloc: Global,
    frame: Items<Name>,
    formulas: [&[u8]; 2],
    printed: &[u8],
) -> Result<(), Fail> {
    let pre = formula(rt, alloc, formulas[0])?;
    let post = formula(rt, alloc, formulas[1])?;
    let spec = Spec {
        frame,
        pre: pre.into_inner(),
        post: post.into_inner(),
    };
    let spec = Boxed::new(alloc, spec)?;
    let text = print_spec(alloc, spec.get())?;
    assert_eq!(rt; text.bytes(), printed);
    Ok(())
}

#[test]
fn sequents_are_printed(rt: HostRuntime) -> Result<(), Fail> {
    let cases: [(&[&[u8]], &[&[u8]], &[u8]); 5] = [
        (
            &[b"true"],
            &[b"y = y and x = x"],
            b"true |- y = y and x = x",
        ),
        (
            &[b"0 <= x", b"x < 1"],
            &[b"x = 0", b"false"],
            b"0 <= x, x < 1 |- x = 0, false",
        ),
        (&[], &[b"true"], b"|- true"),
        (&[b"false"], &[], b"false |-"),
        (&[], &[], b"|-"),
    ];
    for (left, right, printed) in cases {
        is_sequent(&rt, rt.alloc(), left, right, printed)?;
    }
    Ok(())
}

fn is_sequent(
    rt: &impl Abort,
    alloc: Global,
    left: &[&[u8]],
    right: &[&[u8]],
    printed: &[u8],
) -> Result<(), Fail> {
    let sequent = Sequent {
        names: Items::new(alloc),
        left: side(rt, alloc, left)?,
        right: side(rt, alloc, right)?,
    };
    let text = print_sequent(alloc, &sequent)?;
    assert_eq!(rt; text.bytes(), printed);
    Ok(())
}

fn side(rt: &impl Abort, alloc: Global, texts: &[&[u8]]) -> Result<Items<Formula>, Fail> {
    let mut side = Items::new(alloc);
    for text in texts {
        let one = formula(rt, alloc, text)?;
        side.push(one.into_inner())?;
    }
    Ok(side)
}

#[test]
fn certificates_are_printed(rt: HostRuntime) -> Result<(), Fail> {
    let cases: [(&[u8], &[u8]); 8] = [
        (b"ax;falseL ;trueR; refl", b"ax ; falseL ; trueR ; refl"),
        (
            b"cut  x=1;dropL 1;andR 4294967295",
            b"cut x = 1 ; dropL 1 ; andR 4294967295",
        ),
        (
            b"allL 1 x+1;exR 2 a[0];allR 1 y;exL 2 y",
            b"allL 1 x + 1 ; exR 2 a[0] ; allR 1 y ; exL 2 y",
        ),
        (
            b"rwL 1 2;rwR 1 2;eqR 1;flip 2",
            b"rwL 1 2 ; rwR 1 2 ; eqR 1 ; flip 2",
        ),
        (
            b"putSame a,i,e;putOther a,i,e,(j)",
            b"putSame a, i, e ; putOther a, i, e, j",
        ),
        (b"arrExt a,b;divMod x,-y", b"arrExt a, b ; divMod x, -y"),
        (
            b"lin[1*L1+-2*R1+3*1][3/2];ax",
            b"lin [1*L1 + -2*R1 + 3*1] [3/2] ; ax",
        ),
        (
            b"unfoldL 1;unfoldR 2;lemma N();lemma n(x,y)",
            b"unfoldL 1 ; unfoldR 2 ; lemma N() ; lemma n(x, y)",
        ),
    ];
    for (read, printed) in cases {
        assert!(rt; read.len() <= 65536);
        let cert = read_cert(rt.alloc(), read)?;
        let text = print_cert(rt.alloc(), &cert)?;
        assert_eq!(rt; text.bytes(), printed);
    }
    Ok(())
}
