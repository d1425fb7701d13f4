//! Expansions and lines whose answers were worked out by hand.

ghost use Rattle.std.specs.Prelude.{◌≡◌, ◌<◌, length};

use rw_arith::check::check_lines;
use rw_arith::error::LinError;
use rw_arith::expand::{expand, is_polynomial};
use rw_arith::given::{given_by_left, given_by_right};
use rw_arith::line::{LinLine, Part, Ref};
use rw_arith::poly::{Expansion, Summand};
use rw_example_texts::{formula, term};
use rw_items::{Boxed, Items};
use rw_steps::Steps;
use rw_terms::name::Name;
use rw_terms::term::{Formula, Term};
use rw_terms::text::Text;
use std::alloc::Global;
use std::marker::Brand;
use std::process::Abort;
use std::sync::ledger::{Blank, Ledger};
use std::test::Fail;

fn tell_atom(told: &mut Text, atom: &Term) -> Result<(), Fail> {
    match atom {
        Term::Var(name) => told.push_name(name)?,
        Term::Div(_, _) => told.push_str("div")?,
        Term::Mod(_, _) => told.push_str("mod")?,
        Term::Read(_, _) => told.push_str("read")?,
        _ => told.push_str("other")?,
    }
    Ok(())
}

fn tell_summand(told: &mut Text, summand: &Summand) -> Result<(), Fail> {
    told.push_integer(summand.times)?;
    for atom in summand.atoms.as_slice() {
        told.push_str(" ")?;
        tell_atom(told, atom)?;
    }
    told.push_str(";")?;
    Ok(())
}

// Each summand as its coefficient and its atoms, ended by `;`.
fn told(alloc: Global, expansion: &Expansion) -> Result<Text, Fail> {
    let mut told = Text::new(alloc);
    match expansion {
        Expansion::Polynomial(summands) => {
            for summand in summands.as_slice() {
                tell_summand(&mut told, summand)?;
            }
        }
        Expansion::Unfit => told.push_str("unfit")?,
        Expansion::Wide => told.push_str("wide")?,
    }
    Ok(told)
}

fn expansion_case(alloc: Global, text: &str) -> Result<Text, Fail> {
    let term = term(alloc, text)?;
    expanded(alloc, term.get())
}

fn expanded(alloc: Global, term: &Term) -> Result<Text, Fail> {
    let expansion = expand(alloc, term)?;
    told(alloc, &expansion)
}

fn expansions_are(rt: &impl Abort, alloc: Global, cases: &[(&str, &str)]) -> Result<(), Fail> {
    for (text, want) in cases {
        let told = expansion_case(alloc, text)?;
        assert_eq!(rt; told.bytes(), want.as_bytes(), "at {text}");
    }
    Ok(())
}

#[test]
fn summands_stand_in_the_order_in_which_they_came(rt: HostRuntime) -> Result<(), Fail> {
    let cases = [
        ("0", ""),
        ("x + 1", "1;1 x;"),
        ("x + y - z", "1 x;1 y;-1 z;"),
        ("x + y - x", "1 y;"),
        ("x + y - x + x", "1 y;1 x;"),
        ("1 + x - 1", "1 x;"),
        ("1 + x - 1 + 2", "2;1 x;"),
        ("2 * x - x * 2", ""),
        ("-(x - y)", "-1 x;1 y;"),
        ("x * y + y * x", "2 x y;"),
        ("(x + 1) * (x - 1)", "-1;1 x x;"),
        ("(x + y) * (x + y)", "1 x x;2 x y;1 y y;"),
        ("(x + y) * (x - z)", "1 x x;-1 x z;1 y x;-1 y z;"),
        ("x div 2 + 2 * (x div 2)", "3 div;"),
        ("x div 2 + x div 3", "1 div;1 div;"),
        ("a[x] * a[1]", "1 read read;"),
        ("x mod 2 + x", "1 mod;1 x;"),
        ("put(a, 1, x)", "unfit"),
    ];
    expansions_are(&rt, rt.alloc(), &cases)
}

#[test]
fn a_step_past_128_bits_is_found_at_that_step(rt: HostRuntime) -> Result<(), Fail> {
    let cases = [
        (
            "170141183460469231731687303715884105727 * x",
            "170141183460469231731687303715884105727 x;",
        ),
        (
            "170141183460469231731687303715884105727 * x + 0 * x",
            "170141183460469231731687303715884105727 x;",
        ),
        ("170141183460469231731687303715884105727 + 1", "wide"),
        ("170141183460469231731687303715884105727 * x + x", "wide"),
        (
            "170141183460469231731687303715884105727 * x + x - x",
            "wide",
        ),
        (
            "170141183460469231731687303715884105727 * x + (x - x)",
            "170141183460469231731687303715884105727 x;",
        ),
        (
            "-170141183460469231731687303715884105727 - 1",
            "-170141183460469231731687303715884105728;",
        ),
        ("-(-170141183460469231731687303715884105727 - 1)", "wide"),
        ("0 - (-170141183460469231731687303715884105727 - 1)", "wide"),
        (
            "170141183460469231731687303715884105727 * x * (2 * y)",
            "wide",
        ),
    ];
    expansions_are(&rt, rt.alloc(), &cases)
}

#[test]
fn a_product_has_at_most_16_factors_which_are_counted_first(rt: HostRuntime) -> Result<(), Fail> {
    let cases = [
        (
            "x * x * x * x * x * x * x * x * x * x * x * x * x * x * x * x",
            "1 x x x x x x x x x x x x x x x x;",
        ),
        (
            "x * x * x * x * x * x * x * x * x * x * x * x * x * x * x * x * x",
            "unfit",
        ),
        (
            "170141183460469231731687303715884105727 * (x * x * x * x * x * x * x * x * x * x * x * x * x * x * x * x) * (2 * x)",
            "unfit",
        ),
    ];
    expansions_are(&rt, rt.alloc(), &cases)
}

// 1, and so many reads of an array, each at a number of its own.
fn reads(alloc: Global, many: u32) -> Result<String, Fail> {
    let mut text = format!(in alloc; "1")?;
    for i in 0..many {
        text.push_str(format!(in alloc; " + a[{i}]")?.as_str())?;
    }
    Ok(text)
}

fn reads_case(alloc: Global, many: u32) -> Result<bool, Fail> {
    let text = reads(alloc, many)?;
    let told = expansion_case(alloc, text.as_str())?;
    Ok(told.bytes() != b"unfit".as_slice())
}

#[test]
fn a_polynomial_has_at_most_256_products_beside_the_constant(rt: HostRuntime) -> Result<(), Fail> {
    let alloc = rt.alloc();
    assert!(rt; reads_case(alloc, 256)?);
    assert!(rt; !reads_case(alloc, 257)?);
    Ok(())
}

fn left_case(alloc: Global, text: &str) -> Result<Text, Fail> {
    let formula = formula(alloc, text)?;
    let given = given_by_left(alloc, formula.get())?;
    told(alloc, &given)
}

fn right_case(alloc: Global, text: &str) -> Result<Text, Fail> {
    let formula = formula(alloc, text)?;
    let given = given_by_right(alloc, formula.get())?;
    told(alloc, &given)
}

fn given_are(rt: &impl Abort, alloc: Global, cases: &[(&str, &str, &str)]) -> Result<(), Fail> {
    for (text, left, right) in cases {
        let told = left_case(alloc, text)?;
        assert_eq!(rt; told.bytes(), left.as_bytes(), "left {text}");
        let told = right_case(alloc, text)?;
        assert_eq!(rt; told.bytes(), right.as_bytes(), "right {text}");
    }
    Ok(())
}

#[test]
fn formulas_give_polynomials_that_are_0_or_at_least_0(rt: HostRuntime) -> Result<(), Fail> {
    let cases = [
        ("x = y", "1 x;-1 y;", "unfit"),
        ("x <= y", "1 y;-1 x;", "-1;1 x;-1 y;"),
        ("x < y", "-1;1 y;-1 x;", "1 x;-1 y;"),
    ];
    given_are(&rt, rt.alloc(), &cases)
}

// What `forall j:int .` stands before.
fn body_of(alloc: Global, text: &str) -> Result<Boxed<Formula>, Fail> {
    let text = format!(in alloc; "forall j:int . {text}")?;
    let quantified = formula(alloc, text.as_str())?;
    match quantified.get() {
        Formula::All(_, body) => Ok(Boxed::new(alloc, body.get().copy(alloc)?)?),
        _ => Err("not quantified")?,
    }
}

fn left_side(equation: &Formula) -> Option<&Term> {
    match equation {
        Formula::Eq(term, _) => Some(term),
        _ => None,
    }
}

// The expansion of the left side of such an equation, and whether this side is a polynomial.
fn bound_case(alloc: Global, text: &str) -> Result<(Text, bool), Fail> {
    let body = body_of(alloc, text)?;
    let term = left_side(body.get()).ok_or("no equation")?;
    Ok((expanded(alloc, term)?, is_polynomial(term)))
}

#[test]
fn bound_variables_may_stand_in_atoms_alone(rt: HostRuntime) -> Result<(), Fail> {
    let cases = [
        ("a[j] = 0", "1 read;", true),
        ("x - a[j] * 2 = 0", "1 x;-2 read;", true),
        ("x + j = 0", "unfit", false),
        (
            "170141183460469231731687303715884105727 + 1 + j = 0",
            "wide",
            false,
        ),
        (
            "j + (170141183460469231731687303715884105727 + 1) = 0",
            "unfit",
            false,
        ),
    ];
    for (text, want, is_polynomial) in &cases {
        let (told, found) = bound_case(rt.alloc(), text)?;
        assert_eq!(rt; told.bytes(), want.as_bytes(), "at {text}");
        assert_eq!(rt; found, *is_polynomial, "at {text}");
    }
    Ok(())
}

// So many fronts, and `x`.
fn nested(alloc: Global, front: &str) -> Result<Text, Fail> {
    let mut text = String::new(alloc);
    for _ in 0..512u32 {
        text.push_str(front)?;
    }
    text.push_str("x")?;
    expansion_case(alloc, text.as_str())
}

#[test]
fn the_deepest_terms_fit_the_stack(rt: HostRuntime) -> Result<(), Fail> {
    let alloc = rt.alloc();
    let told = nested(alloc, "1 + ")?;
    assert_eq!(rt; told.bytes(), b"512;1 x;".as_slice());
    let told = nested(alloc, "-")?;
    assert_eq!(rt; told.bytes(), b"1 x;".as_slice());
    Ok(())
}

// The formula alone.
fn side(alloc: Global, formula: Boxed<Formula>) -> Result<Items<Formula>, Fail> {
    let mut formulas = Items::new(alloc);
    formulas.push(formula.into_inner())?;
    Ok(formulas)
}

// The line `1*L1`, and where it is told so a division of it by -2.
fn first_left(alloc: Global, is_divided: bool) -> Result<Items<LinLine>, Fail> {
    let mut parts = Items::new(alloc);
    parts.push(Part {
        times: 1,
        of: Ref::Left(1),
    })?;
    let mut lines = Items::new(alloc);
    lines.push(LinLine::Sum(parts))?;
    if is_divided {
        lines.push(LinLine::Divide(1, -2))?;
    }
    Ok(lines)
}

fn checked<L: Ledger>(
    alloc: Global,
    left: &[Formula],
    right: &[Formula],
    lines: &[LinLine],
    blank: Blank,
) -> Result<(), LinError>
    requires name { blank.name ≡ L.name }
    requires parts { blank.parts ≡ L.parts }
    requires some { 0 < L.parts }
    requires few { length lines.now < 4294967295 }
{
    let mut steps = Steps::<L>::new(blank);
    check_lines(alloc, left, right, lines, &mut steps)
}

fn line_case(
    rt: &impl Abort,
    alloc: Global,
    left: Boxed<Formula>,
    lines: &[LinLine],
    bad: u32,
) -> Result<(), Fail> {
    let left = side(alloc, left)?;
    assert!(rt; lines.len() < 100);
    match checked::<Brand>(alloc, left.as_slice(), &[], lines, Blank::new(1)) {
        Err(LinError::BadLine(line) | LinError::NotContradiction(line)) => {
            assert_eq!(rt; line, bad);
        }
        _ => return Err("no line is told")?,
    }
    Ok(())
}

// What no script says: a binder, a division by a negative number, and no line at all, which is told as line 0.
#[test]
fn lines_that_no_script_says_refute_nothing(rt: HostRuntime) -> Result<(), Fail> {
    let alloc = rt.alloc();
    let once = first_left(alloc, false)?;
    let divided = first_left(alloc, true)?;
    line_case(&rt, alloc, body_of(alloc, "x = j")?, once.as_slice(), 1)?;
    line_case(
        &rt,
        alloc,
        body_of(alloc, "2 * x = 1")?,
        divided.as_slice(),
        2,
    )?;
    line_case(&rt, alloc, body_of(alloc, "x = 1")?, &[], 0)
}
