//! What the contracts leave open: examples whose answers were worked out by hand, and the depth that the stack carries.

use rw_items::{Boxed, Items};
use rw_terms::division::{quotient, rest};
use rw_terms::error::{ScopeError, TermError};
use rw_terms::formed::well_formed;
use rw_terms::measure::{depth, depth_of_term, weight, weight_of_term};
use rw_terms::mention::{free_in, free_in_term};
use rw_terms::name::Name;
use rw_terms::naming::names_of;
use rw_terms::sameness::{same, same_term};
use rw_terms::scope::{Entry, Head, Kind, Scope};
use rw_terms::sequent::Sequent;
use rw_terms::sorts::sort_of;
use rw_terms::term::{Formula, Sort, Term};
use rw_terms::text::Text;
use std::alloc::Global;
use std::process::Abort;
use std::test::Fail;

// Terms and formulas as they are built from words that stand behind their parts, as `x 1 + 2 =`.
#[derive(Drop)]
struct Stack {
    alloc: Global,
    terms: Vec<Term>,
    formulas: Vec<Formula>,
}

impl Stack {
    fn new(alloc: Global) -> Stack {
        Stack {
            alloc,
            terms: Vec::new(alloc),
            formulas: Vec::new(alloc),
        }
    }

    fn term(&mut self) -> Result<Term, Fail> {
        Ok(self.terms.pop().ok_or("no term")?)
    }

    fn boxed(&mut self) -> Result<Boxed<Term>, Fail> {
        let term = self.term()?;
        Ok(Boxed::new(self.alloc, term)?)
    }

    fn formula(&mut self) -> Result<Boxed<Formula>, Fail> {
        let formula = self.formulas.pop().ok_or("no formula")?;
        Ok(Boxed::new(self.alloc, formula)?)
    }

    fn operator(&mut self, word: &str) -> Result<(), Fail> {
        let b = self.boxed()?;
        let a = self.boxed()?;
        let term = match word {
            "+" => Term::Add(a, b),
            "-" => Term::Sub(a, b),
            "*" => Term::Mul(a, b),
            "div" => Term::Div(a, b),
            "mod" => Term::Mod(a, b),
            _ => Term::Read(a, b),
        };
        self.terms.push(term)?;
        Ok(())
    }

    fn put(&mut self) -> Result<(), Fail> {
        let e = self.boxed()?;
        let i = self.boxed()?;
        let a = self.boxed()?;
        self.terms.push(Term::Put(a, i, e))?;
        Ok(())
    }

    fn relation(&mut self, word: &str) -> Result<(), Fail> {
        let u = self.term()?;
        let t = self.term()?;
        let formula = match word {
            "=" => Formula::Eq(t, u),
            "<" => Formula::Less(t, u),
            _ => Formula::AtMost(t, u),
        };
        self.formulas.push(formula)?;
        Ok(())
    }

    fn connective(&mut self, word: &str) -> Result<(), Fail> {
        let g = self.formula()?;
        let f = self.formula()?;
        let formula = match word {
            "and" => Formula::And(f, g),
            "or" => Formula::Or(f, g),
            _ => Formula::Imp(f, g),
        };
        self.formulas.push(formula)?;
        Ok(())
    }

    // `all` and `any` with the length of an array, or 0 for an integer; an array of length 0 is `all-0`.
    fn quantifier(&mut self, word: &str) -> Result<(), Fail> {
        let f = self.formula()?;
        let formula = match word {
            "all" => Formula::All(Sort::Int, f),
            "any" => Formula::Any(Sort::Int, f),
            "all-0" => Formula::All(Sort::Array(0), f),
            "any-0" => Formula::Any(Sort::Array(0), f),
            "all-3" => Formula::All(Sort::Array(3), f),
            "all-1024" => Formula::All(Sort::Array(1024), f),
            _ => Formula::All(Sort::Array(1025), f),
        };
        self.formulas.push(formula)?;
        Ok(())
    }

    // A name, an initial variable as `x'`, a constant with a capital, or a bound variable as `_0`.
    fn name(&mut self, word: &str) -> Result<(), Fail> {
        let term = if let Some(x) = word.strip_suffix("'") {
            Term::Init(Name::read(x.as_bytes())?)
        } else if let Some(k) = word.strip_prefix("_") {
            Term::Bound(k.parse::<u32>()?)
        } else if word == "K" || word == "X" {
            Term::Const(Name::read(word.as_bytes())?)
        } else {
            Term::Var(Name::read(word.as_bytes())?)
        };
        self.terms.push(term)?;
        Ok(())
    }

    // A predicate or a function on the terms that are there.
    fn apply(&mut self, word: &str) -> Result<(), Fail> {
        let name = Name::read(word.as_bytes())?;
        let mut args = Items::new(self.alloc);
        for term in self.terms.drain(..) {
            args.push(term)?;
        }
        self.formulas.push(Formula::App(name, args))?;
        Ok(())
    }

    fn word(&mut self, word: &str) -> Result<(), Fail> {
        match word {
            "+" | "-" | "*" | "div" | "mod" | "[]" => self.operator(word),
            "=" | "<" | "<=" => self.relation(word),
            "and" | "or" | "=>" => self.connective(word),
            "all" | "any" | "all-0" | "any-0" | "all-3" | "all-1024" | "all-1025" =>
                self.quantifier(word),
            "put" => self.put(),
            "neg" => {
                let a = self.boxed()?;
                self.terms.push(Term::Neg(a))?;
                Ok(())
            }
            "not" => {
                let f = self.formula()?;
                self.formulas.push(Formula::Not(f))?;
                Ok(())
            }
            "true" => {
                self.formulas.push(Formula::True)?;
                Ok(())
            }
            "P" | "Q" => self.apply(word),
            "f" => {
                let f = Name::read(b"f")?;
                self.terms.push(Term::Fun(f, Items::new(self.alloc)))?;
                Ok(())
            }
            _ => match word.parse::<i128>() {
                Ok(n) => {
                    self.terms.push(Term::Lit(n))?;
                    Ok(())
                }
                Err(_) => self.name(word),
            },
        }
    }
}

fn term(alloc: Global, text: &str) -> Result<Term, Fail> {
    let mut stack = Stack::new(alloc);
    for word in text.split(' ') {
        stack.word(word)?;
    }
    stack.term()
}

fn formula(alloc: Global, text: &str) -> Result<Formula, Fail> {
    let mut stack = Stack::new(alloc);
    for word in text.split(' ') {
        stack.word(word)?;
    }
    Ok(stack.formula()?.into_inner())
}

// A global `x`, arrays `a` of 3 and `b` of 4 cells, and a constant `K`.
fn scope(alloc: Global) -> Result<Scope, Fail> {
    let mut scope = Scope::new(alloc);
    for (name, sort, kind) in [
        ("x", Sort::Int, Kind::Global),
        ("a", Sort::Array(3), Kind::Local),
        ("b", Sort::Array(4), Kind::Outcome),
        ("K", Sort::Int, Kind::Constant),
    ] {
        let name = Name::read(name.as_bytes())?;
        scope = scope.with(alloc, Entry { name, sort, kind })?;
    }
    Ok(scope)
}

// One head, `P`, on an integer and an array of 3 cells.
fn heads(alloc: Global) -> Result<Items<Head>, Fail> {
    let mut heads = Items::new(alloc);
    heads.push(Head {
        name: Name::read(b"P")?,
        sorts: Items::from_slice(alloc, &[Sort::Int, Sort::Array(3)])?,
    })?;
    Ok(heads)
}

fn told(alloc: Global, error: TermError) -> Result<String, Fail> {
    Ok(match error {
        TermError::BadSort(part) => format!(in alloc; "bad {part}")?,
        TermError::UnknownName(name) => format!(in alloc; "unknown {name}")?,
        TermError::TooLarge(weight) => format!(in alloc; "large {weight}")?,
        TermError::Memory => format!(in alloc; "memory")?,
    })
}

fn sort_told(alloc: Global, found: Result<Sort, TermError>) -> Result<String, Fail> {
    match found {
        Ok(Sort::Int) => Ok(format!(in alloc; "int")?),
        Ok(Sort::Array(n)) => Ok(format!(in alloc; "array {n}")?),
        Err(error) => told(alloc, error),
    }
}

fn sort_case(alloc: Global, scope: &Scope, heads: &[Head], text: &str) -> Result<String, Fail> {
    let term = term(alloc, text)?;
    sort_told(alloc, sort_of(scope, heads, &term))
}

fn sorts_are(
    rt: &impl Abort,
    alloc: Global,
    scope: &Scope,
    heads: &[Head],
    cases: &[(&str, &str)],
) -> Result<(), Fail> {
    for (text, want) in cases {
        let told = sort_case(alloc, scope, heads, text)?;
        assert_eq!(rt; told.as_str(), *want, "at {text}");
    }
    Ok(())
}

#[test]
fn terms_have_sorts_or_a_first_part_at_fault(rt: HostRuntime) -> Result<(), Fail> {
    let cases = [
        ("x 1 +", "int"),
        ("a", "array 3"),
        ("a 1 x' put", "array 3"),
        ("b 9 []", "int"),
        ("K x mod", "int"),
        ("x a +", "bad 1"),
        ("1 x a + +", "bad 3"),
        ("1 a neg +", "bad 3"),
        ("x 1 []", "bad 1"),
        ("a a []", "bad 1"),
        ("x 1 1 put", "bad 1"),
        ("a 1 b put", "bad 1"),
        ("a 1 [] x 1 [] +", "bad 5"),
        ("-1", "bad 1"),
        ("x -1 -", "bad 3"),
        ("_0", "bad 1"),
        ("zz 1 +", "unknown zz"),
        ("a zz +", "bad 1"),
        ("zz a neg +", "unknown zz"),
        ("X", "unknown X"),
        ("k", "unknown k"),
        ("K' 1 +", "unknown K"),
        ("f x +", "unknown f"),
    ];
    let alloc = rt.alloc();
    let scope = scope(alloc)?;
    let heads = heads(alloc)?;
    sorts_are(&rt, alloc, &scope, heads.as_slice(), &cases)
}

fn formed_told(alloc: Global, found: Result<(), TermError>) -> Result<String, Fail> {
    match found {
        Ok(()) => Ok(format!(in alloc; "formed")?),
        Err(error) => told(alloc, error),
    }
}

fn formed_case(alloc: Global, scope: &Scope, heads: &[Head], text: &str) -> Result<String, Fail> {
    let formula = formula(alloc, text)?;
    formed_told(alloc, well_formed(alloc, scope, heads, &formula))
}

fn formed_are(
    rt: &impl Abort,
    alloc: Global,
    scope: &Scope,
    heads: &[Head],
    cases: &[(&str, &str)],
) -> Result<(), Fail> {
    for (text, want) in cases {
        let told = formed_case(alloc, scope, heads, text)?;
        assert_eq!(rt; told.as_str(), *want, "at {text}");
    }
    Ok(())
}

#[test]
fn formulas_are_formed_or_have_a_first_part_at_fault(rt: HostRuntime) -> Result<(), Fail> {
    let cases = [
        ("a a =", "formed"),
        ("a b =", "bad 1"),
        ("x a =", "bad 1"),
        ("true x a < and", "bad 3"),
        ("a a <=", "bad 1"),
        ("true not x zz = or", "unknown zz"),
        ("_0 0 = all", "formed"),
        ("_1 0 = all", "bad 3"),
        ("_1 _0 [] 0 = any all-3", "formed"),
        ("_0 _1 [] 0 = any all-3", "bad 4"),
        ("true all-0", "bad 1"),
        ("true any-0 not", "bad 2"),
        ("true all-1024", "formed"),
        ("true all-1025", "bad 1"),
        ("x a P", "formed"),
        ("a x P", "bad 1"),
        ("x P", "bad 1"),
        ("zz a P", "unknown zz"),
        ("x a Q", "unknown Q"),
    ];
    let alloc = rt.alloc();
    let scope = scope(alloc)?;
    let heads = heads(alloc)?;
    formed_are(&rt, alloc, &scope, heads.as_slice(), &cases)
}

// The dividend, the divisor, the quotient and the rest.
fn divisions_are(rt: &impl Abort, cases: &[(i128, i128, i128, i128)]) {
    for (dividend, divisor, want, left) in cases {
        assert_eq!(rt; quotient(*dividend, *divisor), Some(*want));
        assert_eq!(rt; rest(*dividend, *divisor), *left);
    }
}

#[test]
fn division_rounds_to_minus_infinity(rt: HostRuntime) -> Result<(), Fail> {
    let cases = [
        (7, 2, 3, 1),
        (-7, 2, -4, 1),
        (7, -2, -4, -1),
        (-7, -2, 3, -1),
        (-8, 2, -4, 0),
        (5, 0, 0, 0),
        (i128::MIN, 1, i128::MIN, 0),
    ];
    divisions_are(&rt, &cases);
    assert_eq!(&rt; quotient(i128::MIN, -1), None);
    Ok(())
}

// 1 is doubled so often, and then negated so often.
fn large(alloc: Global, doubled: u32, negated: u32) -> Result<Term, Fail> {
    let mut term = Term::Lit(1);
    for _ in 0..doubled {
        let again = term.copy(alloc)?;
        term = Term::Add(Boxed::new(alloc, term)?, Boxed::new(alloc, again)?);
    }
    for _ in 0..negated {
        term = Term::Neg(Boxed::new(alloc, term)?);
    }
    Ok(term)
}

fn limit_case(alloc: Global, doubled: u32, negated: u32) -> Result<String, Fail> {
    let term = large(alloc, doubled, negated)?;
    sort_told(alloc, sort_of(&Scope::new(alloc), &[], &term))
}

#[test]
fn limits_come_first(rt: HostRuntime) -> Result<(), Fail> {
    let alloc = rt.alloc();
    for (doubled, negated, want) in [
        (9, 1, "int"),
        (9, 2, "large 1025"),
        (0, 63, "int"),
        (0, 64, "large 65"),
        (10, 0, "large 2047"),
    ] {
        let told = limit_case(alloc, doubled, negated)?;
        assert_eq!(rt; told.as_str(), want, "at {doubled} and {negated}");
    }
    Ok(())
}

#[test]
fn a_quantified_formula_has_weight_11_and_depth_6(rt: HostRuntime) -> Result<(), Fail> {
    let alloc = rt.alloc();
    let formula = formula(alloc, "0 _0 <= x _0 1 - = not => all")?;
    assert_eq!(rt; weight(&formula), 11);
    assert_eq!(rt; depth(&formula), 6);
    assert!(rt; free_in(&Name::read(b"x")?, &formula));
    assert!(rt; !free_in(&Name::read(b"j")?, &formula));
    assert!(rt; same(&formula, &formula.copy(alloc)?));
    Ok(())
}

fn tell_sort(told: &mut Text, sort: Sort) -> Result<(), Fail> {
    match sort {
        Sort::Int => told.push_str(":int ")?,
        Sort::Array(n) => {
            told.push_str(":array ")?;
            told.push_number(u64::from(n))?;
            told.push_str(" ")?;
        }
    }
    Ok(())
}

fn names_told(alloc: Global, names: &[(Name, Sort)]) -> Result<Text, Fail> {
    let mut told = Text::new(alloc);
    for (name, sort) in names {
        told.push_name(name)?;
        tell_sort(&mut told, *sort)?;
    }
    Ok(told)
}

fn names_case(alloc: Global, scope: &Scope, text: &str) -> Result<Text, Fail> {
    let mut formulas = Items::new(alloc);
    formulas.push(formula(alloc, text)?)?;
    let names = names_of(alloc, scope, &[], formulas.as_slice())?;
    names_told(alloc, names.as_slice())
}

#[test]
fn names_of_formulas_are_sorted_with_their_sorts(rt: HostRuntime) -> Result<(), Fail> {
    let alloc = rt.alloc();
    let scope = scope(alloc)?;
    let told = names_case(alloc, &scope, "x b 0 [] < K x = and zz 1 = and")?;
    assert_eq!(rt; told.bytes(), b"K:int b:array 4 x:int ".as_slice());
    Ok(())
}

#[test]
fn integers_are_written_with_their_sign(rt: HostRuntime) -> Result<(), Fail> {
    let mut told = Text::new(rt.alloc());
    told.push_integer(-7)?;
    told.push_str(" ")?;
    told.push_integer(170141183460469231731687303715884105727)?;
    assert_eq!(rt;
        told.bytes(),
        b"-7 170141183460469231731687303715884105727".as_slice()
    );
    Ok(())
}

#[test]
fn a_scope_takes_a_name_once(rt: HostRuntime) -> Result<(), Fail> {
    let alloc = rt.alloc();
    let scope = scope(alloc)?.copy(alloc)?;
    assert!(rt; scope.find(&Name::read(b"b")?).is_some());
    let entry = Entry {
        name: Name::read(b"a")?,
        sort: Sort::Int,
        kind: Kind::Value,
    };
    assert!(rt; matches!(scope.with(alloc, entry), Err(ScopeError::NotFresh)));
    Ok(())
}

// The deepest values that a line can spell: 512 operators round an operand.
const DEEPEST: u32 = 512;

fn deep_term(alloc: Global) -> Result<Term, Fail> {
    let mut term = Term::Var(Name::read(b"x")?);
    for _ in 0..DEEPEST {
        term = Term::Add(Boxed::new(alloc, term)?, Boxed::new(alloc, Term::Lit(1))?);
    }
    Ok(term)
}

fn deep_formula(alloc: Global) -> Result<Formula, Fail> {
    let mut formula = Formula::Eq(deep_term(alloc)?, Term::Lit(0));
    for _ in 0..DEEPEST {
        formula = Formula::All(Sort::Int, Boxed::new(alloc, formula)?);
    }
    Ok(formula)
}

#[test]
fn the_deepest_terms_fit_the_stack(rt: HostRuntime) -> Result<(), Fail> {
    let alloc = rt.alloc();
    let term = deep_term(alloc)?;
    assert_eq!(rt; weight_of_term(&term), 2 * DEEPEST + 1);
    assert_eq!(rt; depth_of_term(&term), DEEPEST + 1);
    assert!(rt; free_in_term(&Name::read(b"x")?, &term));
    assert!(rt; same_term(&term, &term.copy(alloc)?));
    assert!(rt; sort_of(&scope(alloc)?, &[], &term).is_err());
    Ok(())
}

#[test]
fn the_deepest_formulas_fit_the_stack(rt: HostRuntime) -> Result<(), Fail> {
    let alloc = rt.alloc();
    let formula = deep_formula(alloc)?;
    assert_eq!(rt; depth(&formula), 2 * DEEPEST + 2);
    assert_eq!(rt; weight(&formula), 3 * DEEPEST + 3);
    assert!(rt; free_in(&Name::read(b"x")?, &formula));
    assert!(rt; same(&formula, &formula.copy(alloc)?));
    assert!(rt; well_formed(alloc, &scope(alloc)?, &[], &formula).is_err());
    Ok(())
}

fn deep_sequent(alloc: Global, scope: &Scope) -> Result<Sequent, Fail> {
    let mut right = Items::new(alloc);
    right.push(deep_formula(alloc)?)?;
    Ok(Sequent {
        names: names_of(alloc, scope, &[], right.as_slice())?,
        left: Items::new(alloc),
        right,
    })
}

#[test]
fn the_deepest_sequents_fit_the_stack(rt: HostRuntime) -> Result<(), Fail> {
    let alloc = rt.alloc();
    let sequent = deep_sequent(alloc, &scope(alloc)?)?;
    let again = sequent.copy(alloc)?;
    assert_eq!(rt; again.names.len(), 1);
    assert_eq!(rt; again.right.len(), 1);
    Ok(())
}
