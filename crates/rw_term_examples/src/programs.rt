//! Tables of cases, worked out by hand.

use rw_items::{Boxed, Items};
use rw_programs::applied::Context;
use rw_programs::code::is_code;
use rw_programs::prog::{Arm, Pin, Prog, Spec};
use rw_programs::scoped::well_scoped;
use rw_terms::name::Name;
use rw_terms::scope::{Entry, Kind, Scope};
use rw_terms::term::{Formula, Sort, Term};
use std::alloc::Global;
use std::process::Abort;
use std::test::Fail;

// Programs as they are built from words that stand behind their parts, as `x set-y`.
#[derive(Drop)]
struct Stack {
    alloc: Global,
    terms: Vec<Boxed<Term>>,
    formulas: Vec<Boxed<Formula>>,
    progs: Vec<Boxed<Prog>>,
}

fn name(word: &str) -> Result<Name, Fail> {
    Ok(Name::read(word.as_bytes())?)
}

fn one_name(alloc: Global, word: &str) -> Result<Items<Name>, Fail> {
    let mut names = Items::new(alloc);
    names.push(name(word)?)?;
    Ok(names)
}

fn one_term(alloc: Global, term: Boxed<Term>) -> Result<Items<Term>, Fail> {
    let mut terms = Items::new(alloc);
    terms.push(term.into_inner())?;
    Ok(terms)
}

fn one_arm(alloc: Global, guard: Boxed<Formula>, body: Boxed<Prog>) -> Result<Items<Arm>, Fail> {
    let mut arms = Items::new(alloc);
    arms.push(Arm {
        guard: guard.into_inner(),
        body: body.into_inner(),
    })?;
    Ok(arms)
}

fn one_pin(alloc: Global, word: &str, term: Boxed<Term>) -> Result<Items<Pin>, Fail> {
    let name = name(word)?;
    let mut pins = Items::new(alloc);
    pins.push(Pin {
        name,
        term: term.into_inner(),
    })?;
    Ok(pins)
}

impl Stack {
    fn new(alloc: Global) -> Stack {
        Stack {
            alloc,
            terms: Vec::new(alloc),
            formulas: Vec::new(alloc),
            progs: Vec::new(alloc),
        }
    }

    fn term(&mut self) -> Result<Boxed<Term>, Fail> {
        Ok(self.terms.pop().ok_or("no term")?)
    }

    fn formula(&mut self) -> Result<Boxed<Formula>, Fail> {
        Ok(self.formulas.pop().ok_or("no formula")?)
    }

    fn prog(&mut self) -> Result<Boxed<Prog>, Fail> {
        Ok(self.progs.pop().ok_or("no program")?)
    }

    fn push_term(&mut self, term: Term) -> Result<(), Fail> {
        let term = Boxed::new(self.alloc, term)?;
        self.terms.push(term)?;
        Ok(())
    }

    fn push_formula(&mut self, formula: Formula) -> Result<(), Fail> {
        let formula = Boxed::new(self.alloc, formula)?;
        self.formulas.push(formula)?;
        Ok(())
    }

    fn push_prog(&mut self, prog: Prog) -> Result<(), Fail> {
        let prog = Boxed::new(self.alloc, prog)?;
        self.progs.push(prog)?;
        Ok(())
    }

    // A variable, an initial variable as `x'`, a constant with a capital, or a number.
    fn leaf(&mut self, word: &str) -> Result<(), Fail> {
        let term = if let Some(x) = word.strip_suffix("'") {
            Term::Init(name(x)?)
        } else if word == "K" || word == "D" {
            Term::Const(name(word)?)
        } else if word == "x" || word == "y" || word == "a" {
            Term::Var(name(word)?)
        } else {
            Term::Lit(word.parse::<i128>()?)
        };
        self.push_term(term)
    }

    fn relation(&mut self, word: &str) -> Result<(), Fail> {
        let u = self.term()?;
        let t = self.term()?;
        let formula = match word {
            "=" => Formula::Eq(t.into_inner(), u.into_inner()),
            _ => Formula::Less(t.into_inner(), u.into_inner()),
        };
        self.push_formula(formula)
    }

    // A specification of the frame, with a formula for its postcondition.
    fn spec(&mut self, frame: &str) -> Result<(), Fail> {
        let post = self.formula()?;
        let frame = one_name(self.alloc, frame)?;
        self.push_prog(Prog::Spec(Spec {
            frame,
            pre: Formula::True,
            post: post.into_inner(),
        }))
    }

    fn set(&mut self, x: &str) -> Result<(), Fail> {
        let t = self.term()?;
        let names = one_name(self.alloc, x)?;
        let terms = one_term(self.alloc, t)?;
        self.push_prog(Prog::Assign(names, terms))
    }

    fn sequence(&mut self) -> Result<(), Fail> {
        let d = self.prog()?;
        let c = self.prog()?;
        self.push_prog(Prog::Seq(c, d))
    }

    fn alternation(&mut self) -> Result<(), Fail> {
        let c = self.prog()?;
        let g = self.formula()?;
        let arms = one_arm(self.alloc, g, c)?;
        self.push_prog(Prog::If(arms))
    }

    // A loop, whose variant stands before the guard.
    fn iteration(&mut self) -> Result<(), Fail> {
        let c = self.prog()?;
        let g = self.formula()?;
        let variant = self.term()?;
        let arms = one_arm(self.alloc, g, c)?;
        self.push_prog(Prog::Do(variant.into_inner(), arms))
    }

    // A call of `p` with one argument, whose result is the name's.
    fn call(&mut self, x: &str) -> Result<(), Fail> {
        let t = self.term()?;
        let args = one_term(self.alloc, t)?;
        let results = one_name(self.alloc, x)?;
        self.push_prog(Prog::Call(name("p")?, args, results))
    }

    // A call of the operation `p` of `m`.
    fn operation(&mut self, x: &str) -> Result<(), Fail> {
        let t = self.term()?;
        let args = one_term(self.alloc, t)?;
        let results = one_name(self.alloc, x)?;
        self.push_prog(Prog::OpCall(name("m")?, name("p")?, args, results))
    }

    // The block of `m`.
    fn module(&mut self) -> Result<(), Fail> {
        let c = self.prog()?;
        self.push_prog(Prog::ModBlock(name("m")?, c))
    }

    fn block(&mut self, x: &str) -> Result<(), Fail> {
        let c = self.prog()?;
        let x = name(x)?;
        self.push_prog(Prog::Block(x, Sort::Int, c))
    }

    fn constant(&mut self, x: &str) -> Result<(), Fail> {
        let c = self.prog()?;
        let t = self.term()?;
        let pins = one_pin(self.alloc, x, t)?;
        self.push_prog(Prog::Con(pins, c))
    }

    // The words that end in a name.
    fn named(&mut self, word: &str) -> Result<(), Fail> {
        if let Some(x) = word.strip_prefix("spec-") {
            self.spec(x)
        } else if let Some(x) = word.strip_prefix("set-") {
            self.set(x)
        } else if let Some(x) = word.strip_prefix("var-") {
            self.block(x)
        } else if let Some(x) = word.strip_prefix("con-") {
            self.constant(x)
        } else if let Some(x) = word.strip_prefix("call-") {
            self.call(x)
        } else if let Some(x) = word.strip_prefix("op-") {
            self.operation(x)
        } else {
            self.leaf(word)
        }
    }

    fn word(&mut self, word: &str) -> Result<(), Fail> {
        match word {
            "=" | "<" => self.relation(word),
            "true" => self.push_formula(Formula::True),
            "kid" => self.push_prog(Prog::Kid(1)),
            "skip" => self.push_prog(Prog::Skip),
            ";" => self.sequence(),
            "if" => self.alternation(),
            "do" => self.iteration(),
            "open" => self.module(),
            _ => self.named(word),
        }
    }
}

fn program(alloc: Global, text: &str) -> Result<Boxed<Prog>, Fail> {
    let mut stack = Stack::new(alloc);
    for word in text.split(' ') {
        stack.word(word)?;
    }
    stack.prog()
}

fn code_case(alloc: Global, text: &str) -> Result<bool, Fail> {
    let prog = program(alloc, text)?;
    Ok(is_code(prog.get()))
}

fn code_is(rt: &impl Abort, alloc: Global, cases: &[(&str, bool)]) -> Result<(), Fail> {
    for (text, want) in cases {
        let found = code_case(alloc, text)?;
        assert_eq!(rt; found, *want, "at {text}");
    }
    Ok(())
}

#[test]
fn what_is_code(rt: HostRuntime) -> Result<(), Fail> {
    let cases = [
        ("skip", true),
        ("kid", false),
        ("true spec-x", false),
        ("x set-x", true),
        ("x' set-x", false),
        ("K set-x", false),
        ("skip x set-x ;", true),
        ("kid skip ;", false),
        ("skip kid ;", false),
        ("x 0 < skip if", true),
        ("x 0 < kid if", false),
        ("x' 0 < skip if", false),
        ("skip var-y", true),
        ("kid var-y", false),
        ("x skip con-D", false),
        ("x x 0 < skip do", true),
        ("x' x 0 < skip do", false),
        ("x x 0 < kid do", false),
        ("x call-x", true),
        ("K op-x", false),
        ("x op-x open", true),
    ];
    code_is(&rt, rt.alloc(), &cases)
}

// An integer `x`, an array `a` of 3 cells, and a constant `K`.
fn context(alloc: Global) -> Result<Context, Fail> {
    let mut scope = Scope::new(alloc);
    for (word, sort, kind) in [
        ("x", Sort::Int, Kind::Global),
        ("a", Sort::Array(3), Kind::Value),
        ("K", Sort::Int, Kind::Constant),
    ] {
        let name = name(word)?;
        scope = scope.with(alloc, Entry { name, sort, kind })?;
    }
    Ok(Context {
        scope,
        opened: Items::new(alloc),
        order: 7,
        inner: false,
    })
}

fn scope_case(alloc: Global, context: &Context, text: &str) -> Result<bool, Fail> {
    let prog = program(alloc, text)?;
    Ok(well_scoped(alloc, context, prog.get())?)
}

fn scopes_are(
    rt: &impl Abort,
    alloc: Global,
    context: &Context,
    cases: &[(&str, bool)],
) -> Result<(), Fail> {
    for (text, want) in cases {
        let found = scope_case(alloc, context, text)?;
        assert_eq!(rt; found, *want, "at {text}");
    }
    Ok(())
}

#[test]
fn names_are_in_scope_with_their_sorts(rt: HostRuntime) -> Result<(), Fail> {
    let cases = [
        ("skip", true),
        ("kid", true),
        ("K set-x", true),
        ("y set-x", false),
        ("D set-x", false),
        ("1 set-y", false),
        ("1 set-K", false),
        ("K' set-x", false),
        ("a set-a", true),
        ("a set-x", false),
        ("x x' = spec-x", true),
        ("x y = spec-x", false),
        ("x a = spec-x", false),
        ("true spec-y", false),
        ("x set-x y set-x ;", false),
        ("y set-x x set-x ;", false),
        ("x 0 < skip if", true),
        ("y 0 < skip if", false),
        ("a 0 < skip if", false),
        ("x 0 < y set-x if", false),
    ];
    let alloc = rt.alloc();
    let context = context(alloc)?;
    scopes_are(&rt, alloc, &context, &cases)
}

#[test]
fn blocks_bring_names_and_take_them_away(rt: HostRuntime) -> Result<(), Fail> {
    let cases = [
        ("1 set-y var-y", true),
        ("1 set-y var-y 1 set-y ;", false),
        ("skip var-x", false),
        ("skip var-K", false),
        ("skip var-y var-y", false),
        ("x D set-x con-D", true),
        ("x D set-x con-D D set-x ;", false),
        ("a D set-x con-D", false),
        ("y skip con-D", false),
        ("x 1 set-D con-D", false),
        ("D skip con-D", false),
    ];
    let alloc = rt.alloc();
    let context = context(alloc)?;
    scopes_are(&rt, alloc, &context, &cases)
}

#[test]
fn loops_calls_and_modules_are_in_scope(rt: HostRuntime) -> Result<(), Fail> {
    let cases = [
        ("x x 0 < skip do", true),
        ("a x 0 < skip do", false),
        ("y x 0 < skip do", false),
        ("x x 0 < y set-x do", false),
        ("x call-x", true),
        ("y call-x", false),
        ("x call-y", false),
        ("x call-K", false),
        ("x op-x open", true),
        ("y op-x open", false),
        ("x op-x", false),
        ("skip open x op-x ;", false),
        ("skip open open", false),
    ];
    let alloc = rt.alloc();
    let context = context(alloc)?;
    scopes_are(&rt, alloc, &context, &cases)
}

// Whether a copy is code just as the program is.
fn copy_case(alloc: Global, text: &str) -> Result<bool, Fail> {
    let prog = program(alloc, text)?;
    let again = Boxed::new(alloc, prog.get().copy(alloc)?)?;
    Ok(is_code(again.get()))
}

fn copies_are(rt: &impl Abort, alloc: Global, cases: &[(&str, bool)]) -> Result<(), Fail> {
    for (text, want) in cases {
        let found = copy_case(alloc, text)?;
        assert_eq!(rt; found, *want, "at {text}");
    }
    Ok(())
}

#[test]
fn copies_are_what_they_copy(rt: HostRuntime) -> Result<(), Fail> {
    let cases = [
        ("x 0 < x set-x skip var-y ; if", true),
        ("x kid con-D", false),
        ("true spec-x", false),
        ("x x 0 < x call-x do", true),
        ("x op-x open", true),
        ("kid open", false),
    ];
    copies_are(&rt, rt.alloc(), &cases)
}
