//! Heads that were worked out by hand.

use rw_example_texts::{formula, names, spells};
use rw_heads::head::{Module, Oper};
use rw_items::{Boxed, Items};
use rw_modules::concrete::concrete_head;
use rw_modules::error::ModError;
use rw_modules::halves::augment;
use rw_programs::applied::Child;
use rw_programs::prog::{Param, Spec};
use rw_terms::copying::boxed;
use rw_terms::joining::both;
use rw_terms::name::Name;
use rw_terms::scope::Kind;
use rw_terms::term::{Formula, Sort};
use std::alloc::Global;
use std::process::Abort;
use std::test::Fail;

fn params(alloc: Global, declared: &[(&str, Sort)]) -> Result<Items<Param>, Fail> {
    let mut params = Items::new(alloc);
    for (text, sort) in declared {
        params.push(Param {
            name: Name::read(text.as_bytes())?,
            sort: *sort,
        })?;
    }
    Ok(params)
}

fn spec(alloc: Global, frame: &[&str], pre: &str, post: &str) -> Result<Boxed<Spec>, Fail> {
    let frame = names(alloc, frame)?;
    let pre = formula(alloc, pre)?;
    let post = formula(alloc, post)?;
    let spec = Spec {
        frame,
        pre: pre.into_inner(),
        post: post.into_inner(),
    };
    Ok(Boxed::new(alloc, spec)?)
}

// A module with one operation, `add`, which takes an integer `v`.
fn module(
    alloc: Global,
    state: &[(&str, Sort)],
    concrete: &[(&str, Sort)],
    coupling: Boxed<Formula>,
    add: Boxed<Spec>,
) -> Result<Boxed<Module>, Fail> {
    let operations = one_operation(alloc, add)?;
    let name = Name::read(b"M")?;
    let state = params(alloc, state)?;
    let concrete = params(alloc, concrete)?;
    let start = formula(alloc, "t = 0")?;
    let module = Module {
        name,
        state,
        concrete,
        start: start.into_inner(),
        coupling: coupling.into_inner(),
        operations,
    };
    Ok(Boxed::new(alloc, module)?)
}

fn one_operation(alloc: Global, add: Boxed<Spec>) -> Result<Items<Oper>, Fail> {
    let name = Name::read(b"add")?;
    let values = params(alloc, &[("v", Sort::Int)])?;
    let mut operations = Items::new(alloc);
    operations.push(Oper {
        name,
        values,
        results: Items::new(alloc),
        spec: add.into_inner(),
    })?;
    Ok(operations)
}

// The total `t` of two numbers, coupled by a formula.
fn two_numbers(alloc: Global, coupling: Boxed<Formula>) -> Result<Boxed<Module>, Fail> {
    let add = spec(alloc, &["t"], "true", "t = t0 + v")?;
    let concrete = [("lo", Sort::Int), ("hi", Sort::Int)];
    module(alloc, &[("t", Sort::Int)], &concrete, coupling, add)
}

// A total `t` and a table `a`, of which `add` changes the table alone.
fn table(alloc: Global) -> Result<Boxed<Module>, Fail> {
    let add = spec(alloc, &["a"], "t = 0", "a[0] = a0[0] + v")?;
    let state = [("t", Sort::Int), ("a", Sort::Array(3))];
    let concrete = [("n", Sort::Int), ("c", Sort::Array(4))];
    let coupling = formula(alloc, "t = n and a[0] = c[0]")?;
    module(alloc, &state, &concrete, coupling, add)
}

fn add_head(alloc: Global, module: &Module) -> Result<Child, ModError> {
    match Name::read(b"add") {
        Ok(name) => concrete_head(alloc, module, 7, Some(&name)),
        Err(_) => Err(ModError::NoOperation),
    }
}

fn spec_is(rt: &impl Abort, alloc: Global, spec: &Spec, pre: &str, post: &str) -> Result<(), Fail> {
    assert!(rt; spells(alloc, pre, &spec.pre)?, "precondition {pre}");
    assert!(rt; spells(alloc, post, &spec.post)?, "postcondition {post}");
    Ok(())
}

fn frame_is(rt: &impl Abort, spec: &Spec, frame: &[&str]) {
    assert_eq!(rt; spec.frame.len(), frame.len());
    for (name, text) in spec.frame.as_slice().iter().zip(frame) {
        assert_eq!(rt; name.bytes(), text.as_bytes());
    }
}

fn scope_is(rt: &impl Abort, child: &Child, scope: &[(&str, Kind)]) {
    let entries = child.context.scope.entries();
    assert_eq!(rt; entries.len(), scope.len());
    for (entry, (text, kind)) in entries.iter().zip(scope) {
        assert_eq!(rt; entry.name.bytes(), text.as_bytes());
        assert_eq!(rt; entry.kind, *kind);
    }
}

// The head that was made.
fn made(head: &Result<Child, ModError>) -> Result<&Child, Fail> {
    match head {
        Ok(child) => Ok(child),
        Err(_) => Err("no head is made")?,
    }
}

// The weight that a refusal tells.
fn weight_told(refused: &Result<Child, ModError>) -> Option<u32> {
    match refused {
        Err(ModError::TooLarge(weight)) => Some(*weight),
        _ => None,
    }
}

// A formula joined with itself, so many times over: its weight doubles and grows by one each time, its depth by one.
fn doubled(alloc: Global, times: u32) -> Result<Boxed<Formula>, Fail> {
    let mut all = formula(alloc, "t = lo")?;
    for _ in 0..times {
        let again = boxed(alloc, all.get())?;
        all = both(alloc, all, again)?;
    }
    Ok(all)
}

#[test]
fn an_operation_on_two_numbers(rt: HostRuntime) -> Result<(), Fail> {
    let alloc = rt.alloc();
    let module = two_numbers(alloc, formula(alloc, "t = lo + hi")?)?;
    let head = add_head(alloc, module.get());
    let child = made(&head)?;
    spec_is(
        &rt,
        alloc,
        &child.spec,
        "exists _1:int . true and _1 = lo + hi",
        "forall _1:int . true and _1 = lo0 + hi0 => (exists _2:int . _2 = _1 + v and _2 = lo + hi)",
    )?;
    frame_is(&rt, &child.spec, &["lo", "hi"]);
    let scope = [("lo", Kind::Local), ("hi", Kind::Local), ("v", Kind::Value)];
    scope_is(&rt, child, &scope);
    assert_eq!(rt; child.context.order, 7);
    assert!(rt; child.context.inner);
    Ok(())
}

#[test]
fn the_start_of_two_numbers(rt: HostRuntime) -> Result<(), Fail> {
    let alloc = rt.alloc();
    let module = two_numbers(alloc, formula(alloc, "t = lo + hi")?)?;
    let head = concrete_head(alloc, module.get(), 7, None);
    let child = made(&head)?;
    spec_is(
        &rt,
        alloc,
        &child.spec,
        "true",
        "exists _1:int . _1 = 0 and _1 = lo + hi",
    )?;
    frame_is(&rt, &child.spec, &["lo", "hi"]);
    scope_is(&rt, child, &[("lo", Kind::Local), ("hi", Kind::Local)]);
    Ok(())
}

#[test]
fn what_an_operation_leaves_alone_keeps_its_value(rt: HostRuntime) -> Result<(), Fail> {
    let alloc = rt.alloc();
    let module = table(alloc)?;
    let add = spec(alloc, &["a"], "t = 0", "a[0] = a0[0] + v")?;
    let augmented = augment(alloc, module.get(), add.get());
    let Ok(spec) = &augmented else {
        return Err("the specification is too large")?;
    };
    spec_is(
        &rt,
        alloc,
        spec,
        "t = 0 and (t = n and a[0] = c[0])",
        "(a[0] = a0[0] + v and t = t0) and (t = n and a[0] = c[0])",
    )?;
    frame_is(&rt, spec, &["t", "a", "n", "c"]);
    Ok(())
}

#[test]
fn quantifiers_stand_in_declared_order(rt: HostRuntime) -> Result<(), Fail> {
    let alloc = rt.alloc();
    let module = table(alloc)?;
    let head = add_head(alloc, module.get());
    let child = made(&head)?;
    spec_is(
        &rt,
        alloc,
        &child.spec,
        "exists t:int . exists a:array 3 . t = 0 and (t = n and a[0] = c[0])",
        "forall s:int . forall b:array 3 . s = 0 and (s = n0 and b[0] = c0[0]) => (exists t:int . exists a:array 3 . (a[0] = b[0] + v and t = s) and (t = n and a[0] = c[0]))",
    )?;
    frame_is(&rt, &child.spec, &["n", "c"]);
    Ok(())
}

// 128 equations weigh 511. The postcondition has them twice; with twice as many the precondition goes first.
#[test]
fn heads_that_pass_the_weight(rt: HostRuntime) -> Result<(), Fail> {
    let alloc = rt.alloc();
    let late = two_numbers(alloc, doubled(alloc, 7)?)?;
    assert!(rt; weight_told(&add_head(alloc, late.get())) == Some(1033));
    let early = two_numbers(alloc, doubled(alloc, 8)?)?;
    assert!(rt; weight_told(&add_head(alloc, early.get())) == Some(1026));
    Ok(())
}

#[test]
fn no_operation_has_the_name(rt: HostRuntime) -> Result<(), Fail> {
    let alloc = rt.alloc();
    let module = two_numbers(alloc, formula(alloc, "t = lo + hi")?)?;
    let name = Name::read(b"take")?;
    match &concrete_head(alloc, module.get(), 7, Some(&name)) {
        Err(ModError::NoOperation) => Ok(()),
        _ => Err("an operation is there")?,
    }
}
