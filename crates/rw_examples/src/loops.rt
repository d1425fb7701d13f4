//! Each call once; the tables of causes and of derivations stand with the top call.

use rw_items::Items;
use rw_loops::apply::{apply, premises};
use rw_loops::counts::counts;
use rw_loops::step::LoopStep;
use rw_programs::applied::Context;
use rw_programs::prog::{Prog, Spec};
use rw_terms::name::Name;
use rw_terms::scope::Scope;
use rw_terms::term::{Formula, Sort};
use std::alloc::Global;
use std::test::Fail;

fn context(alloc: Global) -> Context {
    Context {
        scope: Scope::new(alloc),
        opened: Items::new(alloc),
        order: u32::MAX,
        inner: false,
    }
}

// `:[true, true]`.
fn spec(alloc: Global) -> Spec {
    Spec {
        frame: Items::new(alloc),
        pre: Formula::True,
        post: Formula::True,
    }
}

#[test]
fn a_block_has_one_kid_and_owes_nothing(rt: HostRuntime) -> Result<(), Fail> {
    let alloc = rt.alloc();
    let step = LoopStep::Block(Name::read(b"t")?, Sort::Int).copy(alloc)?;
    let counted = counts(&step);
    assert_eq!(rt; counted.kids, 1);
    assert_eq!(rt; counted.obligations, 0);
    let context = context(alloc);
    let spec = spec(alloc);
    let made = premises(alloc, &context, &[], &spec, &step)?;
    assert_eq!(rt; made.children.len(), 1);
    let applied = apply(alloc, &context, &[], &spec, &step)?;
    assert!(rt; matches!(applied.skeleton, Prog::Block(_, _, _)));
    Ok(())
}
