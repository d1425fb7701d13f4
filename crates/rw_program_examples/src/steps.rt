//! What is printed of steps that are read.

use rw_forms::request::{ReadError, Request};
use rw_heads::step::CallStep;
use rw_items::Boxed;
use rw_nodes::edit::{Edit, Step};
use rw_program_printer::{print_basic_step, print_call_step, print_loop_step, print_module_step};
use rw_program_reader::{read_call_step, read_module_step};
use rw_reader::read_request;
use rw_terms::text::Text;
use std::alloc::Global;
use std::process::Abort;
use std::test::Fail;

// The text of a step.
fn step_text(alloc: Global, step: &Step) -> Result<Text, Fail> {
    match step {
        Step::Basic(step) => Ok(print_basic_step(alloc, step)?),
        Step::Loop(step) => Ok(print_loop_step(alloc, step)?),
    }
}

// The text of the step that a request sets.
fn set_text(alloc: Global, request: &Request) -> Result<Text, Fail> {
    match request {
        Request::Edit(Edit::Step(_, step)) => step_text(alloc, step),
        _ => Err("no step")?,
    }
}

// Each is the text of a step that a request may set, and is printed as itself.
fn steps(rt: &impl Abort, alloc: Global, cases: &[&[u8]]) -> Result<(), Fail> {
    for text in cases {
        let mut line = Vec::new(alloc);
        line.extend_from_slice(b"step main ")?;
        line.extend_from_slice(text)?;
        assert!(rt; line.len() <= 65536);
        let request = Boxed::new(alloc, read_request(alloc, line.as_slice())?)?;
        let printed = set_text(alloc, request.get())?;
        assert_eq!(rt; printed.bytes(), *text);
    }
    Ok(())
}

#[test]
fn steps_by_basic_laws_are_printed(rt: HostRuntime) -> Result<(), Fail> {
    steps(
        &rt,
        rt.alloc(),
        &[
            b"skip",
            b"weaken x = 1",
            b"strengthen x = 1 and true",
            b"assign x,y := y, x + 1",
            b"follow x := 1",
            b"seq x = 1",
        ],
    )
}

#[test]
fn steps_with_names_and_guards_are_printed(rt: HostRuntime) -> Result<(), Fail> {
    steps(
        &rt,
        rt.alloc(),
        &[
            b"seqcon X,Y : x = X",
            b"con X = x + 1",
            b"contract x,y",
            b"expand x",
            b"if x = 1 | not x = 1",
            b"do x ; 0 < x | x < 0",
            b"block a : array 3",
            b"block x : int",
        ],
    )
}

#[test]
fn calls_are_printed(rt: HostRuntime) -> Result<(), Fail> {
    let alloc = rt.alloc();
    let cases: [&[u8]; 4] = [
        b"call P(1;)",
        b"call P(;)",
        b"call P(1, x + 1; x,y)",
        b"call p(; x)",
    ];
    for text in cases {
        let step = read_call_step(alloc, text)?;
        let printed = print_call_step(alloc, &step)?;
        assert_eq!(rt; printed.bytes(), text);
    }
    Ok(())
}

#[test]
fn steps_of_modules_are_printed(rt: HostRuntime) -> Result<(), Fail> {
    let alloc = rt.alloc();
    let cases: [&[u8]; 4] = [
        b"module M",
        b"op M.o(1;)",
        b"op M.o(;)",
        b"op m.O(1, 2; x,y)",
    ];
    for text in cases {
        let step = Boxed::new(alloc, read_module_step(alloc, text)?)?;
        let printed = print_module_step(alloc, step.get())?;
        assert_eq!(rt; printed.bytes(), text);
    }
    Ok(())
}

// The offset that a reading of a call tells.
fn offset(read: &Result<CallStep, ReadError>) -> Option<u32> {
    match read {
        Ok(_) => None,
        Err(ReadError::Syntax(at)) => Some(*at),
        Err(ReadError::Memory) => None,
    }
}

#[test]
fn what_is_no_call_is_refused(rt: HostRuntime) -> Result<(), Fail> {
    let alloc = rt.alloc();
    let cases: [(&[u8], u32); 6] = [
        (b"P(1;)", 0),
        (b"call P(1)", 8),
        (b"call P(1;) ; skip", 11),
        (b"call op(;)", 5),
        (b"call P(; X)", 9),
        (b"call P(1; x", 11),
    ];
    for (text, at) in cases {
        assert_eq!(rt; offset(&read_call_step(alloc, text)), Some(at));
    }
    Ok(())
}
