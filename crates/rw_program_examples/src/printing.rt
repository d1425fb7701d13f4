//! What is printed of programs that are read.

use rw_items::Boxed;
use rw_program_printer::print_program;
use rw_program_reader::read_program;
use rw_terms::text::Text;
use std::alloc::Global;
use std::process::Abort;
use std::test::Fail;

// The text that is printed of the program that a text spells.
fn printed(rt: &impl Abort, alloc: Global, text: &[u8]) -> Result<Text, Fail> {
    assert!(rt; text.len() <= 65536);
    let program = Boxed::new(alloc, read_program(alloc, text)?)?;
    Ok(print_program(alloc, program.get())?)
}

// Each is printed as the text behind it, and what that one spells is printed as itself.
fn programs(rt: &impl Abort, alloc: Global, cases: &[(&[u8], &[u8])]) -> Result<(), Fail> {
    for (read, wanted) in cases {
        let text = printed(rt, alloc, read)?;
        assert_eq!(rt; text.bytes(), *wanted);
        let again = printed(rt, alloc, text.bytes())?;
        assert_eq!(rt; again.bytes(), *wanted);
    }
    Ok(())
}

#[test]
fn plain_programs_are_printed(rt: HostRuntime) -> Result<(), Fail> {
    programs(
        &rt,
        rt.alloc(),
        &[
            (b" skip ", b"skip"),
            (b"x,y:=1,x+1", b"x,y := 1, x + 1"),
            (b"x , y : [true , x=y]", b"x,y:[true, x = y]"),
            (b" : [x=1,true]", b":[x = 1, true]"),
            (b"call P ( 1 , x ; x , y )", b"call P(1, x; x,y)"),
            (b"call P(1; )", b"call P(1;)"),
            (b"call p(;)", b"call p(;)"),
            (b"op M . o ( ;x)", b"op M.o(; x)"),
        ],
    )
}

#[test]
fn programs_with_programs_in_them_are_printed(rt: HostRuntime) -> Result<(), Fail> {
    programs(
        &rt,
        rt.alloc(),
        &[
            (b"if x=1->skip fi", b"if x = 1 -> skip fi"),
            (
                b"if x=1->skip[]x=2->x:=1 fi",
                b"if x = 1 -> skip [] x = 2 -> x := 1 fi",
            ),
            (b"do{x}0<x->x:=x-1 od", b"do {x} 0 < x -> x := x - 1 od"),
            (b"|[var a:array 3.skip]|", b"|[ var a : array 3 . skip ]|"),
            (b"|[con X=1,Y=x.x:=X]|", b"|[ con X = 1, Y = x . x := X ]|"),
            (b"|[module M.skip]|", b"|[ module M . skip ]|"),
            (
                b"if true->skip;skip fi;skip",
                b"if true -> skip ; skip fi ; skip",
            ),
        ],
    )
}

#[test]
fn a_sequence_as_first_part_stands_in_parentheses(rt: HostRuntime) -> Result<(), Fail> {
    programs(
        &rt,
        rt.alloc(),
        &[
            (b"skip;skip;x:=1", b"skip ; skip ; x := 1"),
            (b"(skip;skip);x:=1", b"(skip ; skip) ; x := 1"),
            (b"skip;(skip;x:=1)", b"skip ; skip ; x := 1"),
            (b"((skip;skip);skip);skip", b"((skip ; skip) ; skip) ; skip"),
            (b"((skip))", b"skip"),
            (b"(skip);(x:=1)", b"skip ; x := 1"),
        ],
    )
}
