//! Requests that set or drop entries of the table.

ghost use Rattle.std.specs.Prelude.{◌≡◌, IfOk};
ghost use Rattle.rw_reader.specs.Requests.{define_form, lemma_of, lemma_form, drop_form};
ghost use Rattle.rw_forms.specs.Progress.{IsPlace, Answers};

use rw_citations::goal::scope_of_parameters;
use rw_forms::parameters::{closed_parameters, some_parameters};
use rw_forms::request::{ReadError, Request};
use rw_forms::sides::{left_side, right_side};
use rw_forms::taking::{any_name, constant, end, expect};
use rw_forms::value::formula;
use rw_goals::library::{Definition, Lemma};
use rw_items::Items;
use rw_nodes::edit::Edit;
use rw_terms::name::Name;
use rw_terms::naming::names_of;
use rw_terms::sequent::Sequent;
use rw_terms::term::{Formula, Sort};
use std::alloc::{AllocError, Global};

/// `PREDICATE ( PARAMS ) = FORM`
pub fn read_define(alloc: Global, line: &[u8], mut at: usize) -> Result<Request, ReadError>
    requires { IsPlace line.now at }
    ensures { Answers define_form line.now at result }
{
    let name = constant(line, &mut at)?;
    expect(line, &mut at, b"(")?;
    let params = closed_parameters(alloc, line, &mut at)?;
    expect(line, &mut at, b"=")?;
    let body = formula(alloc, 512, line, &mut at)?;
    end(line, at)?;
    Ok(Request::Edit(Edit::Define(Definition {
        name,
        params,
        body: body.into_inner(),
    })))
}

/// `NAME ( [ PARAMS ] ) : SEQ`
pub fn read_lemma(alloc: Global, line: &[u8], mut at: usize) -> Result<Request, ReadError>
    requires { IsPlace line.now at }
    ensures { Answers lemma_form line.now at result }
{
    let name = any_name(line, &mut at)?;
    expect(line, &mut at, b"(")?;
    let params = some_parameters(alloc, line, &mut at)?;
    expect(line, &mut at, b":")?;
    let left = left_side(alloc, line, &mut at)?;
    let right = right_side(alloc, line, &mut at)?;
    end(line, at)?;
    let lemma = lemma_of(alloc, name, params, left, right)?;
    Ok(Request::Edit(Edit::Lemma(lemma)))
}

/// `NAME`
pub fn read_drop(line: &[u8], mut at: usize) -> Result<Request, ReadError>
    requires { IsPlace line.now at }
    ensures { Answers drop_form line.now at result }
{
    let name = any_name(line, &mut at)?;
    end(line, at)?;
    Ok(Request::Edit(Edit::Drop(name)))
}

// A lemma, whose sequent has the parameters that are free in its formulas.
fn lemma_of(
    alloc: Global,
    name: Name,
    params: Items<(Name, Sort)>,
    left: Items<Formula>,
    right: Items<Formula>,
) -> Result<Lemma, AllocError>
    ensures { IfOk result (λ l. l ≡ lemma_of name params left right) }
{
    let scope = scope_of_parameters(alloc, params.as_slice())?;
    let names = names_of(alloc, &scope, left.as_slice(), right.as_slice())?;
    Ok(Lemma {
        name,
        params,
        sequent: Sequent { names, left, right },
    })
}
