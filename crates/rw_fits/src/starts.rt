//! Starts.

ghost use Rattle.std.specs.Prelude.{◌≡◌, ◌↔◌, IsTrue};
ghost use Rattle.rw_machine.specs.CodeFits.{StartFits};
ghost use Rattle.rw_fits.specs.Fits.{value_fits, values_fit};

use rw_evaluation::value::Value;
use rw_machine::outcome::State;
use rw_programs::prog::Param;
use rw_terms::term::Sort;

fn value_fits(value: &Value, sort: Sort) -> bool
    ensures { result ≡ value_fits value.now sort }
{
    match (value, sort) {
        (Value::Int(_), Sort::Int) => true,
        (Value::List(cells), Sort::Array(length)) => cells.len() == length as usize,
        (Value::Int(_), Sort::Array(_)) => false,
        (Value::List(_), Sort::Int) => false,
    }
}

fn values_fit(globals: &[Param], values: &[Value]) -> bool
    ensures { result ≡ values_fit globals.now values.now }
{
    if globals.len() != values.len() {
        return false;
    }
    for i in 0..globals.len() {
        if !value_fits(&values[i], globals[i].sort) {
            return false;
        }
    }
    true
}

/// Whether a state has a value of its sort for each global.
pub fn starts(globals: &[Param], start: &State) -> bool
    ensures { IsTrue result ↔ StartFits globals.now start.now.values }
{
    values_fit(globals, start.values.as_slice())
}
