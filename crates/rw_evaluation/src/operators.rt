//! What the operators of terms make of what was seen of their parts, the left one first.

ghost use Rattle.std.specs.Prelude.{◌≡◌, neg_ℤ};
ghost use Rattle.rw_terms.specs.State.{Whole, Cells, whole, cells};
ghost use Rattle.rw_terms.specs.Value.{div_floor, mod_floor};
ghost use Rattle.rw_evaluation.specs.Evaluation.{narrow, one, two, sum_of, difference_of, product_of, divided, cell_at, changed_at};
ghost use Rattle.rw_evaluation.specs.Stored.{meant, sight};

use crate::stop::{AbortCause, Stop};
use crate::value::Value;
use rw_items::Items;
use rw_terms::division::{quotient, rest};

/// What comes of a term, or of a part of it.
pub type Seen = Result<Value, Stop>;

/// The integer that a value counts as.
pub fn whole(value: &Value) -> i128
    ensures { result ≡ whole (meant value.now) }
{
    match value {
        Value::Int(n) => *n,
        Value::List(_) => 0,
    }
}

/// The negation.
pub fn negated(part: Seen) -> Seen
    ensures { sight result ≡ one (sight part) (λ u. narrow (neg_ℤ (whole u))) }
{
    match part {
        Err(stop) => Err(stop),
        Ok(value) => match whole(&value).checked_neg() {
            Some(n) => Ok(Value::Int(n)),
            None => Err(Stop::TooWide),
        },
    }
}

/// The sum.
pub fn sum(left: Seen, right: Seen) -> Seen
    ensures { sight result ≡ two (sight left) (sight right) sum_of }
{
    match (left, right) {
        (Err(stop), _) => Err(stop),
        (Ok(_), Err(stop)) => Err(stop),
        (Ok(a), Ok(b)) => match whole(&a).checked_add(whole(&b)) {
            Some(n) => Ok(Value::Int(n)),
            None => Err(Stop::TooWide),
        },
    }
}

/// The difference.
pub fn difference(left: Seen, right: Seen) -> Seen
    ensures { sight result ≡ two (sight left) (sight right) difference_of }
{
    match (left, right) {
        (Err(stop), _) => Err(stop),
        (Ok(_), Err(stop)) => Err(stop),
        (Ok(a), Ok(b)) => match whole(&a).checked_sub(whole(&b)) {
            Some(n) => Ok(Value::Int(n)),
            None => Err(Stop::TooWide),
        },
    }
}

/// The product.
pub fn product(left: Seen, right: Seen) -> Seen
    ensures { sight result ≡ two (sight left) (sight right) product_of }
{
    match (left, right) {
        (Err(stop), _) => Err(stop),
        (Ok(_), Err(stop)) => Err(stop),
        (Ok(a), Ok(b)) => match whole(&a).checked_mul(whole(&b)) {
            Some(n) => Ok(Value::Int(n)),
            None => Err(Stop::TooWide),
        },
    }
}

/// The quotient.
pub fn divided(left: Seen, right: Seen) -> Seen
    ensures { sight result ≡ two (sight left) (sight right) (divided div_floor) }
{
    match (left, right) {
        (Err(stop), _) => Err(stop),
        (Ok(_), Err(stop)) => Err(stop),
        (Ok(a), Ok(b)) => quotient_of(whole(&a), whole(&b)),
    }
}

fn quotient_of(dividend: i128, divisor: i128) -> Seen
    ensures { sight result ≡ divided div_floor (Whole dividend) (Whole divisor) }
{
    if divisor == 0 {
        return Err(Stop::Aborted(AbortCause::Division));
    }
    match quotient(dividend, divisor) {
        Some(n) => Ok(Value::Int(n)),
        None => Err(Stop::TooWide),
    }
}

/// The rest of the division.
pub fn rested(left: Seen, right: Seen) -> Seen
    ensures { sight result ≡ two (sight left) (sight right) (divided mod_floor) }
{
    match (left, right) {
        (Err(stop), _) => Err(stop),
        (Ok(_), Err(stop)) => Err(stop),
        (Ok(a), Ok(b)) => rest_of(whole(&a), whole(&b)),
    }
}

fn rest_of(dividend: i128, divisor: i128) -> Seen
    ensures { sight result ≡ divided mod_floor (Whole dividend) (Whole divisor) }
{
    if divisor == 0 {
        return Err(Stop::Aborted(AbortCause::Division));
    }
    Ok(Value::Int(rest(dividend, divisor)))
}

// The list that a value counts as.
fn cells(value: &Value) -> &[i128]
    ensures { result.now ≡ cells (meant value.now) }
{
    match value {
        Value::Int(_) => &[],
        Value::List(cells) => cells.as_slice(),
    }
}

/// The cell of an array at an index.
pub fn cell(array: Seen, index: Seen) -> Seen
    ensures { sight result ≡ two (sight array) (sight index) cell_at }
{
    match (array, index) {
        (Err(stop), _) => Err(stop),
        (Ok(_), Err(stop)) => Err(stop),
        (Ok(a), Ok(i)) => cell_of(cells(&a), whole(&i)),
    }
}

fn cell_of(cells: &[i128], index: i128) -> Seen
    ensures { sight result ≡ cell_at (Cells cells.now) (Whole index) }
{
    match usize::try_from(index) {
        Ok(at) => match cells.get(at) {
            Some(cell) => Ok(Value::Int(*cell)),
            None => Err(Stop::Aborted(AbortCause::Index)),
        },
        Err(_) => Err(Stop::Aborted(AbortCause::Index)),
    }
}

/// The array with another cell at an index.
pub fn changed(array: Seen, index: Seen, cell: Seen) -> Seen
    ensures { sight result ≡ two (sight array) (sight index) (λ u v. one (sight cell) (λ w. changed_at u v w)) }
{
    match (array, index, cell) {
        (Err(stop), _, _) => Err(stop),
        (Ok(_), Err(stop), _) => Err(stop),
        (Ok(_), Ok(_), Err(stop)) => Err(stop),
        (Ok(a), Ok(i), Ok(e)) => changed_in(a, whole(&i), whole(&e)),
    }
}

fn changed_in(array: Value, index: i128, cell: i128) -> Seen
    ensures { sight result ≡ changed_at (meant array) (Whole index) (Whole cell) }
{
    match array {
        Value::Int(_) => Err(Stop::Aborted(AbortCause::Index)),
        Value::List(cells) => changed_list(cells, index, cell),
    }
}

fn changed_list(cells: Items<i128>, index: i128, cell: i128) -> Seen
    ensures { sight result ≡ changed_at (Cells cells) (Whole index) (Whole cell) }
{
    let mut cells = cells;
    match usize::try_from(index) {
        Ok(at) => {
            if at < cells.len() {
                cells.set(at, cell);
                return Ok(Value::List(cells));
            }
            Err(Stop::Aborted(AbortCause::Index))
        }
        Err(_) => Err(Stop::Aborted(AbortCause::Index)),
    }
}
