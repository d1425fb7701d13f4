//! What relations and connectives of guards make of what was seen of their parts, the left one first.

ghost use Rattle.std.specs.Prelude.{◌≡◌, ◌&&◌, ◌||◌, not, int_lt, int_le};
ghost use Rattle.rw_terms.specs.State.{whole};
ghost use Rattle.rw_evaluation.specs.Evaluation.{one, two, same_cells, same_value};
ghost use Rattle.rw_evaluation.specs.Stored.{meant, sight};

use crate::operators::{Seen, whole};
use crate::stop::Stop;
use crate::value::Value;

/// What comes of a guard, or of a part of it.
pub type Tested = Result<bool, Stop>;

fn same_cells(one: &[i128], other: &[i128]) -> bool
    ensures { result ≡ same_cells one.now other.now }
{
    one == other
}

fn same_value(one: &Value, other: &Value) -> bool
    ensures { result ≡ same_value (meant one.now) (meant other.now) }
{
    match (one, other) {
        (Value::Int(a), Value::Int(b)) => *a == *b,
        (Value::List(a), Value::List(b)) => same_cells(a.as_slice(), b.as_slice()),
        (Value::Int(_), Value::List(_)) => false,
        (Value::List(_), Value::Int(_)) => false,
    }
}

/// Whether they are equal.
pub fn equal(left: Seen, right: Seen) -> Tested
    ensures { result ≡ two (sight left) (sight right) (λ v w. Ok (same_value v w)) }
{
    match (left, right) {
        (Err(stop), _) => Err(stop),
        (Ok(_), Err(stop)) => Err(stop),
        (Ok(a), Ok(b)) => Ok(same_value(&a, &b)),
    }
}

/// Whether the left one is less.
pub fn less(left: Seen, right: Seen) -> Tested
    ensures { result ≡ two (sight left) (sight right) (λ v w. Ok (int_lt (whole v) (whole w))) }
{
    match (left, right) {
        (Err(stop), _) => Err(stop),
        (Ok(_), Err(stop)) => Err(stop),
        (Ok(a), Ok(b)) => Ok(whole(&a) < whole(&b)),
    }
}

/// Whether the left one is at most the right one.
pub fn at_most(left: Seen, right: Seen) -> Tested
    ensures { result ≡ two (sight left) (sight right) (λ v w. Ok (int_le (whole v) (whole w))) }
{
    match (left, right) {
        (Err(stop), _) => Err(stop),
        (Ok(_), Err(stop)) => Err(stop),
        (Ok(a), Ok(b)) => Ok(whole(&a) <= whole(&b)),
    }
}

/// The negation.
pub fn denied(part: Tested) -> Tested
    ensures { result ≡ one part (λ b. Ok (not b)) }
{
    match part {
        Err(stop) => Err(stop),
        Ok(b) => Ok(!b),
    }
}

/// Both.
pub fn both(left: Tested, right: Tested) -> Tested
    ensures { result ≡ two left right (λ b c. Ok (b && c)) }
{
    match (left, right) {
        (Err(stop), _) => Err(stop),
        (Ok(_), Err(stop)) => Err(stop),
        (Ok(b), Ok(c)) => Ok(b && c),
    }
}

/// One of them, or both.
pub fn either(left: Tested, right: Tested) -> Tested
    ensures { result ≡ two left right (λ b c. Ok (b || c)) }
{
    match (left, right) {
        (Err(stop), _) => Err(stop),
        (Ok(_), Err(stop)) => Err(stop),
        (Ok(b), Ok(c)) => Ok(b || c),
    }
}

/// The right one, if the left one.
pub fn implied(left: Tested, right: Tested) -> Tested
    ensures { result ≡ two left right (λ b c. Ok (not b || c)) }
{
    match (left, right) {
        (Err(stop), _) => Err(stop),
        (Ok(_), Err(stop)) => Err(stop),
        (Ok(b), Ok(c)) => Ok(!b || c),
    }
}
