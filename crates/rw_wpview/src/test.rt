/// The tests of a program's parts.
#[derive(Clone, Copy, Debug, PartialEq, Eq)]
pub enum Test {
    Uneven,
    Initial,
    Known,
    NotCode,
    Outside,
    Ill,
    Twice,
}
