//! Examples of terms, formulas and programs, worked by hand: sorts, sizes, replacement, what is code, and what is printed.
#![tactic(auto)]

#[cfg(test)]
mod deepest;
#[cfg(test)]
mod printing;
#[cfg(test)]
mod programs;
#[cfg(test)]
mod substitution;
#[cfg(test)]
mod terms;
#[cfg(test)]
mod texts;
