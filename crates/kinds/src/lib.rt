// Kinds of number: the trait with its laws, the two kinds, whole and weekday, and theorems about the laws.

#![tactic(auto)]

pub mod kind;
pub mod theorems;
pub mod weekday;
pub mod whole;
