// Sheets over lent cells, for every kind of number alike: check, opening, posting, clearing, picking and showing.

#![tactic(auto)]

pub mod call;
mod cells;
mod columns;
mod finishing;
mod opening;
mod picking;
mod posting;
mod rounds;
pub mod shape;
pub mod sheet;
mod showing;
mod sums;
mod table;
pub mod theorems;
mod words;
