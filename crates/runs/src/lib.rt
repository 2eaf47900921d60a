// A run: any list of calls on one sheet from its opening on, each on memory of its own, and every answer.

#![tactic(auto)]

pub mod run;
pub mod step;
pub mod theorems;
