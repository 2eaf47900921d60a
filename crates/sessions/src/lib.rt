// A session: one line in, its answer lines out.

#![tactic(auto)]

pub mod frame;
pub mod session;
mod sheet_calls;
pub mod theorems;
mod unpacked;
