// Worked examples of the crates below, as tests: each is proved safe, and then run.

#![tactic(auto)]

#[cfg(test)]
mod kinds_cases;
#[cfg(test)]
mod lent_cases;
#[cfg(test)]
mod lines_cases;
#[cfg(test)]
mod sessions_cases;
