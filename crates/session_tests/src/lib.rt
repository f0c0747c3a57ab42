//! Tests of sessions: statements one behind the other, with what each answers and what is held then. What a contract says isn't tested.
#![tactic(auto)]

#[cfg(test)]
mod sessions;
