//! Tables of tests over calls that need no run of a script. What a contract says isn't tested, nor what the stored run of the program
//! goes through.
#![tactic(auto)]

#[cfg(test)]
mod answers;
#[cfg(test)]
mod calls;
#[cfg(test)]
mod candidates;
#[cfg(test)]
mod dependent;
#[cfg(test)]
mod disk;
#[cfg(test)]
mod joined;
#[cfg(test)]
mod loading;
#[cfg(test)]
mod moved;
#[cfg(test)]
mod rewritten;
#[cfg(test)]
mod smaller;
#[cfg(test)]
mod trees;
