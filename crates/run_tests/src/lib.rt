//! Tables of tests over runs of scripts. What a contract says isn't tested, nor what the stored run of the program goes through.
#![tactic(auto)]

#[cfg(test)]
mod explained;
#[cfg(test)]
mod failing;
#[cfg(test)]
mod impacts;
#[cfg(test)]
mod limits;
#[cfg(test)]
mod runs;
#[cfg(test)]
mod scripts;
#[cfg(test)]
mod unfailing;
