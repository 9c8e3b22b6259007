//! What no clause says of serving and joining over a link: rows of what comes and what is sent and written, that all of it comes whole
//! where there is memory, and that `run` makes the datagrams of a served match again. It has no code but its tests, and nothing stands
//! on it.
#![tactic(auto)]

#[cfg(test)]
mod again;
#[cfg(test)]
mod failing;
#[cfg(test)]
mod hostile;
#[cfg(test)]
mod joining;
#[cfg(test)]
mod rows;
#[cfg(test)]
mod served;
