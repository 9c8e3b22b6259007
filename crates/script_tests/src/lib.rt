//! What no clause says of texts and of what they come from and go to: `match_script`, `match_report`, `script_maker` and
//! `tn_outside`; and what clients see in a whole match. It has no code but its tests, and nothing stands on it.
#![tactic(auto)]

#[cfg(test)]
mod lines;
#[cfg(test)]
mod made;
#[cfg(test)]
mod scripts;
#[cfg(test)]
mod system;
#[cfg(test)]
mod walk;
