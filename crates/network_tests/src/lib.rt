// Drafts, networks and libraries at both sides of each edge.
#![tactic(auto)]

#[cfg(test)]
mod drafts;
#[cfg(test)]
mod libraries;
