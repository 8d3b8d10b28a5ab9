//! Tests over a site in memory, by public calls alone: what a plain volume reads, opens and keeps where each of its calls
//! is stopped, what a recovery makes of a site, stopped or not, and what whole runs of a script answer and leave.
#![tactic(auto)]

#[cfg(test)]
mod tests;
