//! Tests of calls that no command shows, of commands over stores and sinks that fail, and worked examples of
//! the theorem. Rules and maps are made of texts.
#![tactic(auto)]

#[cfg(test)]
mod arena;
#[cfg(test)]
mod commands;
#[cfg(test)]
mod counted;
#[cfg(test)]
mod examples;
#[cfg(test)]
mod expect;
#[cfg(test)]
mod host;
#[cfg(test)]
mod matching;
#[cfg(test)]
mod pending;
#[cfg(test)]
mod planning;
#[cfg(test)]
mod text;
#[cfg(test)]
mod texts;
#[cfg(test)]
mod trials;
#[cfg(test)]
mod versions;
#[cfg(test)]
mod walks;
