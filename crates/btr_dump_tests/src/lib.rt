//! What no clause of `btr_dump` says, tested: blocks, trees and root lines of volumes in memory as text.
#![tactic(auto)]

#[cfg(test)]
mod texts;
