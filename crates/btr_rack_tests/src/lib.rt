//! What no clause of `btr_rack` says, tested: that calls succeed, and what the real files and folders do.
#![tactic(auto)]

#[cfg(test)]
mod files;
#[cfg(test)]
mod folder;
#[cfg(test)]
mod images;
#[cfg(test)]
mod places;
#[cfg(test)]
mod reading;
#[cfg(test)]
mod rows;
