//! Tests of results of the libraries' public calls that no program shows. They are outside of the libraries, so these
//! are proved without them.
#![tactic(auto)]

#[cfg(test)]
mod api;
#[cfg(test)]
mod base;
#[cfg(test)]
mod cert;
#[cfg(test)]
mod class;
#[cfg(test)]
mod classes;
#[cfg(test)]
mod data;
#[cfg(test)]
mod desc;
#[cfg(test)]
mod head;
#[cfg(test)]
mod method;
#[cfg(test)]
mod package;
#[cfg(test)]
mod packages;
#[cfg(test)]
mod pool;
