//! Tests of the libraries: an example of each rule, worked out by hand; and the adapters to the files and the streams of a host, over real files.
#![tactic(auto)]

#[cfg(test)]
mod armv6m;
#[cfg(test)]
mod expect;
#[cfg(test)]
mod host;
#[cfg(test)]
mod images;
#[cfg(test)]
mod memory;
#[cfg(test)]
mod readers;
