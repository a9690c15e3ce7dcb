//! The builder of networks: the only place where gates are made.
//!
//! A `Builder` grows a network by gates. Each shape that is asked for goes through a rule book, and a gate that is
//! there already is not made again. Contracts see a builder as its network. Promised: a literal that is answered has the
//! value that was asked for, whatever the book holds, and no literal that was there has another value.
#![tactic(auto)]

mod building;
mod index;
mod part;
mod sum;

pub use building::Builder;
