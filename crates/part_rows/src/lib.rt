//! Rows of the parts below the top call: of links over rings and over TCP, of streams, of the buffers that messages
//! lie in, of packed words, of the tables of sockets and of call ids, and of clients over both. There is nothing here
//! but tests.
//!
//! They stand above the crates that they try, so that these aren't proved a second time with their tests; that public
//! calls succeed with ample memory is shown here and nowhere else.
#![tactic(auto)]

#[cfg(test)]
mod adapters;
#[cfg(test)]
mod buffers;
#[cfg(test)]
mod callers;
#[cfg(test)]
mod halves;
#[cfg(test)]
mod ids;
#[cfg(test)]
mod printing;
#[cfg(test)]
mod rings;
#[cfg(test)]
mod sockets;
#[cfg(test)]
mod tcp;
#[cfg(test)]
mod words;
#[cfg(test)]
mod writes;
