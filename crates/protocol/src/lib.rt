// The line protocol of the comparison (compare/PROTOCOL.md): the words of a call, and the answer given, word by word. Contracts
// say where a word ends, what a value holds and that no word comes back; what is made of a text is not stated.
#![tactic(auto)]

pub mod filter;
pub mod given;
pub mod names;
pub mod values;
pub mod words;
