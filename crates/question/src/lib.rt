// Document 01's question file: numbers in bytes, the pairs, the reader, the bodies with their forms, refusals 10 to 12, and the call that a body stands
// for, made in place and by value. Each function answers for every list of bytes.
#![tactic(auto)]

pub mod body;
pub mod bytes;
pub mod event;
pub mod file;
pub mod reader;
pub mod start;
pub mod types;
pub mod verdict;
