// Bytes in and out, for every file format of the analyser: record headers, bytes copied in, records written one behind the other, what a call returns.
#![tactic(auto)]

pub mod copy;
pub mod header;
pub mod records;
pub mod returned;
