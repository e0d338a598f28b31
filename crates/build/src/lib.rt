// What is made of what was read: rows over one token or over rows, records, keys, and operators once their operands are read.
#![tactic(auto)]

pub mod cursor;
pub mod keys;
pub mod operation;
