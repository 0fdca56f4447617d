// The model's stored cases, in the form that model/src/store.rs describes: their fields, memory and
// state, and whether a reply is the one that a case expects. Nothing here calls the desk. Every
// function is proved safe and ending, on any bytes.
#![tactic(auto)]

pub mod answers;
pub mod difference;
pub mod fields;
pub mod memory;
pub mod snapshot;

use fields::Fields;

// The bytes before the first case.
pub const HEADER: usize = 24;

// Whether these are the bytes before the first case.
pub fn is_header(s: &[u8]) -> bool {
    s.len() == HEADER && s.starts_with(b"MIDESK01")
}

// The number of cases that a header gives.
pub fn number_of_cases(header: &[u8]) -> u64 {
    let mut fields = Fields::new(header);
    fields.part(8);
    u64::from(fields.word())
}
