#![tactic(auto)]
// The rules of a sheet, subject after subject and claim after claim.
pub mod cursor; // cursor.rt: from one claim to the next
pub mod order; // order.rt: what rules are about, read from the sheet once
pub mod subjects; // subjects.rt: what rules are about, and their claims by number
