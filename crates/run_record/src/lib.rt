//! A run record: the bytes of one run of the pixel step. `run::read` tests that they have the
//! right form, and reads the run that they hold: two cameras, the pose between them, the damping
//! and up to 512 points. `fields` names the parts of a record, `reader` hands out their payloads,
//! and `payload` has the numbers in them.
#![tactic(auto)]

mod fields;
mod payload;
mod reader;
pub mod run;
