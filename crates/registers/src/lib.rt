// The lower crate of the bench box: numbers as they are written and answered, the settings of both channels,
// and the status record with its registers and its error queue.
//
// No public function has a `requires`: each says, for any input and any record, what it answers.
// The definitions that the contracts cite are in specs/, in the words of document 01.
#![tactic(auto)]

pub mod answer;
pub mod error;
pub mod group;
pub mod label;
pub mod number;
mod queue;
pub mod rounding;
pub mod settings;
pub mod setup;
pub mod status;
pub mod suffix;
pub mod text;
