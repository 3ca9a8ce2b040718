//! Tests of whole runs of the transcoder, and of the sentences that are said of refusals, over public calls of jx_transcode,
//! jx_rounds and jx_messages.
//! They show what the program can't: calls of a device that fail, what a report tells, gates and planners. What it can is in tests/tables.
#![tactic(auto)]

#[cfg(test)]
mod bytes;
#[cfg(test)]
mod checks;
#[cfg(test)]
mod crowd_tests;
#[cfg(test)]
mod device_tests;
#[cfg(test)]
mod gate_tests;
#[cfg(test)]
mod layer_tests;
#[cfg(test)]
mod make_tests;
#[cfg(test)]
mod refusal_tests;
#[cfg(test)]
mod run_tests;
#[cfg(test)]
mod runs;
#[cfg(test)]
mod same_tests;
#[cfg(test)]
mod say_tests;
#[cfg(test)]
mod style_tests;
#[cfg(test)]
mod writer_tests;
