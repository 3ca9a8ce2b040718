//! Tests of the words of command lines, of planners of layers, of plans, and of tiles that are put together, over public calls of
//! jx_cli, jx_layers, jx_plan, jx_tile_parts and jx_tier2_writer, of what the program can't show; tests/tables has the others. They stand in a crate of their own: an edit here proves
//! no library anew, and their check proves none once more.
#![tactic(auto)]

#[cfg(test)]
mod assemble_tests;
#[cfg(test)]
mod checks;
#[cfg(test)]
mod hex;
#[cfg(test)]
mod index_tests;
#[cfg(test)]
mod layer_tests;
#[cfg(test)]
mod parting_tests;
#[cfg(test)]
mod plan_tests;
#[cfg(test)]
mod planned;
#[cfg(test)]
mod profile_tests;
#[cfg(test)]
mod table;
#[cfg(test)]
mod values;
#[cfg(test)]
mod words_tests;
