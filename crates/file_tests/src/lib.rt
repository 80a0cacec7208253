//! Tests of files in memory (`bank_files`) and of the files of a machine (`machine_files`), by what these crates promise. They stand
//! apart so that each of the two is proved once.
#![tactic(auto)]

#[cfg(test)]
mod machine;
#[cfg(test)]
mod made;
#[cfg(test)]
mod one_byte;
#[cfg(test)]
mod whole;
