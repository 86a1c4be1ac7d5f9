//! Tests of what texts are made of, devices, words of the program, classes, the language of scenarios, the ownership checker and
//! the generator, over their public calls; and the definition of faults computed on worked texts.
#![tactic(auto)]

#[cfg(test)]
mod check_tests;
#[cfg(test)]
mod class_tests;
#[cfg(test)]
mod command_tests;
#[cfg(test)]
mod device_tests;
#[cfg(test)]
mod fault_tests;
#[cfg(test)]
mod generator_tests;
#[cfg(test)]
mod limit_tests;
#[cfg(test)]
mod long_tests;
#[cfg(test)]
mod tests;
#[cfg(test)]
mod word_tests;
mod worked;
#[cfg(test)]
mod worked_tests;

pub use worked::worked_faults;
