//! Tests of what is written and read as lines. Of the log: the line of each report, the text of each fault, and
//! numbers, flows and octets. Of inputs, each row of a text a case: what lines are read as, the ends of numbers, the
//! first fault of a line, the stages of an input. And made schedules, and traces.
#![tactic(auto)]

#[cfg(test)]
mod fault_texts;
#[cfg(test)]
mod faults;
#[cfg(test)]
mod forms;
#[cfg(test)]
mod lines;
#[cfg(test)]
mod numbers;
#[cfg(test)]
mod reports;
#[cfg(test)]
mod schedules;
#[cfg(test)]
mod stages;
#[cfg(test)]
mod traces;
#[cfg(test)]
mod values;
#[cfg(test)]
mod words;
#[cfg(test)]
mod writing;
