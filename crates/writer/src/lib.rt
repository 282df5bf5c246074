// Writing the box of a sheet, part by part, by a job that has to be ended.
#![tactic(auto)]

mod fits;
mod job;
mod size;
mod steps;

pub use job::Job;
