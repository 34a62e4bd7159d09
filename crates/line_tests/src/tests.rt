//! The tests of the crates of lines, one file for each subject.
mod commands;
mod notes;
mod options;
mod outside;
mod streams;
mod workloads;
