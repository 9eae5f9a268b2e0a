//! A module for each subject.

mod counted;
mod pages;
mod plans;
