//! A module for each command: files and lines go in, and their texts are compared.

mod check;
mod init;
mod step;
mod trace;
mod tree;
