//! Each module is about one kind of text.

mod locate;
mod script;
mod service;
