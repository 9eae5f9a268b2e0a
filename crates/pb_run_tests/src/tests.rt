//! Runs, a table each.

mod activity;
mod carried;
mod counts;
mod devices;
mod draft;
mod explained;
mod frames;
mod gates;
mod guests;
mod lanes;
mod meetings;
mod networks;
mod plans;
mod refused;
mod runs;
mod spanning;
mod stops;
mod streams;
mod taps;
mod told;
mod wishes;
