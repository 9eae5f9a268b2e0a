//! Tests of whole networks with ample memory. The library is empty. Each test names a short plan and a table of rows,
//! and one harness walks a network of that plan through the table.
#![tactic(auto)]

#[cfg(test)]
mod tests;
