//! What no contract says: readers that fail or return single bytes, writers that fail, and the lines as users see
//! them.

mod inputs;
mod lines;
mod outputs;
