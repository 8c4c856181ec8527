//! What no contract says: the lines as users see them, and streams that fail.

mod drive;
mod words;
