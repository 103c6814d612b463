//! Views that are read, and views that are built.

mod arena;
mod built;
mod read;
