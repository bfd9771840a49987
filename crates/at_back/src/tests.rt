//! Pieces of a transcript that are read.
mod pieces;
