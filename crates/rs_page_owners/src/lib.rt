//! Pages shared by owners: each page of a file is one owner's, or free.
//!
//! An owner's pages are told by how often each number is its own, so that owners add up. What one owner does to its
//! pages leaves those of all others and the free list.
#![tactic(auto)]

pub mod laws;
