//! A tile's copy of the sites that it holds: how it is brought up to date from the edges, what an
//! event leaves in it, and how that is published to the edges.
//!
//! A cell is an atom with the stamp of the event that left it. Of several cells of a site the newest
//! is the first with the greatest stamp. A tile that has an edge reads there the cells that are news
//! for its end, and no others.
#![tactic(auto)]

mod border;
mod cache;
mod cell;
mod cells;
mod masks;
mod news;
mod numbers;
mod places;
mod publish;
mod reached;
mod refresh;
mod row_runs;
mod rows;
mod view;

pub use cache::Cache;
