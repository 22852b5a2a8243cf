//! Public calls of `feast_base`, each once, and streams that fail. The crate has only tests; they are
//! above `feast_base`, so that it is proved once.
#![tactic(auto)]

#[cfg(test)]
mod calls;
#[cfg(test)]
mod streams;
