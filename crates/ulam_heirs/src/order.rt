//! An order in which to go through the classes.

use crate::line::base_in;
use feast_base::NoMemory;
use std::alloc::Global;

/// The heirs of each class as a chain: the first of them, and the next heir of its own base. The
/// classes without a base are a chain too, whose first stands last.
#[derive(Drop)]
struct Chains {
    first: Vec<Option<usize>>,
    next: Vec<Option<usize>>,
}

/// Puts a number at an index: what was there.
fn put(numbers: &mut Vec<Option<usize>>, index: usize, number: Option<usize>) -> Option<usize> {
    match numbers.get_mut(index) {
        Some(slot) => {
            let was = *slot;
            *slot = number;
            was
        }
        None => None,
    }
}

/// The heirs of all classes.
fn heir_chains(alloc: Global, bases: &[Option<usize>]) -> Result<Chains, NoMemory> {
    let mut next = Vec::from_elem(alloc, None, bases.len())?;
    let mut first = Vec::from_elem(alloc, None, bases.len())?;
    first.push(None)?;
    let mut class = bases.len();
    'turns: for _turn in 0..bases.len() {
        class = class.saturating_sub(1);
        let over = match base_in(bases, class) {
            Some(base) => base,
            None => bases.len(),
        };
        let was = put(&mut first, over, Some(class));
        put(&mut next, class, was);
    }
    Ok(Chains { first, next })
}

/// Adds a number, if there is one.
fn add(todo: &mut Vec<usize>, number: Option<usize>) -> Result<(), NoMemory> {
    if let Some(number) = number {
        todo.push(number)?;
    }
    Ok(())
}

/// Finds the classes of these chains, from those that are to do on.
fn go_through(
    chains: &Chains,
    found: &mut Vec<usize>,
    todo: &mut Vec<usize>,
) -> Result<(), NoMemory> {
    'turns: for _turn in 0..chains.next.len() {
        let Some(class) = todo.pop() else {
            return Ok(());
        };
        found.push(class)?;
        add(todo, base_in(chains.next.as_slice(), class))?;
        add(todo, base_in(chains.first.as_slice(), class))?;
    }
    Ok(())
}

/// The classes in an order in which right after each come its heirs, each with its own.
pub fn tree_order(alloc: Global, bases: &[Option<usize>]) -> Result<Vec<usize>, NoMemory> {
    let chains = heir_chains(alloc, bases)?;
    let mut found = Vec::new(alloc);
    let mut todo = Vec::new(alloc);
    add(&mut todo, base_in(chains.first.as_slice(), bases.len()))?;
    go_through(&chains, &mut found, &mut todo)?;
    Ok(found)
}
