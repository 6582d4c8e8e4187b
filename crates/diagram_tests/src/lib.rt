//! Tests of a builder over every kind, by terms whose meaning is known. They stand apart from `diagram`, so that neither waits for the
//! other's proofs.
#![tactic(auto)]

#[cfg(test)]
mod causes;
#[cfg(test)]
mod contents;
#[cfg(test)]
mod halves;
#[cfg(test)]
mod meanings;
#[cfg(test)]
mod nodes;
#[cfg(test)]
mod parts;
#[cfg(test)]
mod products;
#[cfg(test)]
mod sums;
#[cfg(test)]
mod terms;
