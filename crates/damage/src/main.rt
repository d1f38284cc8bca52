//! A trial of the compiled calls on pools that are out of good order.
//!
//! A small pool is damaged in many ways, one node or one entry of its book at a time, and every call is made on a fresh
//! copy of each. The proofs say that every call answers and ends whatever the nodes and the book hold; this program
//! shows it of the machine code, and its counts show where damage is noticed and where it goes unseen.

#![tactic(auto)]

mod deed;
mod harm;
mod listing;
mod scene;
mod stock;
mod tally;
mod trial;

fn main(rt: HostRuntime) -> anyhow::Result<()> {
    trial::run(&rt)
}
