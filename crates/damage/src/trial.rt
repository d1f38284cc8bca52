use crate::deed::Deed;
use crate::harm::Harm;
use crate::listing::every_harm;
use crate::scene::Scene;
use crate::stock::{NODES, Pool};
use std::io;

const DEEDS: [Deed; 9] = [
    Deed::PutOld,
    Deed::PutNew,
    Deed::Look,
    Deed::Next,
    Deed::NextAfter,
    Deed::Remove,
    Deed::Clear,
    Deed::Count,
    Deed::Free,
];

// Shelves that there are: with four keys, with two, and with none.
const THERE: [u8; 3] = [0, 1, 7];

const MISSING: [u8; 2] = [8, 255];

/// Stocks a pool, and tries every call on it: sound and harmed, on shelves that there are and are not, after other
/// calls, and with a slice of another length.
pub(crate) fn run(rt: &HostRuntime) -> anyhow::Result<()> {
    let Some(pool) = Pool::stocked() else {
        rt.println("the pool could not be stocked")?;
        return Ok(());
    };
    let harms = every_harm(rt.alloc(), &pool.book)?;
    let every = harms.as_slice();
    println!(rt; "{} harms", every.len())?;
    let none = [Harm::Nothing];
    let sound = Scene::new(pool, &[]);
    table(rt, "sound", &sound, &none, &THERE)?;
    table(rt, "sound, no such shelf", &sound, &none, &MISSING)?;
    table(rt, "harmed", &sound, every, &THERE)?;
    table(rt, "harmed, no such shelf", &sound, every, &MISSING)?;
    let changed = Scene::new(pool, &[Deed::PutNew, Deed::Remove]);
    table(rt, "harmed, after put and remove", &changed, every, &THERE)?;
    let emptied = Scene::new(pool, &[Deed::Clear, Deed::PutNew]);
    table(rt, "harmed, after clear and put", &emptied, every, &THERE)?;
    let shorter = Scene::new(pool.of_length(NODES - 1), &[]);
    table(rt, "one node less", &shorter, every, &THERE)?;
    let longer = Scene::new(pool.of_length(NODES + 1), &[]);
    table(rt, "one node more", &longer, every, &THERE)?;
    rt.println("done")?;
    Ok(())
}

/// Prints a line for each call: how often it was answered in each way, over all harms and shelves.
fn table(
    rt: &HostRuntime,
    title: &str,
    scene: &Scene<'_>,
    harms: &[Harm],
    shelves: &[u8],
) -> io::Result<()> {
    println!(rt; "{title}:")?;
    for deed in DEEDS {
        println!(rt; "  {deed}: {}", scene.tally(harms, shelves, deed))?;
    }
    Ok(())
}
