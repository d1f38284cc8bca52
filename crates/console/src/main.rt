//! The console: a script of calls on standard input, and the answer to each on standard output.

#![tactic(auto)]

mod session;
mod store;
mod task;
mod wording;

fn main(rt: HostRuntime) -> anyhow::Result<()> {
    session::run(&rt)
}
