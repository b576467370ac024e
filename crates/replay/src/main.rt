//! Plays a script of calls on books and a session, and prints an answer to each.
//!
//! The script comes from standard input, one call to a line. `docs/REPLAY.md` has the calls, their answers and the states.
#![tactic(auto)]

mod answer;
mod line;
mod play;
mod player;
mod script;
mod weighing;

fn main(rt: HostRuntime) -> anyhow::Result<()> {
    play::play(&rt)
}
