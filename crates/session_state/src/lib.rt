// What a session holds between two commands, and what carrying out one command is (specs/State.antt, specs/Carried.antt).
#![tactic(auto)]

mod state;

pub use state::State;
