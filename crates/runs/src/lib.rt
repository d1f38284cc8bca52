//! Calls as data: one call played, and a list of calls as one claim about what is answered and what the pool then holds.

#![tactic(auto)]

mod answer;
mod call;
mod playing;
mod refusal;
mod running;

pub use answer::{Answer, Reply};
pub use call::Call;
pub use playing::play;
pub use refusal::RunRefusal;
pub use running::play_all;
