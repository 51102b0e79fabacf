//! What `mucwathi` answers to a task, over texts: what is written, what is told, and the status.
#![tactic(auto)]

mod answer;
mod giving;
mod goals;
mod judging;
mod looking;
mod rewriting;

pub use answer::Answer;
pub use giving::answer_given;
pub use judging::answer_judging;
pub use looking::answer_looking;
pub use mucwathi_looks::Named;
pub use rewriting::answer_rewriting;
