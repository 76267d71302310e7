// What a call can answer: why it can be refused, and the number under which each reason is published.

#![tactic(auto)]

mod answer;
mod refusal;

pub use answer::Answer;
pub use refusal::Refusal;
