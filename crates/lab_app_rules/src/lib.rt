#![tactic(auto)]

//! The rules of one application as values, and the rules of the definition that they are.

mod rules;

pub use rules::{
    Always, Amount, Balance, CodeLine, Effect, Event, Load, Named, On, Rules, SignedSum,
};
