#![tactic(auto)]

//! Laws of the card manager, over the definitions alone: each function is a law, stated by its clause.

mod laws;

pub use laws::{
    each_answer_is_of_its_order, each_command_is_of_its_order, each_select_finds_its_application,
    manager_answers_by_order,
};
