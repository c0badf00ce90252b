// The manager's table by the name of a command, and what the answers to each command make.
ghost use Rattle.law_manager.specs.Laws.{AnswersLaw, CommandsLaw, OrderLaw, SelectsLaw};

/// The manager answers a command of class BE as the command that its INS names, and refuses any other.
pub fn manager_answers_by_order()
    ensures { OrderLaw }
{}

/// Each answer of the manager is a refusal, or what its command does if no refusal holds: a command without items, the
/// pieces of the open load, a creation or a deletion.
pub fn each_answer_is_of_its_order()
    ensures { AnswersLaw }
{}

/// On a card each of these makes plain items alone, but for the atomic write that ends a creation and the one of a
/// deletion.
pub fn each_command_is_of_its_order()
    ensures { CommandsLaw }
{}

/// A SELECT is refused, or selects an application that is on the card, with zeros as its session bytes.
pub fn each_select_finds_its_application()
    ensures { SelectsLaw }
{}
