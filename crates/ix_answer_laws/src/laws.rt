//! Laws of words, of what comes out of a text, and of answers: there is one at most, or none. Each function's contract is
//! the law; the bodies are empty.
ghost use Rattle.ix_answer_laws.specs.AnswerLaws.{AnswerIsOne, AnswerIsThere};
ghost use Rattle.ix_answer_laws.specs.CommandLaws.{CommandIsOne, CommandOrNone};
ghost use Rattle.ix_answer_laws.specs.OutcomeLaws.{OffsetIsOne, RefusalIsOne, RefusalOrNone};

/// Words have at most one outcome under what the files hold; so they have one status, one output and one message.
pub fn answer_is_one()
    ensures { AnswerIsOne }
{}

/// A text has at most one offset.
pub fn offset_is_one()
    ensures { OffsetIsOne }
{}

/// At most one code holds as the least, with one item.
pub fn refusal_is_one()
    ensures { RefusalIsOne }
{}

/// A code holds as the least, or none holds.
pub fn refusal_or_none()
    ensures { RefusalOrNone }
{}

/// Words ask for at most one command.
pub fn command_is_one()
    ensures { CommandIsOne }
{}

/// Words ask for a command, or have no form.
pub fn command_or_none()
    ensures { CommandOrNone }
{}

/// Words have an outcome where the files that they name are there; so they have a status, an output and a message.
pub fn answer_is_there()
    ensures { AnswerIsThere }
{}
