// The values of answers, as programs print them.
#![tactic(auto)]

ghost use Rattle.std.specs.Prelude.{◌≡◌};
ghost use Rattle.rules.specs.Answers.{answer_value};
ghost use Rattle.answers.specs.Numbers.{message_number};

use rules::Answer;

// The value of an answer that is one number, and 0 of any other.
pub fn answer_value(a: Answer) -> u64
    ensures { result ≡ answer_value a }
{
    match a {
        Answer::Number(n) => n,
        Answer::Flag(b) => u64::from(b),
        _ => 0,
    }
}

// The message number of an answer, 0 where it has none.
pub fn message_number(a: Answer) -> u64
    ensures { result ≡ message_number a }
{
    if let Answer::Number(n) = a { n } else { 0 }
}
