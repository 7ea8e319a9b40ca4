ghost use Rattle.std.specs.Prelude.{Some};
ghost use Rattle.text.specs.Answers.{answer_line};

use std::fmt;
use strip::refusal::Refusal;

/// What a judgement came to, to be shown: yes, no, or why there is none. `Result` has no `Display`.
#[derive(Clone, Copy)]
pub struct Verdict(pub Result<bool, Refusal>);

impl fmt::Display for Verdict {
    ghost output = { λ verdict. Some (answer_line verdict.0) };

    fn fmt<W: fmt::Write>(&self, f: &mut fmt::Formatter<W>) -> fmt::Result {
        match self.0 {
            Ok(true) => f.write_str("yes"),
            Ok(false) => f.write_str("no"),
            Err(refusal) => write!(f, "{refusal}"),
        }
    }
}
