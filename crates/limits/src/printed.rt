// The answers in words.
ghost use Rattle.std.specs.Prelude.{◌≡◌, Some};
ghost use Rattle.std.specs.Fmt.{styled_text};
ghost use Rattle.limits.specs.Words.{words};

use crate::answer::Answer;
use std::fmt;

fn words(answer: Answer) -> &'static str
    ensures { result.now ≡ words answer }
{
    match answer {
        Answer::Done => "done",
        Answer::ZeroSample => "zero sample",
        Answer::BadSample => "bad sample",
        Answer::BadInterval => "bad interval",
        Answer::BadSetting => "bad setting",
        Answer::Singular => "no inverse",
        Answer::NotFinite => "not finite",
    }
}

impl fmt::Display for Answer {
    ghost output = { λ a. Some (words a) };

    ghost styled_output = { λ a s. Some (styled_text s (words a)) };

    fn fmt<W: fmt::Write>(&self, f: &mut fmt::Formatter<W>) -> fmt::Result {
        f.pad(words(*self))
    }
}
