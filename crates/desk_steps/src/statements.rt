// The statements of a deck, line by line.
ghost use Rattle.std.specs.Prelude.{◌≡◌, ◌≤◌};
ghost use Rattle.desk_steps.specs.Statements.{after_line, first_line, rest_after, statement_at, StandsAt};

use mc_text::{next_line, trim};

/// A text, what is left of it after some of its lines, and their number.
#[derive(Drop)]
pub struct Statements<'a> {
    pub text: &'a [u8],
    pub rest: &'a [u8],
    pub number: u32,
}

// The first line of a text, empty if it has none.
fn first_line(text: &[u8]) -> &[u8]
    ensures { result.now ≡ first_line text.now }
{
    match next_line(text) {
        Some((line, _)) => line,
        None => b"",
    }
}

// A text after its first line, empty if it has none.
fn after_line(text: &[u8]) -> &[u8]
    ensures { result.now ≡ after_line text.now }
{
    match next_line(text) {
        Some((_, rest)) => rest,
        None => b"",
    }
}

// A text after some of its lines.
fn rest_after(text: &[u8], count: u32) -> &[u8]
    ensures { result.now ≡ rest_after count text.now }
{
    let mut rest = text;
    for _line in 0..count {
        rest = after_line(rest);
    }
    rest
}

impl<'a> Statements<'a> {
    /// Returns the lines of a text.
    pub fn new(text: &'a [u8]) -> Statements<'a>
        ensures stands { StandsAt result }
        ensures text { result.text.now ≡ text.now }
    {
        Statements {
            text,
            rest: text,
            number: 0,
        }
    }

    // Goes back to the first line, if it is after some of them.
    fn go_back(&mut self, number: u32)
        requires { StandsAt self.old }
        ensures stands { StandsAt self.new }
        ensures text { self.new.text.now ≡ self.old.text.now }
        ensures before { self.new.number ≤ number }
    {
        if self.number > number {
            self.rest = self.text;
            self.number = 0;
        }
    }

    // Goes on after some more lines.
    fn go_on(&mut self, number: u32)
        requires stands { StandsAt self.old }
        requires before { self.old.number ≤ number }
        ensures text { self.new.text.now ≡ self.old.text.now }
        ensures rest { self.new.rest.now ≡ rest_after number self.old.text.now }
        ensures number { self.new.number ≡ number }
    {
        self.rest = rest_after(self.rest, number - self.number);
        self.number = number;
    }

    /// Returns the statement of the line of a number from 1 on: without blanks at both ends, and empty if there is none.
    pub fn statement(&mut self, number: u32) -> &'a [u8]
        requires { StandsAt self.old }
        ensures value { result.now ≡ statement_at number self.old.text.now }
        ensures stands { StandsAt self.new }
        ensures text { self.new.text.now ≡ self.old.text.now }
    {
        let before = number.saturating_sub(1);
        self.go_back(before);
        self.go_on(before);
        trim(first_line(self.rest))
    }
}
