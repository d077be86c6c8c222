//! `Path`, where a fault stands in a document.
ghost use Rattle.std.specs.Prelude.{◌≡◌, IfOk};

use gate_record::{Sequence, Text};
use std::fmt;
use std::marker::Model;

/// A step into a document.
#[derive(Debug, Drop)]
pub enum Step {
    /// The step to the member of an object, by its key.
    Member(Text),
    /// The step to the item of a list, by its position, counted from 0.
    Item(usize),
}

/// The place of a value in a document: the steps to it, beginning at the whole document.
#[derive(Debug, Drop)]
pub struct Path {
    steps: Sequence<Step>,
}

impl Model for Path {
    ghost use Rattle.std.specs.Prelude.{List};
    ghost use Rattle.gate_config.specs.declared.path.Step.{Step};

    ghost Value = { List Step };

    ghost view = { λ p. p.steps };
}

impl Path {
    pub(crate) fn new(steps: Sequence<Step>) -> Path
        ensures { result ≡ steps }
    {
        Path { steps }
    }

    /// Returns the steps. The path to the whole document has none.
    pub fn steps(&self) -> &[Step]
        ensures { result.now ≡ self.now }
    {
        self.steps.as_slice()
    }
}

/// Prints the keys as they are, with `.` before each but the first step, and positions as `[n]`. The path to the whole document
/// is printed as the empty text.
impl fmt::Display for Path {
    ghost use Rattle.std.specs.Prelude.{Some};
    ghost use Rattle.gate_config.specs.Places.{place_text};

    ghost output = { λ path. Some (place_text path) };

    fn fmt<W: fmt::Write>(&self, f: &mut fmt::Formatter<W>) -> fmt::Result {
        let Some((first, others)) = self.steps().split_first() else {
            return Ok(());
        };
        let first = Shown {
            before: "",
            step: first,
        };
        write!(f, "{first}{}", Others(others))
    }
}

// The steps after the first one.
#[derive(Clone, Copy)]
struct Others<'a>(&'a [Step]);

impl fmt::Display for Others<'_> {
    ghost use Rattle.std.specs.Prelude.{Some, codes};
    ghost use Rattle.std.specs.List.{flat_map};
    ghost use Rattle.gate_config.specs.Places.{step_text};

    ghost output = { λ others. Some (flat_map (step_text (codes ".")) others.0.now) };

    fn fmt<W: fmt::Write>(&self, f: &mut fmt::Formatter<W>) -> fmt::Result {
        for step in self.0 {
            write!(f, "{}", Shown { before: ".", step })?;
        }
        Ok(())
    }
}

// A step, and the text before it if it is a key.
#[derive(Clone, Copy)]
struct Shown<'a> {
    before: &'a str,
    step: &'a Step,
}

impl fmt::Display for Shown<'_> {
    ghost use Rattle.std.specs.Prelude.{Some};
    ghost use Rattle.gate_config.specs.Places.{step_text};

    ghost output = { λ shown. Some (step_text shown.before.now shown.step.now) };

    fn fmt<W: fmt::Write>(&self, f: &mut fmt::Formatter<W>) -> fmt::Result {
        match self.step {
            Step::Member(key) => write!(f, "{}{}", self.before, key.as_str()),
            Step::Item(position) => write!(f, "[{position}]"),
        }
    }
}
