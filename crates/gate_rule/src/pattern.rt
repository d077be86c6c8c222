//! `Pattern`, a regular expression of a trigger rule, and the two ways in which a text is searched for it.
ghost use Rattle.std.specs.Prelude.{◌≡◌, IfErr, IfOk, Some};
ghost use Rattle.regex.specs.Strings.{regex_source};
ghost use Rattle.gate_rule.specs.Built.{IsNoPattern, IsReadByDefault};
ghost use Rattle.gate_rule.specs.Inner.Built.{IsNotBuilt};
ghost use Rattle.gate_rule.specs.FaultText.{fault_text};

use crate::matcher::Matcher;
use gate_record::{Memory, Shared};
use regex::Regex;
use std::alloc::Global;
use std::error::Error;
use std::fmt;

/// A pattern of a trigger rule, in the syntax of `regex` under its default options. Several owners can share the compiled
/// expression.
#[derive(Drop)]
pub struct Pattern {
    regex: Shared<Regex>,
    pub ghost built: { ∥ IsReadByDefault regex ∥₁ },
}

/// Why a text became no pattern.
#[derive(Clone, Copy, Debug, PartialEq, Eq)]
pub enum PatternFault {
    /// Memory was refused.
    Memory,
    /// The grammar of `regex` doesn't read the text, or the compiled expression would be too large.
    Refused,
}

// Why `regex` built nothing. Proofs need the two causes of `PatternFault::Refused` apart.
pub(crate) enum BuildFault {
    Memory,
    // The grammar of `regex` doesn't read the text, or the expression nests too deep.
    Unread,
    // The compiled expression would be too large.
    TooLarge,
}

impl fmt::Display for PatternFault {
    ghost output = { λ fault. Some (fault_text fault) };

    fn fmt<W: fmt::Write>(&self, f: &mut fmt::Formatter<W>) -> fmt::Result {
        f.write_str(match self {
            PatternFault::Memory => "memory",
            PatternFault::Refused => "refused",
        })
    }
}

impl Error for PatternFault {}

impl Pattern {
    ghost use Rattle.gate_rule.specs.Pattern.{text_of, tree_of, tree_in, front, within};

    /// Builds the pattern of a text. The error is `Memory` when memory is refused, and `Refused` when `regex` refuses the text.
    pub fn new(alloc: Global, text: &str) -> Result<Pattern, PatternFault>
        ensures built { IfOk result (λ pattern. text_of pattern ≡ text.now) }
        ensures refused { IfErr result (IsNoPattern text.now) }
    {
        match build(alloc, text) {
            Ok(regex) => match Shared::new(alloc, regex) {
                Ok(regex) => Ok(Pattern { regex }),
                Err(Memory) => Err(PatternFault::Memory),
            },
            Err(BuildFault::Memory) => Err(PatternFault::Memory),
            Err(BuildFault::Unread | BuildFault::TooLarge) => Err(PatternFault::Refused),
        }
    }

    /// Returns another owner of the same pattern, which isn't built anew. `Memory` means here that the reference count is at its
    /// limit.
    pub fn share(&self) -> Result<Pattern, Memory>
        ensures { IfOk result (λ pattern. pattern ≡ self.now) }
    {
        Ok(Pattern {
            regex: self.regex.share()?,
        })
    }

    /// Returns the text that the pattern was built from.
    pub fn text(&self) -> &str
        ensures { result.now ≡ text_of self.now }
    {
        self.regex.get().as_str()
    }

    /// Returns a matcher, with which many texts can be tried without further memory.
    pub fn matcher(&self, alloc: Global) -> Result<Matcher<'_>, Memory>
        ensures { IfOk result (λ matcher. tree_in matcher ≡ tree_of self.now) }
    {
        Ok(Matcher {
            searches: self.regex.get().matcher(alloc)?,
        })
    }

    /// Returns whether the first match that `regex` finds in the text begins at byte 0. The match need not end at the last byte.
    pub fn front(&self, alloc: Global, text: &str) -> Result<bool, Memory>
        ensures { IfOk result (λ found. found ≡ front self.now text.now) }
    {
        Ok(self.matcher(alloc)?.front(text))
    }

    /// Returns whether `regex` finds a match anywhere in the text.
    pub fn within(&self, alloc: Global, text: &str) -> Result<bool, Memory>
        ensures { IfOk result (λ found. found ≡ within self.now text.now) }
    {
        Ok(self.matcher(alloc)?.within(text))
    }
}

// Builds the expression of a text under the default options of `regex`.
fn build(alloc: Global, text: &str) -> Result<Regex, BuildFault>
    ensures source { IfOk result (λ regex. regex_source regex ≡ text.now) }
    ensures by_default { IfOk result IsReadByDefault }
    ensures not_built { IfErr result (IsNotBuilt text.now) }
{
    match Regex::new(alloc, text) {
        Ok(regex) => Ok(regex),
        Err(regex::Error::OutOfMemory) => Err(BuildFault::Memory),
        Err(regex::Error::Syntax(_)) => Err(BuildFault::Unread),
        Err(regex::Error::CompiledTooBig) => Err(BuildFault::TooLarge),
        Err(regex::Error::Internal) => unreachable!(),
    }
}
