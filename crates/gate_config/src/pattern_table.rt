//! `PatternTable`, which builds each pattern of a configuration once.
ghost use Rattle.std.specs.Prelude.{◌≡◌, IfErr, IfOk, IfSome};
ghost use Rattle.gate_rule.specs.Built.{IsNoPattern};
ghost use Rattle.gate_rule.specs.Pattern.{text_of};
ghost use Rattle.gate_config.specs.Inner.Keyed.{IsKeyed};

use gate_record::Memory;
use gate_rule::{Pattern, PatternFault};
use std::alloc::Global;
use std::collections::BTreeMap;

// The patterns of a configuration, by their texts. A text that stands in several rules is built once, and its pattern is shared.
#[derive(Drop)]
pub(crate) struct PatternTable {
    patterns: BTreeMap<String, Pattern>,
    ghost keyed: { IsKeyed patterns.entries },
}

impl PatternTable {
    pub(crate) fn new(alloc: Global) -> PatternTable {
        PatternTable {
            patterns: BTreeMap::new(alloc),
        }
    }

    // Returns the pattern of a text: the one that was built of it before, or a new one. The errors are those of `Pattern::new`.
    pub(crate) fn pattern(&mut self, alloc: Global, text: &str) -> Result<Pattern, PatternFault>
        ensures built { IfOk result (λ pattern. text_of pattern ≡ text.now) }
        ensures refused { IfErr result (IsNoPattern text.now) }
    {
        match self.find(text) {
            Some(pattern) => share(pattern),
            None => self.build(alloc, text),
        }
    }

    fn find(&self, text: &str) -> Option<&Pattern>
        ensures { IfSome result (λ pattern. text_of pattern.now ≡ text.now) }
    {
        self.patterns.get(text)
    }

    fn build(&mut self, alloc: Global, text: &str) -> Result<Pattern, PatternFault>
        ensures built { IfOk result (λ pattern. text_of pattern ≡ text.now) }
        ensures refused { IfErr result (IsNoPattern text.now) }
    {
        let pattern = Pattern::new(alloc, text)?;
        match self.keep(alloc, text, &pattern) {
            Ok(()) => Ok(pattern),
            Err(Memory) => Err(PatternFault::Memory),
        }
    }

    fn keep(&mut self, alloc: Global, text: &str, pattern: &Pattern) -> Result<(), Memory>
        requires { text_of pattern.now ≡ text.now }
    {
        let text = String::from_str(alloc, text)?;
        self.patterns.insert(text, pattern.share()?)?;
        Ok(())
    }
}

fn share(pattern: &Pattern) -> Result<Pattern, PatternFault>
    ensures same { IfOk result (λ shared. shared ≡ pattern.now) }
    ensures memory { IfErr result (λ fault. fault ≡ PatternFault.Memory) }
{
    match pattern.share() {
        Ok(shared) => Ok(shared),
        Err(Memory) => Err(PatternFault::Memory),
    }
}
