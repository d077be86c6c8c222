//! `Generations`, the configurations that come into force one after another while a run goes on.
ghost use Rattle.std.specs.Prelude.{◌≡◌, ◌<◌, ℕ, length};
ghost use Rattle.gate_config.specs.InForce.{AreAlike, in_force};
ghost use Rattle.gate_config.specs.Limits.{most_generations};

use crate::config::Config;
use gate_record::Sequence;
use std::alloc::Global;

/// The generations of a configuration, numbered from 0. There are at least one and at most `MAX_GENERATIONS` (this project's
/// profile). All have the same connections, tenants, listed connections, pipelines, managers and jobs, so code that needs only
/// these asks the first generation. The projects that are listed and the rules may differ.
#[derive(Drop)]
pub struct Generations {
    pub(crate) first: Config,
    pub(crate) later: Sequence<Config>,
    pub ghost few_later: { length later < most_generations },
    pub ghost alike: { (g : ℕ) → AreAlike first (in_force first later g) },
}

impl Generations {
    ghost use Rattle.gate_config.specs.Generations.{config_at, count_of};

    /// Returns a configuration that never changes: one generation. It takes no memory.
    pub fn of(alloc: Global, config: Config) -> Generations
        ensures first { result.first ≡ config }
        ensures always { (g : ℕ) → config_at result g ≡ config }
        ensures alone { count_of result ≡ 1 }
    {
        Generations {
            first: config,
            later: Sequence::empty(alloc),
        }
    }

    /// Returns the first generation.
    pub fn first(&self) -> &Config
        ensures { result.now ≡ self.now.first }
    {
        &self.first
    }

    /// Returns how many generations there are, at least 1.
    pub fn count(&self) -> u32
        ensures { result ≡ count_of self.now }
    {
        self.later.len() as u32 + 1
    }

    /// Returns the generation of this number, counted from 0. A number out of range means the first generation.
    pub fn generation(&self, g: u32) -> &Config
        ensures { result.now ≡ config_at self.now g }
    {
        match g.checked_sub(1) {
            Some(place) => self.later.get(place as usize).unwrap_or(&self.first),
            None => &self.first,
        }
    }
}
