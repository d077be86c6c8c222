//! `ProjectSet`, the projects that a tenant lists under one connection.
ghost use Rattle.std.specs.Prelude.{◌≡◌, ℕ, List, true};

use crate::name_filter::NameFilter;
use gate_record::Memory;
use std::alloc::Global;
use std::collections::BTreeSet;

// The projects that a tenant lists under a connection, by name. Most names that are looked up aren't there, and for most of these
// the filter says so before the names are searched.
#[derive(Drop)]
pub(crate) struct ProjectSet {
    pub(crate) names: BTreeSet<String>,
    filter: NameFilter,
    ghost filtered: { AreFiltered names filter },
}

ghost use Rattle.gate_config.specs.Inner.Filters.{AreFiltered};

impl ProjectSet {
    ghost use Rattle.std.specs.Prelude.{IfOk, map, string_bytes};
    ghost use Rattle.gate_config.specs.Lookups.{has_project};
    ghost use Rattle.gate_config.specs.Names.{is_among};

    // Returns the set of these names, in which a name may stand more than once. The names are sorted once.
    pub(crate) fn new(alloc: Global, names: Vec<String>) -> Result<ProjectSet, Memory>
        ensures { IfOk result (λ projects. (name : List ℕ) → has_project projects name ≡ is_among (map string_bytes names.items) name) }
    {
        let filter = filter_of(names.as_slice());
        Ok(ProjectSet {
            names: BTreeSet::from_iter(alloc, names)?,
            filter,
        })
    }

    // Returns whether a project is listed. Names are compared byte by byte.
    pub(crate) fn contains(&self, name: &str) -> bool
        ensures { result ≡ has_project self.now name.now }
    {
        self.filter.passes(name) && self.names.contains(name)
    }
}

ghost use Rattle.std.specs.Prelude.{map, string_bytes};
ghost use Rattle.gate_config.specs.Names.{is_among};
ghost use Rattle.gate_config.specs.Inner.Filters.{passes};

// Returns a filter that all these names pass.
fn filter_of(names: &[String]) -> NameFilter
    ensures { (name : List ℕ) → is_among (map string_bytes names.now) name ≡ true → passes result name ≡ true }
{
    let mut filter = NameFilter::none();
    for name in names {
        filter.add(name.as_str());
    }
    filter
}
