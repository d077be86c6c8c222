//! Compares two configurations in all that the generations of one configuration must have in common.
ghost use Rattle.std.specs.Prelude.{◌≡◌, Bool};
ghost use Rattle.std.specs.Bool.{Decides};
ghost use Rattle.std.specs.Cmp.Lexicographic.{pointwise};
ghost use Rattle.std.specs.Str.{bytes_eq};
ghost use Rattle.gate_config.specs.Inner.Comparing.{agree_at, same_jobs, same_listing, same_manager, same_pipeline, same_tenant};
ghost use Rattle.gate_config.specs.Inner.Structures.{structure_in};

use crate::config::{Config, PipelineSpec, TenantSpec};
use crate::jobs::Jobs;
use crate::project_set::ProjectSet;
use gate_record::{ManagerKind, Text};

// Returns whether two configurations differ at most in the projects that are listed and in the rules. It takes no memory.
pub(crate) fn are_alike(first: &Config, other: &Config) -> bool
    ensures { Decides result (structure_in other.now ≡ structure_in first.now) }
{
    all_alike(first.connections(), other.connections())
        && all_alike(first.tenants(), other.tenants())
}

// A part of a configuration, which is compared with the same part of another one.
trait Part {
    ghost same: { Self → Self → Bool };

    fn is_alike(&self, other: &Self) -> bool
        ensures { result ≡ same self.now other.now };
}

// Returns whether there are as many parts in both lists, and each is alike to the one at the same place.
fn all_alike<P: Part>(first: &[P], other: &[P]) -> bool
    ensures { result ≡ pointwise P.same first.now other.now }
{
    let mut rest = other;
    for part in first {
        match rest.split_first() {
            Some((next, more)) if part.is_alike(next) => rest = more,
            _ => return false,
        }
    }
    rest.is_empty()
}

impl Part for Text {
    ghost same = { bytes_eq };

    fn is_alike(&self, other: &Text) -> bool {
        self.as_str() == other.as_str()
    }
}

impl Part for TenantSpec {
    ghost same = { same_tenant };

    fn is_alike(&self, other: &TenantSpec) -> bool {
        self.name.is_alike(&other.name)
            && all_alike(self.sources.as_slice(), other.sources.as_slice())
            && all_alike(self.pipelines.as_slice(), other.pipelines.as_slice())
            && all_alike(self.jobs.as_slice(), other.jobs.as_slice())
    }
}

// Either both tenants list the connection, or neither does. The projects that are listed under it may differ.
impl Part for Option<ProjectSet> {
    ghost same = { same_listing };

    fn is_alike(&self, other: &Option<ProjectSet>) -> bool {
        self.is_some() == other.is_some()
    }
}

// The rules of the pipelines may differ.
impl Part for PipelineSpec {
    ghost same = { same_pipeline };

    fn is_alike(&self, other: &PipelineSpec) -> bool {
        self.name.is_alike(&other.name) && self.manager.is_alike(&other.manager)
    }
}

impl Part for ManagerKind {
    ghost same = { same_manager };

    fn is_alike(&self, other: &ManagerKind) -> bool {
        match self {
            ManagerKind::Independent => matches!(other, ManagerKind::Independent),
            ManagerKind::Dependent => matches!(other, ManagerKind::Dependent),
        }
    }
}

// Each project that has jobs in one of the two has the same jobs in the other.
impl Part for Jobs {
    ghost same = { same_jobs };

    fn is_alike(&self, other: &Jobs) -> bool {
        agree_at(self, other, self) && agree_at(self, other, other)
    }
}

// Returns whether the first two have the same jobs for each project that has jobs in the third.
fn agree_at(first: &Jobs, other: &Jobs, projects: &Jobs) -> bool
    ensures { result ≡ agree_at first.now other.now projects.now }
{
    for project in projects.lists.keys() {
        if !all_alike(first.of(project.as_str()), other.of(project.as_str())) {
            return false;
        }
    }
    true
}
