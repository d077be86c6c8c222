//! `Jobs`, which jobs one pipeline runs for which projects.
ghost use Rattle.std.specs.Prelude.{◌≡◌, ℕ, List, [], OnOk, map, if◌then◌else◌};
ghost use Rattle.std.specs.List.{filter_map};
ghost use Rattle.std.specs.Str.{bytes_eq};
ghost use Rattle.serde_json.specs.View.{view};

use crate::job_list::JobList;
use crate::names::name_in;
use gate_record::{Memory, Text};
use serde_json::Value;
use std::alloc::Global;
use std::collections::BTreeMap;

// The jobs that one pipeline runs for projects, by the names of the projects.
#[derive(Drop)]
pub(crate) struct Jobs {
    pub(crate) lists: BTreeMap<String, JobList>,
}

impl Jobs {
    ghost use Rattle.gate_config.specs.Document.{name_in};
    ghost use Rattle.gate_config.specs.Inner.Jobs.{with_jobs};
    ghost use Rattle.gate_config.specs.Lookups.{jobs_under};

    pub(crate) fn new(alloc: Global) -> Jobs
        ensures { (project : List ℕ) → jobs_under result project ≡ [] }
    {
        Jobs {
            lists: BTreeMap::new(alloc),
        }
    }

    // Returns the jobs of a project, in order. A project without a list has none.
    pub(crate) fn of(&self, project: &str) -> &[Text]
        ensures { result.now ≡ jobs_under self.now project.now }
    {
        match self.lists.get(project) {
            Some(list) => list.as_slice(),
            None => &[],
        }
    }

    // Adds the jobs that a stanza names for a project. If it names none, no list is made for the project.
    pub(crate) fn add(&mut self, alloc: Global, project: &str, jobs: &[Value]) -> Result<(), Memory>
        ensures { OnOk result ((other : List ℕ) → jobs_under self.new other
            ≡ with_jobs (jobs_under self.old other) (if bytes_eq project.now other then filter_map name_in (map view jobs.now) else [])) }
    {
        if jobs.is_empty() {
            return Ok(());
        }
        match self.lists.get_mut(project) {
            Some(list) => add_names(alloc, list, jobs),
            None => {
                let mut list = JobList::new(alloc);
                add_names(alloc, &mut list, jobs)?;
                self.lists.insert(String::from_str(alloc, project)?, list)?;
                Ok(())
            }
        }
    }
}

ghost use Rattle.gate_config.specs.Document.{name_in};
ghost use Rattle.gate_config.specs.Inner.Jobs.{with_jobs};

fn add_names(alloc: Global, list: &mut JobList, jobs: &[Value]) -> Result<(), Memory>
    ensures { OnOk result (list.new ≡ with_jobs list.old (filter_map name_in (map view jobs.now))) }
{
    for job in jobs {
        if let Some(name) = name_in(job) {
            list.add(alloc, name)?;
        }
    }
    Ok(())
}
