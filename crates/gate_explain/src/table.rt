//! The table of the keys in a configuration: those that are read, and those that Zuul reads and this program ignores (Zuul's documentation,
//! "Tenant Configuration", "Pipeline Definition" and "Project").
use crate::kind::Kind;
use crate::names::{Added, nearest};

/// A row of the table. Its first kind is that of an object or a list. Keys have spaces between them.
#[derive(Clone, Copy)]
pub enum Row {
    /// These keys are read, and their values are of the second kind.
    Read(Kind, &'static str, Kind),
    /// Every key is read, and the values are of the second kind.
    Any(Kind, Kind),
    /// The items of the list are of the second kind.
    Items(Kind, Kind),
    /// Zuul reads these keys. This program ignores them, and the text says what follows from that.
    Ignored(Kind, &'static str, &'static str),
    /// Any other key is ignored, and the text says what follows from that.
    Others(Kind, &'static str),
}

const BRANCHES: &str =
    "exclude-unprotected-branches exclude-locked-branches include-branches exclude-branches";

const EVERY_BRANCH: &str = "events and jobs are those of every branch";

const ALL_LISTED: &str = "it is listed all the same, with all that it has";

const NO_TEMPLATES: &str =
    "the jobs of templates aren't there; without others a project's events are discarded (no-jobs)";

const ONE_QUEUE: &str =
    "a pipeline has one queue: with a dependent manager a first failure gives new build sets to all behind";

const NOT_RUN: &str = "no job is started here, so it isn't read";

const NOT_TOLD: &str = "nothing is told to Gerrit: no message, no vote, no submit";

const FOR_READERS: &str = "it is for its readers alone";

macro_rules! row {
    ($kind:ident items are $item:ident) => { Row::Items(Kind::$kind, Kind::$item) };
    ($kind:ident any read $value:ident) => { Row::Any(Kind::$kind, Kind::$value) };
    ($kind:ident $keys:tt read $value:ident) => { Row::Read(Kind::$kind, $keys, Kind::$value) };
    ($kind:ident any ignored $follows:expr) => { Row::Others(Kind::$kind, $follows) };
    ($kind:ident $keys:tt ignored $follows:expr) => { Row::Ignored(Kind::$kind, $keys, $follows) };
}

macro_rules! rows {
    ($($kind:ident $keys:tt $is:ident $what:tt;)*) => { &[$(row!($kind $keys $is $what)),*] };
}

/// The table. Where several rows have a key, the first counts.
pub const ROWS: &[Row] = rows! {
    Document "tenants" read Tenants;
    Document "config" read Lists;
    Tenants items are TenantEntry;
    TenantEntry "tenant" read Tenant;
    TenantEntry any ignored "it stands beside `tenant`, so it is ignored";
    Tenant "name" read TenantName;
    Tenant "source" read Sources;
    Tenant "max-nodes-per-job max-job-timeout max-dependencies max-changes-per-pipeline allowed-triggers \
        allowed-reporters allowed-labels disallowed-labels" ignored "the tenant isn't limited by it";
    Tenant "report-build-page web-root admin-rules access-rules authentication-realm" ignored
        "there are no web pages and no roles here";
    Tenant "default-parent default-ansible-version semaphores" ignored NOT_RUN;
    Tenant BRANCHES ignored EVERY_BRANCH;
    Sources any read Source;
    Source "config-projects untrusted-projects" read Listings;
    Listings items are Listing;
    ListedGroup "projects" read GroupProjects;
    ListedGroup BRANCHES ignored EVERY_BRANCH;
    ListedGroup any ignored ALL_LISTED;
    GroupProjects items are ProjectName;
    ProjectName any read ListedProject;
    ListedProject BRANCHES ignored EVERY_BRANCH;
    ListedProject any ignored ALL_LISTED;
    Lists any read Items;
    Items items are Item;
    Item "pipeline" read Pipeline;
    Item "project" read Project;
    Item "job" ignored
        "each job that a project names is in each build set, and its failure fails the item, also with `voting: false`";
    Item "project-template" ignored NO_TEMPLATES;
    Item "queue" ignored ONE_QUEUE;
    Item "pragma" ignored EVERY_BRANCH;
    Item "nodeset secret semaphore image flavor label section provider" ignored NOT_RUN;
    Pipeline "name" read PipelineName;
    Pipeline "manager" read Manager;
    Pipeline "trigger" read Trigger;
    Pipeline "require reject" ignored
        "every selected event enters, whatever approvals and state its change has";
    Pipeline "start success failure merge-conflict merge-failure config-error no-jobs enqueue dequeue disabled \
        start-message success-message failure-message merge-conflict-message merge-failure-message \
        config-error-message no-jobs-message enqueue-message dequeue-message footer-message" ignored NOT_TOLD;
    Pipeline "window window-floor window-ceiling window-increase-type window-increase-factor \
        window-decrease-type window-decrease-factor" ignored
        "every item has a build set at once, however long the queue is";
    Pipeline "precedence" ignored "each pipeline has its own worker, and no nodes are shared out";
    Pipeline "dequeue-on-new-patchset" ignored
        "a selected trigger takes out the older patch set, also with `false`; another event, or an abandoned change, doesn't";
    Pipeline "supercedes" ignored "an item stays in both pipelines";
    Pipeline "ignore-dependencies" ignored "a change brings no other with it, as with `true`";
    Pipeline "allow-other-connections" ignored
        "events enter from the connections alone that the pipeline has a rule for, as with `false`";
    Pipeline "disable-after-consecutive-failures" ignored "the pipeline goes on, however many items fail";
    Pipeline "post-review variables" ignored NOT_RUN;
    Pipeline "description" ignored FOR_READERS;
    Trigger any read Rules;
    Rules items are Rule;
    Rule "event branch ref username email comment" read Patterns;
    Rule "approval" read Approvals;
    Rule "ignore-deletes" read Flag;
    Patterns items are Pattern;
    Pattern "regex" read Regex;
    Pattern "negate" read Flag;
    Approvals items are Approval;
    Project "templates" ignored NO_TEMPLATES;
    Project "queue" ignored ONE_QUEUE;
    Project "branches" ignored EVERY_BRANCH;
    Project "default-branch vars" ignored NOT_RUN;
    Project "merge-mode" ignored "nothing is merged here";
    Project "description" ignored FOR_READERS;
    Project any read ProjectPipeline;
    ProjectPipeline "jobs" read Jobs;
    ProjectPipeline "queue" ignored ONE_QUEUE;
    ProjectPipeline "fail-fast" ignored
        "an item waits for the results of all of its jobs, also with `true`";
    ProjectPipeline "debug" ignored NOT_TOLD;
    Jobs items are Job;
    Job any read ProjectJob;
    ProjectJob "voting" ignored "the job's failure fails the item, as any other";
    ProjectJob "dependencies" ignored "the jobs of a build set stand side by side, in no order";
    ProjectJob any ignored "a job is known by its name alone, and is in each build set of the project";
};

/// The kind of the value at a key of an object of this kind, if the key is read.
pub fn read_kind(kind: Kind, key: &str) -> Option<Kind> {
    for row in ROWS {
        if let Some(found) = row.read(kind, key) {
            return Some(found);
        }
    }
    None
}

/// What follows from a key in an object of this kind, if the key is ignored.
pub fn follows_from(kind: Kind, key: &str) -> Option<&'static str> {
    for row in ROWS {
        if let Some(text) = row.ignored(kind, key) {
            return Some(text);
        }
    }
    None
}

impl Row {
    // The kind of the value at a key of an object of this kind, if this row says that it is read.
    fn read(&self, kind: Kind, key: &str) -> Option<Kind> {
        match self {
            Row::Read(it, keys, found) if *it == kind && has(*keys, key) => Some(*found),
            Row::Any(it, found) if *it == kind => Some(*found),
            _ => None,
        }
    }

    // What follows from a key in an object of this kind, if this row says that it is ignored.
    fn ignored(&self, kind: Kind, key: &str) -> Option<&'static str> {
        match self {
            Row::Ignored(it, keys, text) if *it == kind && has(*keys, key) => Some(*text),
            Row::Others(it, text) if *it == kind => Some(*text),
            _ => None,
        }
    }
}

fn has(keys: &str, key: &str) -> bool {
    keys.split(' ').any(|name| name == key)
}

/// The known key of an object of this kind to which the written one is close.
pub fn nearest_key(kind: Kind, written: &str) -> Option<&'static str> {
    for row in ROWS {
        let meant = match row {
            Row::Read(it, keys, _) if *it == kind => nearest(written, *keys),
            Row::Ignored(it, keys, _) if *it == kind => nearest(written, *keys),
            _ => None,
        };
        if meant.is_some() {
            return meant;
        }
    }
    None
}

/// The kind of the items of a list of this kind.
pub fn item_kind(kind: Kind) -> Kind {
    for row in ROWS {
        match row {
            Row::Items(list, item) if *list == kind => return *item,
            _ => {}
        }
    }
    Kind::Other
}

/// Adds the table of the settings that are ignored, as docs/FORMATS.md has it.
pub fn push_settings(out: &mut String) -> Added {
    out.push_str("| In | Zuul's settings | What follows here |\n|---|---|---|\n")?;
    for row in ROWS {
        match row {
            Row::Ignored(it, keys, text) => writeln!(out, "| {it:?} | `{keys}` | {text} |")?,
            Row::Others(it, text) => writeln!(out, "| {it:?} | any other | {text} |")?,
            _ => {}
        }
    }
    Ok(())
}
