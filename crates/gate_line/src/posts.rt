//! Reads the lines that post a management event or a result to a pipeline.
ghost use Rattle.std.specs.Prelude.{◌≡◌, option_copied};
ghost use Rattle.gate_line.specs.Fields.{Answers};
ghost use Rattle.gate_line.specs.Posts.{ended_of, kind_of, post_has_texts, post_of, posted_to, success_of};
ghost use Rattle.gate_line.specs.Inner.Posts.{ended_has_texts};

use crate::field::{Field, LineFault};
use crate::fields::{last_text, number_field, set_field, word_field};
use crate::keys::{copy, key_of};
use crate::words::is_word;
use gate_items::{JobResult, Manage};
use gate_record::{PipelineId, TenantId};
use std::alloc::Global;

/// What a line posts to a pipeline.
#[derive(Debug, Drop)]
pub enum Post {
    /// An item is to be taken out (`dequeue`) or to get a new build set (`reset`).
    Manage(TenantId, PipelineId, Manage),
    /// A job of a build set has ended.
    Result(TenantId, PipelineId, JobResult),
}

/// The kinds of lines that post something, by their first word.
#[derive(Clone, Copy, Debug, PartialEq, Eq)]
pub enum PostKind {
    /// `dequeue T P KEY`.
    Dequeue,
    /// `reset T P KEY`.
    Reset,
    /// `result T P SET success JOB` or `result T P SET failure JOB`.
    Result,
}

impl PostKind {
    /// Returns the kind of a line with this first word, if such a line posts something.
    pub fn of(word: &[u8]) -> Option<PostKind>
        ensures { result ≡ kind_of word.now }
    {
        if is_word(word, "dequeue") {
            return Some(PostKind::Dequeue);
        }
        if is_word(word, "reset") {
            return Some(PostKind::Reset);
        }
        if is_word(word, "result") {
            return Some(PostKind::Result);
        }
        None
    }

    /// Reads what a line of this kind posts. `rest` is what follows the line's first word. Whether there are such a tenant,
    /// pipeline and connection isn't checked. The error is `LineFault::Memory` only if the line is right and has texts to copy:
    /// those of a ref's key, or the name of a job. Any other error is the line's first fault from the left.
    pub fn read(self, alloc: Global, rest: Option<&[u8]>) -> Result<Post, LineFault>
        ensures { Answers post_has_texts (post_of self (option_copied rest.entry)) result }
    {
        let (tenant, more) = number_field(Field::Tenant, rest)?;
        let (pipeline, more) = number_field(Field::Pipeline, more)?;
        posted_to(alloc, self, TenantId(tenant), PipelineId(pipeline), more)
    }
}

fn posted_to(
    alloc: Global,
    kind: PostKind,
    tenant: TenantId,
    pipeline: PipelineId,
    rest: Option<&[u8]>,
) -> Result<Post, LineFault>
    ensures { Answers post_has_texts (posted_to kind tenant pipeline (option_copied rest.entry)) result }
{
    match kind {
        PostKind::Dequeue => {
            let key = key_of(alloc, rest)?;
            Ok(Post::Manage(tenant, pipeline, Manage::Dequeue(key)))
        }
        PostKind::Reset => {
            let key = key_of(alloc, rest)?;
            Ok(Post::Manage(tenant, pipeline, Manage::Reset(key)))
        }
        PostKind::Result => {
            let ended = ended_of(alloc, rest)?;
            Ok(Post::Result(tenant, pipeline, ended))
        }
    }
}

// Reads `SET success JOB` or `SET failure JOB`.
fn ended_of(alloc: Global, rest: Option<&[u8]>) -> Result<JobResult, LineFault>
    ensures { Answers ended_has_texts (ended_of (option_copied rest.entry)) result }
{
    let (set, success, job) = ended_parts(rest)?;
    Ok(JobResult {
        set,
        job: copy(alloc, job)?,
        success,
    })
}

ghost use Rattle.std.specs.Prelude.{IfErr};
ghost use Rattle.gate_line.specs.Fields.{IsOwn};
ghost use Rattle.gate_line.specs.Inner.Posts.{seen_ended};

// Reads the number of the build set, whether the job has succeeded, and the job's name, which is the whole rest.
fn ended_parts(rest: Option<&[u8]>) -> Result<(u64, bool, &str), LineFault>
    ensures value { seen_ended result ≡ ended_of (option_copied rest.entry) }
    ensures own { IfErr result IsOwn }
{
    let (set, rest) = set_field(rest)?;
    let (word, more) = word_field(Field::Ending, rest)?;
    let Some(success) = success_of(word) else {
        return Err(Field::Ending.wrong(rest));
    };
    let job = last_text(Field::Job, more)?;
    Ok((set, success, job))
}

fn success_of(word: &[u8]) -> Option<bool>
    ensures { result ≡ success_of word.now }
{
    if is_word(word, "success") {
        return Some(true);
    }
    if is_word(word, "failure") {
        return Some(false);
    }
    None
}
