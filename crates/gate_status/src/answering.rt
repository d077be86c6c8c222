//! Answers the lines of a session one after another: reads each as a command, carries it out, and writes the reply.
ghost use Rattle.std.specs.Prelude.{◌≡◌, ◌≢◌, ◌∷◌, ◌<◌, ◌-◌, ◌^◌, ◌++◌, [], IfErr, IfOk, List, None, Ok, OnOk, codes, length, string_bytes};
ghost use Rattle.std.specs.Io.KnownBytes.{Appends};
ghost use Rattle.std.specs.Option.{option_to_list};
ghost use Rattle.gate_status.specs.declared.progress.Progress.{Progress};
ghost use Rattle.gate_status.specs.Counts.{counted};
ghost use Rattle.gate_status.specs.Replies.{ArePostsFor, IsLeft, MayReply, NoteAfter, asked_behind, asked_by, end_of, posted_by, reply_text};
ghost use Rattle.gate_status.specs.Status.{status_text};
ghost use Rattle.gate_status.specs.Talks.{made_by_reply};
ghost use Rattle.gate_status.specs.Inner.Listened.{WriteRises};
ghost use Rattle.gate_status.specs.Inner.Replies.{reply_to};
ghost use Rattle.gate_status.specs.Inner.Talks.{Talks};

use crate::board::Board;
use crate::command::{Command, CommandFault, parse_command};
use crate::counted::Counted;
use crate::fault::{SessionEnd, SessionFault};
use crate::reply::Reply;
use crate::status::status_text;
use gate_config::Config;
use gate_record::{Memory, Record};
use gate_run_posts::{PostFault, Posts, RenewPostFault};
use gate_source::StopCause;
use std::io::Write;
use std::sync::{Mutex, Wait};

// What a session needs for its answers, besides the posts.
#[derive(Drop)]
pub(crate) struct Session<'a> {
    pub(crate) config: &'a Config,
    pub(crate) board: &'a Mutex<Board>,
}

impl Session<'_> {
    /// Answers lines in order, until a reply ends the session. The answer says how the session ended, if it did.
    pub(crate) fn answer_all<X: AllocGlobal + Wait, W: Write>(
        &self,
        rt: &X,
        output: &mut Counted<W>,
        posts: &mut Posts,
        lines: &[Record],
    ) -> Result<Option<SessionEnd>, SessionFault>
        requires few { output.old.faults < 2 ^ 64 - 1 }
        requires for_config { ArePostsFor self.now.config.now posts.old }
        ensures talks { IfOk result (λ how. Talks self.now.config.now lines.now how (W.contents output.old.device) (W.contents output.new.device) posts.old posts.new) }
        ensures for_config { ArePostsFor self.now.config.now posts.new }
        ensures faults { OnOk result (output.new.faults ≡ output.old.faults) }
        ensures fault { IfErr result (λ fault. WriteRises fault output.old.faults output.new.faults) }
    {
        let mut rest = lines;
        while let Some((line, more)) = rest.split_first() {
            if let Some(how) = self.answer_one(rt, output, posts, line)? {
                return Ok(Some(how));
            }
            rest = more;
        }
        Ok(None)
    }

    /// Answers the bytes after the last LF, if there are any, after the reader has ended. The answer says whether the reply ended the
    /// session, or the end of the reader did.
    pub(crate) fn answer_last<X: AllocGlobal + Wait, W: Write>(
        &self,
        rt: &X,
        output: &mut Counted<W>,
        posts: &mut Posts,
        last: Option<Record>,
    ) -> Result<SessionEnd, SessionFault>
        requires few { output.old.faults < 2 ^ 64 - 1 }
        requires for_config { ArePostsFor self.now.config.now posts.old }
        ensures talks { IfOk result (λ how. Talks self.now.config.now (option_to_list last) (made_by_reply how) (W.contents output.old.device) (W.contents output.new.device) posts.old posts.new) }
        ensures closes { IfOk result (λ how. how ≢ SessionEnd.Limit) }
        ensures for_config { ArePostsFor self.now.config.now posts.new }
        ensures fault { IfErr result (λ fault. WriteRises fault output.old.faults output.new.faults) }
    {
        let Some(line) = last else {
            return Ok(SessionEnd::End);
        };
        match self.answer_one(rt, output, posts, &line)? {
            Some(how) => Ok(how),
            None => Ok(SessionEnd::End),
        }
    }

    // Answers a line. The answer says how the session ended with it, if it did.
    fn answer_one<X: AllocGlobal + Wait, W: Write>(
        &self,
        rt: &X,
        output: &mut Counted<W>,
        posts: &mut Posts,
        line: &Record,
    ) -> Result<Option<SessionEnd>, SessionFault>
        requires few { output.old.faults < 2 ^ 64 - 1 }
        requires for_config { ArePostsFor self.now.config.now posts.old }
        ensures talks { IfOk result (λ how. Talks self.now.config.now (line.now ∷ []) how (W.contents output.old.device) (W.contents output.new.device) posts.old posts.new) }
        ensures for_config { ArePostsFor self.now.config.now posts.new }
        ensures faults { OnOk result (output.new.faults ≡ output.old.faults) }
        ensures fault { IfErr result (λ fault. WriteRises fault output.old.faults output.new.faults) }
    {
        let reply = self.answer(rt, posts, line);
        say(output, &reply)?;
        Ok(reply.end())
    }

    // Carries out a line's command, and gives the reply. Only three things can change: what is posted, how many generations were asked for,
    // and what the posts know of the cause to stop.
    fn answer<X: AllocGlobal + Wait>(&self, rt: &X, posts: &mut Posts, line: &Record) -> Reply
        requires for_config { ArePostsFor self.now.config.now posts.old }
        ensures may { MayReply self.now.config.now (asked_by line.now) result }
        ensures posted { posts.new.pipelines ≡ posted_by (asked_by line.now) result posts.old.pipelines }
        ensures note { NoteAfter (end_of result) posts.old.note posts.new.note }
        ensures asked { length posts.new.asked ≡ asked_behind (length posts.old.asked) result }
        ensures left { IsLeft (length posts.old.cells) (length posts.old.asked) result }
        ensures cells { posts.new.cells ≡ posts.old.cells }
    {
        let Record::Line(bytes) = line else {
            return Reply::Refused(CommandFault::Unknown);
        };
        match parse_command(rt.alloc(), bytes.as_slice()) {
            Ok(command) => self.carry_out(rt, posts, command),
            Err(fault) => Reply::Refused(fault),
        }
    }

    fn carry_out<X: AllocGlobal + Wait>(&self, rt: &X, posts: &mut Posts, command: Command) -> Reply
        requires for_config { ArePostsFor self.now.config.now posts.old }
        ensures may { MayReply self.now.config.now (Ok command) result }
        ensures posted { posts.new.pipelines ≡ posted_by (Ok command) result posts.old.pipelines }
        ensures note { NoteAfter (end_of result) posts.old.note posts.new.note }
        ensures asked { length posts.new.asked ≡ asked_behind (length posts.old.asked) result }
        ensures left { IsLeft (length posts.old.cells) (length posts.old.asked) result }
        ensures cells { posts.new.cells ≡ posts.old.cells }
    {
        match command {
            Command::Status => match self.shown(rt) {
                Ok(text) => Reply::Shown(text),
                Err(Memory) => Reply::Refused(CommandFault::Memory),
            },
            Command::Stop => match posts.stop(StopCause::Port) {
                Ok(_) => Reply::Stopping,
                Err(Memory) => Reply::Refused(CommandFault::Memory),
            },
            Command::Renew => match posts.renew() {
                Ok(_) => Reply::Renewed,
                Err(RenewPostFault::Last) => Reply::Last,
                Err(RenewPostFault::Memory) => Reply::Refused(CommandFault::Memory),
            },
            Command::Quit => Reply::Bye,
            Command::Manage(tenant, pipeline, manage) => {
                reply_to(posts.manage(rt, tenant, pipeline, manage))
            }
            Command::Result(tenant, pipeline, ended) => {
                reply_to(posts.result(rt, tenant, pipeline, ended))
            }
        }
    }

    // The text of the board and a line `ok`.
    fn shown<X: AllocGlobal + Wait>(&self, rt: &X) -> Result<String, Memory>
        ensures { IfOk result (λ text. (progress : List (List Progress)) × (string_bytes text ≡ status_text self.now.config.now progress ++ codes "ok\n")) }
    {
        let mut text = status_text(rt.alloc(), self.config, &self.board.lock(rt))?;
        text.push_str("ok\n")?;
        Ok(text)
    }
}

fn reply_to<T: Drop>(posted: Result<(), PostFault<T>>) -> Reply
    ensures { result ≡ reply_to posted }
{
    match posted {
        Ok(()) => Reply::Posted,
        Err(PostFault::NoPipeline(_)) => Reply::NoPipeline,
        Err(PostFault::Full(_)) => Reply::Full,
    }
}

// Writes a reply and flushes it.
fn say<W: Write>(output: &mut Counted<W>, reply: &Reply) -> Result<(), SessionFault>
    requires few { output.old.faults < 2 ^ 64 - 1 }
    ensures says { OnOk result (Appends (W.contents output.old.device) (W.contents output.new.device) (reply_text reply.now)) }
    ensures faults { OnOk result (output.new.faults ≡ output.old.faults) }
    ensures fault { IfErr result (λ fault. WriteRises fault output.old.faults output.new.faults) }
{
    if output.write_all(reply.text().as_bytes()).is_err() {
        return Err(SessionFault::Write);
    }
    if output.flush().is_err() {
        return Err(SessionFault::Write);
    }
    Ok(())
}
