//! The reply to the words of a call.
ghost use Rattle.std.specs.Prelude.{◌≡◌, IfOk, Some};
ghost use Rattle.element_set.specs.Sets.{Coded};
ghost use Rattle.feast_base.specs.Refusals.{refusal_line};
ghost use Rattle.feast_run.specs.Changes.{change};
ghost use Rattle.feast_run.specs.Ending.{status_of_input};
ghost use Rattle.call_form.specs.Forms.{IsFew, form_of_words, form_value};
ghost use Rattle.feast_run.specs.Outputs.{CanBeDone};
ghost use Rattle.feast_run.specs.Replies.{Replies, Says};

use crate::Status;
use crate::halt::{Halt, Input};
use crate::loading::{UNREADABLE, USAGE, whole_file};
use crate::output::{Job, Output};
use crate::stages::form_stages;
use call_form::{Form, read_form};
use feast_base::{Gate, NoMemory, Refusal, Shelf, print_refusal};
use std::alloc::Global;
use std::thread::Threads;

/// The reply to a call: a status, and what is left to do for it.
pub struct Reply {
    pub status: Status,
    pub job: Job,
}

// Written by hand, not derived: so a caller drops it by one call.
impl Drop for Reply {
    fn drop(self) {
        let Reply { status, job } = self;
    }
}

/// The status of a refusal, by what it is about.
fn status_of(input: Input) -> Status
    ensures { result ≡ status_of_input input }
{
    match input {
        Input::File => Status::Unreadable,
        Input::Elements => Status::ElementRefused,
        Input::World => Status::WorldRefused,
        Input::Journal => Status::JournalRefused,
        Input::Codes => Status::CodeRefused,
    }
}

/// The reply to a refusal: its line.
fn refuse(alloc: Global, status: Status, word: &str, refusal: &Refusal) -> Result<Reply, NoMemory>
    requires { Coded refusal.now.code }
    ensures line { IfOk result (Says status (refusal_line word.now refusal.now)) }
    ensures can { IfOk result (λ reply. CanBeDone reply.job) }
{
    let mut text = Vec::new(alloc);
    print_refusal(word, refusal, &mut text)?;
    Ok(Reply {
        status,
        job: Job::Write(Output::Text(text)),
    })
}

/// The reply to a form.
#[tactic(auto, unfolding(feast_base::specs::Refusals::refusal_line))]
fn reply_to_form<R: Threads + Sync, F: Shelf, G: Gate>(
    rt: &R,
    alloc: Global,
    shelf: &mut F,
    form: Form<'_>,
    gate: &G,
) -> Result<Reply, NoMemory>
    requires { IsFew form }
    ensures files { (F.state shelf.new).files ≡ (F.state shelf.old).files }
    ensures says { Replies (Some (form_value form.entry)) (change F.state shelf.old shelf.new) result }
    ensures can { IfOk result (λ reply. CanBeDone reply.job) }
{
    match form_stages(rt, alloc, shelf, form, gate) {
        Ok(job) => Ok(Reply {
            status: Status::Done,
            job,
        }),
        Err(Halt::Refused(r)) => refuse(alloc, status_of(r.input), r.word, &r.refusal),
        Err(Halt::Missing(word)) => refuse(
            alloc,
            Status::Unreadable,
            word,
            &whole_file(UNREADABLE, 0),
        ),
        Err(Halt::NoMemory) => Err(NoMemory),
    }
}

/// The reply to words.
#[tactic(auto, unfolding(feast_base::specs::Refusals::refusal_line))]
pub fn reply_to_words<R: Threads + Sync, F: Shelf, G: Gate>(
    rt: &R,
    alloc: Global,
    shelf: &mut F,
    words: &[String],
    gate: &G,
) -> Result<Reply, NoMemory>
    ensures files { (F.state shelf.new).files ≡ (F.state shelf.old).files }
    ensures says { Replies (form_of_words words.now) (change F.state shelf.old shelf.new) result }
    ensures can { IfOk result (λ reply. CanBeDone reply.job) }
{
    match read_form(words) {
        Some(form) => reply_to_form(rt, alloc, shelf, form, gate),
        None => refuse(alloc, Status::Usage, "", &whole_file(USAGE, 0)),
    }
}
