// What is done so far of a script: its replies, and its jobs.
ghost use Rattle.std.specs.Prelude.{◌≡◌, ◌++◌, ◌∷◌, [], OnOk, OnErr};
ghost use Rattle.script_words.specs.Replies.{reply_text};

use script_jobs::Job;
use script_words::{Reply, write_reply};
use std::alloc::{AllocError, Global};

/// The text of the replies, and the jobs of the commands that were completed.
#[derive(Drop)]
pub struct Done {
    pub text: Vec<u8>,
    pub jobs: Vec<Job>,
}

impl Done {
    /// Nothing is done.
    pub fn new(alloc: Global) -> Done
        ensures text { result.text.items ≡ [] }
        ensures jobs { result.jobs.items ≡ [] }
    {
        Done {
            text: Vec::new(alloc),
            jobs: Vec::new(alloc),
        }
    }

    /// One more command was completed. Its only error is want of memory, after which all is as before.
    pub fn complete(&mut self, alloc: Global, reply: &Reply, job: Job) -> Result<(), AllocError>
        ensures text { OnOk result (self.new.text.items ≡ self.old.text.items ++ reply_text reply.now) }
        ensures jobs { OnOk result (self.new.jobs.items ≡ self.old.jobs.items ++ job ∷ []) }
        ensures kept_text { OnErr result (self.new.text.items ≡ self.old.text.items) }
        ensures kept_jobs { OnErr result (self.new.jobs.items ≡ self.old.jobs.items) }
    {
        let mut line = Vec::new(alloc);
        if write_reply(reply, &mut line).is_err() {
            return Err(AllocError);
        }
        self.jobs.reserve(1)?;
        self.text.extend_from_slice(&line)?;
        match self.jobs.push(job) {
            Ok(()) => Ok(()),
            Err(_) => unreachable!(),
        }
    }
}
