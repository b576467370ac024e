//! The script that is played, and where its answers go.
ghost use Rattle.std.specs.Prelude.{◌≡◌, [], Some};
ghost use Rattle.std.specs.Option.{is_some};
ghost use Rattle.replay.specs.declared.weighing.Weighing.TheVariants.{Standing};

use crate::answer::Answer;
use crate::line::{self, Unread};
use crate::script::{Call, Lending, Mistake};
use crate::weighing::Guides;
use anyhow::anyhow;
use session::report::Refusal;
use std::io::{BufRead, BufReader, Split, StdinLock};

/// More lines than any script has, so that a loop over lines is seen to end.
pub const MOST_LINES: u64 = u64::MAX;

/// A script that is being played.
///
/// Where input, output or memory fails there is no further call, so that whoever plays comes to the end and can close the
/// session; `finish` tells the failure.
#[derive(Drop)]
pub struct Player<'a> {
    rt: &'a HostRuntime,
    lines: Split<BufReader<StdinLock<'a>>>,
    line: u64,
    kept: Option<Call>,
    failure: Option<anyhow::Error>,
    pub guides: Guides,
}

impl<'a> Player<'a> {
    /// The script that standard input has.
    pub(crate) fn new(rt: &'a HostRuntime) -> anyhow::Result<Player<'a>> {
        let lines = BufReader::new(rt.alloc(), rt.reader())?.split(rt.alloc(), b'\n');
        Ok(Player {
            rt,
            lines,
            line: 0,
            kept: None,
            failure: None,
            guides: Guides::new(rt.alloc()),
        })
    }

    /// The next call that only some states take; nothing at the script's end and after a failure. Calls that every state
    /// takes are played on the way.
    pub(crate) fn next_call(&mut self) -> Option<Call> {
        if let Some(call) = self.kept.take() {
            return Some(call);
        }
        for _ in 0..MOST_LINES {
            let line = self.next_line()?;
            match line::read(self.rt.alloc(), line.as_slice()) {
                Ok(Some(call)) => {
                    if let Some(call) = self.play_anywhere(call) {
                        return Some(call);
                    }
                }
                Ok(None) => {}
                Err(Unread::Mistake(mistake)) => self.reject(mistake),
                Err(Unread::OutOfMemory) => self.fail(anyhow!("out of memory")),
            }
        }
        None
    }

    /// The next line, if all went well so far.
    fn next_line(&mut self) -> Option<Vec<u8>> {
        if self.failure.is_some() {
            return None;
        }
        self.line = self.line.saturating_add(1);
        match self.lines.next()? {
            Ok(line) => Some(line),
            Err(error) => {
                self.fail(error);
                None
            }
        }
    }

    /// Plays a call that every state takes, or gives it back.
    fn play_anywhere(&mut self, call: Call) -> Option<Call> {
        match call {
            Call::Fits { lending, slots } => self.answer(fits(lending, slots)),
            Call::Prefer { literals } => {
                self.guides.preferences = literals;
                self.answer(());
            }
            Call::Weigh { weighing } => {
                self.guides.weighing = weighing;
                self.answer(());
            }
            call => return Some(call),
        }
        None
    }

    /// Keeps the call, to be played first where all begins anew.
    pub(crate) fn begin_anew(&mut self, call: Call)
        ensures kept { self.new.kept ≡ Some call }
        ensures preferences { self.new.guides.preferences.items ≡ [] }
        ensures weighing { self.new.guides.weighing ≡ Standing }
        ensures line { self.new.line ≡ self.old.line }
    {
        self.kept = Some(call);
        self.guides = Guides::new(self.rt.alloc());
    }

    /// Whether a call is kept.
    pub(crate) fn begins_anew(&self) -> bool
        ensures { result ≡ is_some self.now.kept }
    {
        self.kept.is_some()
    }

    /// Prints what a call answered.
    pub(crate) fn answer(&mut self, answer: impl Into<Answer>) {
        let answer = answer.into();
        if let Err(error) = println!(self.rt; "{answer}") {
            self.fail(error);
        }
    }

    /// Prints why the line plays nothing.
    pub(crate) fn reject(&mut self, mistake: Mistake) {
        let line = self.line;
        if let Err(error) = println!(self.rt; "script {line} {mistake}") {
            self.fail(error);
        }
    }

    /// Fresh words for a book or a session, which is opened over them whatever they are: that is answered.
    pub(crate) fn lend(&mut self, lending: Lending) -> Option<Vec<i32>> {
        let words = self.fresh(lending.words.unwrap_or(0))?;
        self.answer(());
        Some(words)
    }

    /// So many words or bytes, all 0; nothing where there is no memory.
    pub(crate) fn fresh<T: Clone + Default + Drop>(&mut self, count: usize) -> Option<Vec<T>> {
        match vec![in self.rt.alloc(); T::default(); count] {
            Ok(fresh) => Some(fresh),
            Err(error) => {
                self.fail(error);
                None
            }
        }
    }

    /// Keeps what failed first.
    fn fail(&mut self, error: impl Into<anyhow::Error> + Drop) {
        if self.failure.is_none() {
            self.failure = Some(error.into());
        }
    }

    /// Ends the playing, with its failure if there was one.
    pub(crate) fn finish(self) -> anyhow::Result<()> {
        match self.failure {
            None => Ok(()),
            Some(error) => Err(error),
        }
    }
}

/// Whether a session fits into its words; into fewer than none, nothing does.
fn fits(lending: Lending, slots: u32) -> Result<(), Refusal> {
    let words = lending.words.ok_or(Refusal::Unfit)?;
    session::fits(lending.variables, slots, words)
}
