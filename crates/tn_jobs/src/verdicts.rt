//! The judgement of a job after each of its steps (POSIX.1-2017, XBD 11.1.4).

ghost use Rattle.std.specs.Prelude.{◌≡◌};
ghost use Rattle.tn_jobs.specs.Judging.{echo_asked, judged};

/// The next action of a job, after the text that it wrote.
#[derive(Clone, Copy, Debug, PartialEq, Eq)]
pub enum After {
    /// The job goes on.
    Stay,
    /// The job reads from the terminal.
    WantsInput,
    /// The job ends.
    Done,
    /// The job stops itself, as at the signal of the SUSP character.
    Stop,
    /// The job goes on, and keys that are typed from then on are not echoed, as while a password is
    /// typed.
    Hide,
    /// The job goes on, and keys that are typed from then on are echoed.
    Show,
}

impl After {
    /// Returns whether keys that are typed from then on are to be echoed. `None` leaves the echo as
    /// it is.
    pub fn echo(self) -> Option<bool>
        ensures { result ≡ echo_asked self }
    {
        match self {
            After::Hide => Some(false),
            After::Show => Some(true),
            After::Stay | After::WantsInput | After::Done | After::Stop => None,
        }
    }
}

/// The state of a job.
#[derive(Clone, Copy, Debug, PartialEq, Eq)]
pub enum JobState {
    Foreground,
    Background,
    Stopped(Why),
    /// The job is over: a state that a verdict names and that no held job has.
    Ended,
}

/// The signal that stopped a job.
#[derive(Clone, Copy, Debug, PartialEq, Eq)]
pub enum Why {
    /// The job stopped itself.
    Tstp,
    /// The job read from the background.
    Ttin,
    /// The job wrote from the background while TOSTOP was set.
    Ttou,
}

/// Whether a step's text reaches the terminal, and the job's state after it.
#[derive(Clone, Copy, PartialEq, Eq)]
pub struct Verdict {
    pub write: bool,
    pub next: JobState,
}

/// Judges one step of a job, which wrote a text or none, and does something next. `tostop` is the
/// terminal's flag. A job that is stopped or has ended gets no verdict, `None`.
pub fn judge(state: JobState, wrote: bool, after: After, tostop: bool) -> Option<Verdict>
    ensures { result ≡ judged state wrote after tostop }
{
    let (write, next) = match (state, after) {
        (JobState::Stopped(_), _) | (JobState::Ended, _) => return None,
        (JobState::Background, _) if wrote && tostop => (false, JobState::Stopped(Why::Ttou)),
        (JobState::Background, After::WantsInput) => (wrote, JobState::Stopped(Why::Ttin)),
        (JobState::Foreground, After::WantsInput | After::Stay | After::Hide | After::Show) => {
            (wrote, JobState::Foreground)
        },
        (JobState::Background, After::Stay | After::Hide | After::Show) => {
            (wrote, JobState::Background)
        },
        (_, After::Stop) => (wrote, JobState::Stopped(Why::Tstp)),
        (_, After::Done) => (wrote, JobState::Ended),
    };
    Some(Verdict { write, next })
}
