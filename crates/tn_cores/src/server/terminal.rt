//! The terminal of a session; only the terminal uses the server end.

ghost use Rattle.std.specs.Prelude.{◌≡◌, ◌≤◌, ◌<◌, ◌&&◌, ℕ, List, length, true, IsTrue, false, IsFalse, OnOk};
ghost use Rattle.std.specs.Prelude.{OnErr, IfOk, IfErr, IfNone, None, Some, [], ◌∷◌, ◌++◌, All, MatchResult};
ghost use Rattle.std.specs.List.{concat};
ghost use Rattle.tn_discipline.specs.Canon.{Canon};
ghost use Rattle.tn_jobs.specs.Jobs.{state_at, with_state, is_stopped, is_foreground};
ghost use Rattle.tn_nvt.specs.Spelling.{spells};
ghost use Rattle.tn_server.specs.Calls as server;
ghost use Rattle.tn_server.specs.Events as events;
ghost use Rattle.tn_server.specs.{Events.History, Faults.SaysSomething, Lines.waiting, Replies.items_said};
ghost use Rattle.tn_server.specs.Screen.{size};
ghost use Rattle.tn_cores.specs.server.Counting as counting;
ghost use Rattle.tn_cores.specs.server.{Marks.{is_whole, no_write_failed}, Refusing.WaitsWithRequest};
ghost use Rattle.tn_cores.specs.server.Refusing.{SymbolsWait, SymbolsWaitWithin, WaitsWithText, TellsEcho};
ghost use Rattle.tn_cores.specs.server.{Run.Run, Reaching.{FeedBreaksOff, HaltsIf, Says, SayBreaksOff}};
ghost use Rattle.tn_cores.specs.server.Reaching.{DoesWhole, FollowsPath, AdvancesRun, BreaksOff, Feeds};
ghost use Rattle.tn_cores.specs.server.Reaching.{StopsWithin, RefusesFor, IsTurn, LeadsTo};
ghost use Rattle.tn_cores.specs.{declared.server.messages.Put.TheVariants.Nothing, server.Welcoming.HasRoom};
ghost use Rattle.tn_cores.specs.server.Welcoming.{IsCrowded, IsWelcome, IsUnwelcome, line_bytes};
ghost use Rattle.tn_cores.specs.server.Welcoming.{max_before_piece, max_bytes_before_piece};
ghost use Rattle.tn_cores.specs.server.Run as run;

use crate::faults::{Ended, SessionFault};
use crate::messages::Message;
use crate::server::messages::{MessageOutcome, Put, ServerMark};
use crate::server::progress::ServerProgress;
use crate::streams::WindowSize;
use crate::watching::Typed;
use std::alloc::Global;
use tn_discipline::{Entry, Limit, Settings, Sig};
use tn_jobs::{After, JobId, JobState, Table, Verdict, Why, judge};
use tn_pty::QUEUE_SYMBOLS;
use tn_server::{Approach, ServerEnd, ServerFault};

/// The most entries that may wait for one more piece to be welcome.
const MAX_BEFORE_PIECE: usize = 511;

/// The most bytes that the lines among them may have. With those of one more piece, and of the
/// half-typed line that it may end, at most 64 KB wait.
const MAX_BYTES_BEFORE_PIECE: usize = 60_000;

/// The most entries that wait.
const MAX_WAITING: usize = 1_024;

/// The most bytes of a welcome piece.
pub const MAX_PIECE: usize = 512;

/// The terminal of a session.
#[derive(Drop)]
pub struct Term {
    pub(crate) end: ServerEnd,
    pub(crate) table: Table,
    pub(crate) tostop: bool,
    pub(crate) progress: ServerProgress,
}

// A call of the end that was refused, what goes to the foreground job all the same, and whether what the
// message gives it is among that.
#[derive(Drop)]
struct Stuck {
    fault: ServerFault,
    put: Put,
    given: bool,
}

impl From<ServerFault> for Stuck {
    ghost from_gives = { λ fault given. given ≡ record { fault = fault; put = Nothing; given = false } };

    // Nothing goes to the foreground job.
    fn from(fault: ServerFault) -> Stuck {
        Stuck {
            fault,
            put: Put::Nothing,
            given: false,
        }
    }
}

// Pulls all symbols.
fn pull_all(end: &mut ServerEnd, out: &mut Vec<u8>) -> Result<(), ServerFault>
    ensures ok { OnOk result (FollowsPath run.flushed_history end.old out.old.items out.new.items end.new) }
    ensures err { OnErr result (end.new ≡ end.old) }
    ensures err_appends { OnErr result (out.new.items ≡ out.old.items) }
    ensures fault { IfErr result (λ fault. fault ≡ ServerFault.Memory) }
    ensures grows { OnErr result ((h : History) → server.LeadsTo h end.old → SymbolsWait h) }
{
    end.pull(QUEUE_SYMBOLS, out)?;
    Ok(())
}

impl Term {
    /// Starts the end, appends its opening messages, and requests that one side edit lines.
    ///
    /// # Errors
    ///
    /// - `Memory`: there is no memory for the terminal or for the messages.
    pub fn start(
        alloc: Global,
        settings: Settings,
        limit: Limit,
        approach: Approach,
        table: Table,
        out: &mut Vec<u8>,
    ) -> Result<Term, ServerFault>
        requires { out.old.items ≡ [] }
        ensures at { IfOk result (λ term.
            LeadsTo (run.start (record { settings = settings; limit = limit }) approach table) term) }
        ensures out { OnOk result (out.new.items ≡
            spells (items_said (run.opening (record { settings = settings; limit = limit }) approach))) }
        ensures progress { IfOk result (λ term. IsFalse term.progress.over) }
        ensures fault { IfErr result (λ fault. fault ≡ ServerFault.Memory) }
    {
        let flags = settings.flags;
        let tostop = flags.tostop;
        let mut end = ServerEnd::open(approach.opening, alloc, settings, limit, out)?;
        end.wish(approach.editing, out)?;
        pull_all(&mut end, out)?;
        Ok(Term {
            end,
            table,
            tostop,
            progress: ServerProgress::new(),
        })
    }

    // Pulls all symbols.
    fn flush(&mut self, out: &mut Vec<u8>) -> Result<(), ServerFault>
        requires { IsFalse self.old.progress.over }
        ensures ok { OnOk result (AdvancesRun run.flush self.old out.old.items out.new.items [] self.new) }
        ensures err { OnErr result (BreaksOff run.flush self.old out.old.items out.new.items [] self.new) }
        ensures progress { self.new.progress ≡ self.old.progress }
        ensures fault { IfErr result (λ fault. fault ≡ ServerFault.Memory) }
        ensures grows { OnErr result ((c : Run) → LeadsTo c self.old → SymbolsWait c.history) }
    {
        pull_all(&mut self.end, out)?;
        Ok(())
    }

    // Writes a part of a text, and pulls all symbols.
    fn show_part(&mut self, part: &[u8], out: &mut Vec<u8>) -> Result<(), ServerFault>
        requires { IsFalse self.old.progress.over }
        ensures ok { OnOk result
            (AdvancesRun (run.show (part.now ∷ [])) self.old out.old.items out.new.items [] self.new) }
        ensures err { OnErr result
            (BreaksOff (run.show (part.now ∷ [])) self.old out.old.items out.new.items [] self.new) }
        ensures progress { self.new.progress ≡ self.old.progress }
        ensures fault { IfErr result (λ fault. fault ≡ ServerFault.Memory) }
        ensures grows { OnErr result ((c : Run) → LeadsTo c self.old →
            SymbolsWait (events.next c.history (events.wrote part.now))) }
    {
        self.end.write(part);
        pull_all(&mut self.end, out)?;
        Ok(())
    }

    // Writes a text in parts, and pulls each.
    fn show(&mut self, text: &[u8], out: &mut Vec<u8>) -> Result<(), ServerFault>
        requires { IsFalse self.old.progress.over }
        ensures ok { OnOk result ((parts : List (List ℕ)) × (concat parts ≡ text.now) × All run.IsPart parts ×
            AdvancesRun (run.show parts) self.old out.old.items out.new.items [] self.new) }
        ensures err { OnErr result ((parts : List (List ℕ)) × (concat parts ≡ text.now) ×
            All run.IsPart parts ×
            BreaksOff (run.show parts) self.old out.old.items out.new.items [] self.new) }
        ensures progress { self.new.progress ≡ self.old.progress }
        ensures fault { IfErr result (λ fault. fault ≡ ServerFault.Memory) }
        ensures grows { OnErr result ((c : Run) → LeadsTo c self.old →
            SymbolsWaitWithin c.history text.now) }
    {
        let mut rest = text;
        while !rest.is_empty() {
            let (part, later) = rest.split_at(rest.len().min(QUEUE_SYMBOLS));
            self.show_part(part, out)?;
            rest = later;
        }
        Ok(())
    }

    // Writes a text, if its verdict lets it be written.
    fn show_if(&mut self, writes: bool, text: &[u8], out: &mut Vec<u8>) -> Result<(), ServerFault>
        requires { IsFalse self.old.progress.over }
        ensures ok { OnOk result ((parts : List (List ℕ)) × run.Cuts writes text.now parts ×
            AdvancesRun (run.show parts) self.old out.old.items out.new.items [] self.new) }
        ensures err { OnErr result ((parts : List (List ℕ)) × run.Cuts writes text.now parts ×
            BreaksOff (run.show parts) self.old out.old.items out.new.items [] self.new) }
        ensures progress { self.new.progress ≡ self.old.progress }
        ensures fault { IfErr result (λ fault. fault ≡ ServerFault.Memory) }
        ensures grows { OnErr result ((c : Run) → LeadsTo c self.old →
            WaitsWithText writes c.history text.now) }
    {
        if writes {
            self.show(text, out)?;
            return Ok(());
        }
        Ok(())
    }

    // Writes a text, if its verdict lets it be written, and then pulls all symbols.
    fn show_all(&mut self, writes: bool, text: &[u8], out: &mut Vec<u8>) -> Result<(), ServerFault>
        requires { IsFalse self.old.progress.over }
        ensures ok { OnOk result ((parts : List (List ℕ)) × run.Cuts writes text.now parts ×
            AdvancesRun (λ c.
            run.flush (run.show parts c)) self.old out.old.items out.new.items [] self.new) }
        ensures err { OnErr result ((parts : List (List ℕ)) × run.Cuts writes text.now parts ×
            BreaksOff (λ c. run.flush (run.show parts c)) self.old out.old.items out.new.items [] self.new) }
        ensures progress { self.new.progress ≡ self.old.progress }
        ensures fault { IfErr result (λ fault. fault ≡ ServerFault.Memory) }
        ensures grows { OnErr result ((c : Run) → LeadsTo c self.old →
            WaitsWithText writes c.history text.now) }
    {
        self.show_if(writes, text, out)?;
        self.flush(out)?;
        Ok(())
    }

    // Asks for the first entry that waits: it goes to the foreground job, or the request waits or
    // is answered by the end.
    fn ask(&mut self, out: &mut Vec<u8>) -> Result<Put, ServerFault>
        requires { IsFalse self.old.progress.over }
        ensures ok { IfOk result (λ put.
            AdvancesRun run.ask self.old out.old.items out.new.items (run.puts_of put) self.new) }
        ensures over { IsFalse self.new.progress.over }
        ensures err { OnErr result (self.new ≡ self.old) }
        ensures err_appends { OnErr result (out.new.items ≡ out.old.items) }
        ensures fault { IfErr result (λ fault. fault ≡ ServerFault.Memory) }
        ensures grows { OnErr result ((c : Run) → LeadsTo c self.old → SaysSomething c.history events.took) }
    {
        match self.end.take(out) {
            Ok(Some(entry)) => {
                self.progress = self.progress.answered();
                Ok(Put::Entry(entry))
            },
            Ok(None) => {
                let put = end_if(self.progress.at_end);
                self.progress = self.progress.unanswered();
                Ok(put)
            },
            Err(fault) => Err(fault),
        }
    }

    // Feeds the end the bytes from the network.
    fn feed(&mut self, piece: &[u8], out: &mut Vec<u8>) -> Result<(), ServerFault>
        requires { IsFalse self.old.progress.over }
        ensures ok { OnOk result (Feeds self.old piece.now out.old.items out.new.items self.new) }
        ensures err { OnErr result (FeedBreaksOff self.old piece.now out.old.items out.new.items self.new) }
        ensures cause { IfErr result (RefusesFor self.old (Message.Piece piece.now)) }
        ensures asks { self.new.progress.asks ≡ self.old.progress.asks }
        ensures over { IsFalse self.new.progress.over }
    {
        match self.end.feed(piece, out) {
            Ok(()) => {
                self.progress = self.progress.fed();
                Ok(())
            },
            Err(fault) => {
                self.progress = self.progress.fed();
                Err(fault)
            },
        }
    }

    // Answers a request that waits by the end; no more bytes come.
    fn hang_up(&mut self) -> Put
        requires { IsFalse self.old.progress.over }
        ensures does { (x : List ℕ) → AdvancesRun run.hang_up self.old x x (run.puts_of result) self.new }
        ensures over { IsFalse self.new.progress.over }
    {
        let put = end_if(self.progress.asks);
        self.progress = self.progress.hung_up();
        put
    }

    // Answers a request that waits by the end; nothing has any effect from then on.
    fn halt(&mut self) -> Put
        ensures is { self.new ≡ record self.old { progress = counting.after_halt self.old.progress } }
        ensures put { run.puts_of result ≡ run.end_if self.old.progress.asks }
    {
        let put = end_if(self.progress.asks);
        self.progress = self.progress.halted();
        put
    }

    fn ends_by(&mut self, ended: Ended)
        requires { IsFalse self.old.progress.over }
        ensures does { (x : List ℕ) → AdvancesRun (run.ends_by ended) self.old x x [] self.new }
        ensures over { IsFalse self.new.progress.over }
    {
        self.progress = self.progress.ends(ended);
    }

    // Sets the next state of a job that could go on.
    fn moves(&mut self, id: JobId, state: JobState, next: JobState)
        requires on { IsFalse self.old.progress.over }
        requires held { state_at self.old.table id.0 ≡ Some state }
        requires runs { IsFalse (is_stopped state) }
        ensures does { (x : List ℕ) → AdvancesRun (run.move id.0 next) self.old x x [] self.new }
        ensures over { IsFalse self.new.progress.over }
    {
        match next {
            JobState::Foreground | JobState::Background => {},
            JobState::Stopped(why) => self.stop(id, state, why, is_foreground(state)),
            JobState::Ended => self.end(id, state, is_foreground(state)),
        }
    }

    fn stop(&mut self, id: JobId, state: JobState, why: Why, in_foreground: bool)
        requires on { IsFalse self.old.progress.over }
        requires held { state_at self.old.table id.0 ≡ Some state }
        requires runs { IsFalse (is_stopped state) }
        ensures does { (x : List ℕ) →
            AdvancesRun (run.stop_job id.0 why in_foreground) self.old x x [] self.new }
        ensures over { IsFalse self.new.progress.over }
    {
        if in_foreground {
            self.progress = self.progress.stops();
            return;
        }
        match self.table.stopped(id, why) {
            Ok(()) => {},
            Err(_) => {},
        }
    }

    fn end(&mut self, id: JobId, state: JobState, in_foreground: bool)
        requires on { IsFalse self.old.progress.over }
        requires held { state_at self.old.table id.0 ≡ Some state }
        ensures does { (x : List ℕ) → AdvancesRun (run.end_job id.0 in_foreground) self.old x x [] self.new }
        ensures over { IsFalse self.new.progress.over }
    {
        take_out(&mut self.table, id, state);
        if in_foreground {
            self.progress = self.progress.ends(Ended::Done);
        }
    }

    // Completes a message that has had its effect.
    fn finish(&mut self, put: Put, out: &mut Vec<u8>) -> Result<Put, Stuck>
        requires { IsFalse self.old.progress.over }
        ensures ok { IfOk result (λ p. (p ≡ put) ×
            AdvancesRun run.flush self.old out.old.items out.new.items [] self.new) }
        ensures err { IfErr result (λ s. (s.put ≡ put) × IsTrue s.given ×
            BreaksOff run.flush self.old out.old.items out.new.items [] self.new) }
        ensures fault { IfErr result (λ s. s.fault ≡ ServerFault.Memory) }
        ensures grows { OnErr result ((c : Run) → LeadsTo c self.old → SymbolsWait c.history) }
    {
        match self.flush(out) {
            Ok(()) => Ok(put),
            Err(fault) => Err(Stuck {
                fault,
                put,
                given: true,
            }),
        }
    }

    // Handles a reaction that the table's verdict lets have its effect.
    fn judged(
        &mut self,
        id: JobId,
        text: &[u8],
        state: JobState,
        verdict: Verdict,
        out: &mut Vec<u8>,
    ) -> Result<Put, Stuck>
        requires on { IsFalse self.old.progress.over }
        requires held { state_at self.old.table id.0 ≡ Some state }
        requires runs { IsFalse (is_stopped state) }
        ensures ok { IfOk result (λ put.
            Says id.0 text.now (Some verdict) self.old out.old.items out.new.items put self.new) }
        ensures err { IfErr result (λ s. IsTrue s.given ×
            SayBreaksOff id.0 text.now (Some verdict) self.old out.old.items out.new.items s.put self.new) }
        ensures fault { IfErr result (λ s. s.fault ≡ ServerFault.Memory) }
        ensures grows { OnErr result ((c : Run) → LeadsTo c self.old →
            WaitsWithText verdict.write c.history text.now) }
    {
        let is_over = ends_all(state, verdict.next);
        self.moves(id, state, verdict.next);
        let shown = self.show_all(verdict.write, text, out);
        let put = self.halt_if(is_over);
        match shown {
            Ok(()) => Ok(put),
            Err(fault) => Err(Stuck {
                fault,
                put,
                given: true,
            }),
        }
    }

    fn halt_if(&mut self, is_over: bool) -> Put
        requires { IsFalse self.old.progress.over }
        ensures { HaltsIf is_over self.old (run.puts_of result) self.new }
    {
        if is_over {
            return self.halt();
        }
        Put::Nothing
    }

    fn said(
        &mut self,
        id: JobId,
        text: &[u8],
        after: After,
        out: &mut Vec<u8>,
    ) -> Result<Put, Stuck>
        requires { IsFalse self.old.progress.over }
        ensures ok { IfOk result (λ put.
            Says id.0 text.now
            (run.verdict_at (state_at self.old.table id.0) (run.has_text text.now) after self.old.tostop)
            self.old out.old.items out.new.items put self.new) }
        ensures err { IfErr result (λ s. IsTrue s.given ×
            SayBreaksOff id.0 text.now
            (run.verdict_at (state_at self.old.table id.0) (run.has_text text.now) after self.old.tostop)
            self.old out.old.items out.new.items s.put self.new) }
        ensures fault { IfErr result (λ s. s.fault ≡ ServerFault.Memory) }
        ensures grows { OnErr result ((c : Run) → LeadsTo c self.old → WaitsWithText (run.writes
            (run.verdict_at (state_at self.old.table id.0) (run.has_text text.now) after self.old.tostop))
            c.history text.now) }
    {
        let Some(state) = self.table.state(id) else {
            return self.finish(Put::Nothing, out);
        };
        match judge(state, !text.is_empty(), after, self.tostop) {
            Some(verdict) => self.judged(id, text, state, verdict, out),
            None => self.finish(Put::Nothing, out),
        }
    }

    // Returns the echo that this job asks for: only the job in the foreground gets it.
    fn echo_by(&self, id: JobId, after: After) -> Option<bool>
        ensures { result ≡ run.echo_by (is_foreground (state_at self.now.table id.0)) after }
    {
        match self.table.state(id) {
            Some(JobState::Foreground) => after.echo(),
            Some(JobState::Background | JobState::Stopped(_) | JobState::Ended) | None => None,
        }
    }

    // Turns the echo of typed keys on or off, or leaves it.
    fn turn_echo(&mut self, echo: Option<bool>, out: &mut Vec<u8>) -> Result<(), ServerFault>
        requires { IsFalse self.old.progress.over }
        ensures ok { OnOk result
            (AdvancesRun (run.turn_echo echo) self.old out.old.items out.new.items [] self.new) }
        ensures rest { self.new ≡ record self.old { end = self.new.end } }
        ensures err { OnErr result (self.new ≡ self.old) }
        ensures err_appends { OnErr result (out.new.items ≡ out.old.items) }
        ensures cause { IfErr result (λ fault. (c : Run) → LeadsTo c self.old →
            (fault ≡ ServerFault.Memory) × TellsEcho echo c.history) }
    {
        let Some(on) = echo else {
            return Ok(());
        };
        match self.end.set_echo(on, out) {
            Ok(()) => Ok(()),
            Err(fault) => Err(fault),
        }
    }

    // Handles a job's reaction: the echo that it asks for, and then its text and what comes next.
    fn react(
        &mut self,
        id: JobId,
        text: &[u8],
        after: After,
        out: &mut Vec<u8>,
    ) -> Result<Put, Stuck>
        requires { IsFalse self.old.progress.over }
        ensures ok { IfOk result (λ put.
            DoesWhole self.old (Message.Said id text.now after) out.old.items out.new.items put self.new) }
        ensures err { IfErr result (λ s.
            StopsWithin self.old (Message.Said id text.now after) s.given out.old.items out.new.items s.put
            self.new) }
        ensures cause { IfErr result (λ s. RefusesFor self.old (Message.Said id text.now after) s.fault) }
    {
        let echo = self.echo_by(id, after);
        self.turn_echo(echo, out)?;
        self.said(id, text, after, out)
    }

    fn piece(&mut self, piece: &[u8], out: &mut Vec<u8>) -> Result<Put, Stuck>
        requires { IsFalse self.old.progress.over }
        ensures ok { IfOk result (λ put.
            DoesWhole self.old (Message.Piece piece.now) out.old.items out.new.items put self.new) }
        ensures err { IfErr result (λ s.
            StopsWithin self.old (Message.Piece piece.now) s.given out.old.items out.new.items s.put
            self.new) }
        ensures cause { IfErr result (λ s. RefusesFor self.old (Message.Piece piece.now) s.fault) }
    {
        let asks = self.progress.asks;
        self.feed(piece, out)?;
        if asks {
            let put = self.ask(out)?;
            self.finish(put, out)
        } else {
            self.finish(Put::Nothing, out)
        }
    }

    fn take(&mut self, out: &mut Vec<u8>) -> Result<Put, Stuck>
        requires { IsFalse self.old.progress.over }
        ensures ok { IfOk result (λ put.
            DoesWhole self.old Message.Take out.old.items out.new.items put self.new) }
        ensures err { IfErr result (λ s.
            StopsWithin self.old Message.Take s.given out.old.items out.new.items s.put self.new) }
        ensures fault { IfErr result (λ s. s.fault ≡ ServerFault.Memory) }
        ensures grows { OnErr result ((c : Run) → LeadsTo c self.old → WaitsWithRequest c.history) }
    {
        match self.ask(out) {
            Ok(put) => self.finish(put, out),
            Err(fault) => {
                self.progress = self.progress.asking();
                Err(Stuck {
                    fault,
                    put: Put::Nothing,
                    given: false,
                })
            },
        }
    }

    fn refused(&mut self, out: &mut Vec<u8>) -> Result<Put, Stuck>
        requires { IsFalse self.old.progress.over }
        ensures ok { IfOk result (λ put.
            DoesWhole self.old Message.Refused out.old.items out.new.items put self.new) }
        ensures err { IfErr result (λ s.
            StopsWithin self.old Message.Refused s.given out.old.items out.new.items s.put self.new) }
        ensures fault { IfErr result (λ s. s.fault ≡ ServerFault.Memory) }
        ensures grows { OnErr result ((c : Run) → LeadsTo c self.old → SymbolsWait c.history) }
    {
        self.ends_by(Ended::Fault(SessionFault::Memory));
        let pulled = self.flush(out);
        let put = self.halt();
        match pulled {
            Ok(()) => Ok(put),
            Err(fault) => Err(Stuck {
                fault,
                put,
                given: true,
            }),
        }
    }

    // Handles a message that has its effect.
    fn act(&mut self, message: Message, out: &mut Vec<u8>) -> Result<Put, Stuck>
        requires { IsFalse self.old.progress.over }
        ensures ok { IfOk result (λ put.
            DoesWhole self.old message out.old.items out.new.items put self.new) }
        ensures err { IfErr result (λ s.
            StopsWithin self.old message s.given out.old.items out.new.items s.put self.new) }
        ensures cause { IfErr result (λ s. RefusesFor self.old message s.fault) }
    {
        match message {
            Message::Piece(piece) => self.piece(piece.as_slice(), out),
            Message::Take => self.take(out),
            Message::Said { job, text, after } => self.react(job, text.as_slice(), after, out),
            Message::HangUp => {
                let put = self.hang_up();
                self.finish(put, out)
            },
            Message::ReadFailed => {
                self.ends_by(Ended::Fault(SessionFault::Read));
                let put = self.hang_up();
                self.finish(put, out)
            },
            Message::Refused => self.refused(out),
            Message::Left => self.finish(Put::Nothing, out),
            Message::Resized(_) => self.finish(Put::Nothing, out),
            Message::Asked(_) => self.finish(Put::Nothing, out),
        }
    }

    // Fails: nothing has any effect from then on. It returns the entry for the foreground job.
    fn fails(&mut self, fault: SessionFault) -> Put
        ensures progress { self.new.progress ≡
            counting.after_halt (counting.after_end (Ended.Fault fault) self.old.progress) }
        ensures put { run.puts_of result ≡ run.end_if self.old.progress.asks }
    {
        let put = end_if(self.progress.asks);
        self.progress = self.progress.ends(Ended::Fault(fault)).halted();
        put
    }

    /// Takes the report that a write failed: nothing has any effect from then on. It returns the
    /// entry for the foreground job.
    pub fn write_failed(&mut self) -> Put
        ensures leads { (c : Run) → LeadsTo c self.old → LeadsTo (run.fail SessionFault.Write c) self.new }
        ensures puts { (c : Run) → LeadsTo c self.old →
            (run.fail SessionFault.Write c).puts ≡ c.puts ++ run.puts_of result }
        ensures over { IsTrue self.new.progress.over }
    {
        self.fails(SessionFault::Write)
    }

    /// Returns the progress of the session.
    pub fn progress(&self) -> ServerProgress
        ensures { result ≡ self.now.progress }
    {
        self.progress
    }

    /// Returns how far it is with the typed keys.
    pub fn typed(&self) -> Typed {
        Typed {
            pieces: self.progress.pieces,
            is_answered: self.progress.asks,
            is_interrupted: self.is_interrupted(),
        }
    }

    /// Returns the size of the client's window in characters; 0 leaves a dimension open (RFC 1073).
    pub fn size(&self) -> WindowSize
        ensures { (c : Run) → LeadsTo c self.now → IsFalse self.now.progress.over →
            (result.width, result.height) ≡ size c.history }
    {
        let (width, height) = self.end.size();
        WindowSize { width, height }
    }

    // Returns whether an interrupt or a quit waits for the foreground job.
    fn is_interrupted(&self) -> bool {
        for index in 0..MAX_WAITING {
            match self.end.waiting(index) {
                Some(Entry::Signal(Sig::Int | Sig::Quit)) => return true,
                Some(_) => {},
                None => return false,
            }
        }
        false
    }

    /// Returns whether one more piece is welcome: at most 511 entries wait, whose lines have at
    /// most 60,000 bytes, or nothing has any effect any more. So a piece of 512 bytes finds room
    /// for its entries: each byte makes at most one, and the first may make another of a CR that
    /// came last before it.
    pub fn is_welcoming(&self) -> bool
        ensures room { (c : Run) → LeadsTo c self.now → IsTrue result → IsFalse self.now.progress.over →
            HasRoom (waiting c.history) }
        ensures full { (c : Run) → LeadsTo c self.now → IsFalse result → IsCrowded (waiting c.history) }
        ensures over { IsTrue self.now.progress.over → IsTrue result }
    {
        if self.progress.over {
            return true;
        }
        match self.end.waiting(MAX_BEFORE_PIECE) {
            Some(_) => false,
            None => self.has_few_bytes(),
        }
    }

    // Returns whether the lines that wait, of few entries, are short.
    fn has_few_bytes(&self) -> bool
        requires on { IsFalse self.now.progress.over }
        requires few { (c : Run) → LeadsTo c self.now → length (waiting c.history) ≤ max_before_piece }
        ensures few { (c : Run) → LeadsTo c self.now → IsTrue result →
            line_bytes (waiting c.history) ≤ max_bytes_before_piece }
        ensures many { (c : Run) → LeadsTo c self.now → IsFalse result →
            max_bytes_before_piece < line_bytes (waiting c.history) }
    {
        let mut room = MAX_BYTES_BEFORE_PIECE;
        for index in 0..MAX_BEFORE_PIECE {
            match self.end.waiting(index) {
                Some(entry) => {
                    let bytes = line_bytes(entry);
                    if bytes > room {
                        return false;
                    }
                    room -= bytes;
                },
                None => return true,
            }
        }
        true
    }

    /// Returns whether this message is welcome: a piece has at most 512 bytes, and comes when one
    /// more is welcome. Any other message always is. So no welcome message ends the session because
    /// too many entries wait.
    pub fn welcomes(&self, message: &Message) -> bool
        ensures welcome { (c : Run) → LeadsTo c self.now → IsTrue result → IsWelcome c message.now }
        ensures unwelcome { (c : Run) → LeadsTo c self.now → IsFalse result → IsUnwelcome c message.now }
    {
        match message {
            Message::Piece(piece) => piece.as_slice().len() <= MAX_PIECE && self.is_welcoming(),
            _ => true,
        }
    }

    /// Handles one message, and appends what is to be sent to the network.
    pub fn handle(&mut self, message: Message, out: &mut Vec<u8>) -> MessageOutcome
        requires { out.old.items ≡ [] }
        ensures turns { IsTurn result.mark self.old message out.new.items result.put result.last self.new }
        ensures none { IsTrue (is_whole result.mark) → result.last ≡ Put.Nothing }
        ensures unwritten { IsTrue (no_write_failed result.mark) }
    {
        if self.progress.over {
            return MessageOutcome {
                put: idle_put(&message),
                last: Put::Nothing,
                mark: ServerMark::Whole,
            };
        }
        match self.act(message, out) {
            Ok(put) => MessageOutcome {
                put,
                last: Put::Nothing,
                mark: ServerMark::Whole,
            },
            Err(Stuck { fault, put, given }) => {
                let last = self.fails(SessionFault::Server(fault));
                MessageOutcome {
                    put,
                    last,
                    mark: ServerMark::Refused { fault, put: given },
                }
            },
        }
    }
}

// Returns the number of bytes of an entry if it is a line.
fn line_bytes(entry: &Entry) -> usize
    ensures { result ≡ line_bytes (entry.now ∷ []) }
{
    match entry {
        Entry::Text(line) => line.as_slice().len(),
        Entry::Eof => 0,
        Entry::Signal(_) => 0,
    }
}

fn is_foreground(state: JobState) -> bool
    ensures { result ≡ is_foreground (Some state) }
{
    match state {
        JobState::Foreground => true,
        JobState::Background | JobState::Stopped(_) | JobState::Ended => false,
    }
}

fn ends_all(state: JobState, next: JobState) -> bool
    ensures { result ≡ (run.is_end next && is_foreground (Some state)) }
{
    match next {
        JobState::Ended => is_foreground(state),
        JobState::Background | JobState::Stopped(_) | JobState::Foreground => false,
    }
}

fn take_out(table: &mut Table, id: JobId, state: JobState)
    requires { state_at table.old id.0 ≡ Some state }
    ensures { table.new ≡ with_state table.old id.0 None }
{
    match table.done(id) {
        Ok(()) => {},
        Err(_) => {},
    }
}

// Returns the entry that a message gives once nothing has any effect.
fn idle_put(message: &Message) -> Put
    ensures { run.puts_of result ≡ run.idle_puts message.now }
{
    match message {
        Message::Take => Put::End,
        _ => Put::Nothing,
    }
}

// Returns the end, if that answers a request.
fn end_if(ends: bool) -> Put
    ensures { run.puts_of result ≡ run.end_if ends }
{
    if ends { Put::End } else { Put::Nothing }
}
