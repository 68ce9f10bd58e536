//! The work that a workload did, and the time that it took.

use std::alloc::{AllocError, AllocFailed, Global};
use std::io;
use std::io::Write;
use std::thread::SpawnError;
use std::time::{Clock, Duration};

/// The number of rounds of a long run; the fastest is printed.
const ROUNDS: u32 = 8;

/// The least time that a round takes, in nanoseconds.
const ROUND: u128 = 60_000_000;

/// The number of questions of a long run if each answer is waited for.
const ASKED: u64 = 4_000;

/// A workload could not be done, or its line could not be printed.
#[derive(Clone, Copy)]
pub(crate) struct Stuck;

impl From<AllocError> for Stuck {
    fn from(_error: AllocError) -> Stuck {
        Stuck
    }
}

impl<T: Drop> From<AllocFailed<T>> for Stuck {
    fn from(_error: AllocFailed<T>) -> Stuck {
        Stuck
    }
}

impl<F: Drop> From<SpawnError<F>> for Stuck {
    fn from(_error: SpawnError<F>) -> Stuck {
        Stuck
    }
}

impl From<io::Error> for Stuck {
    fn from(_error: io::Error) -> Stuck {
        Stuck
    }
}

/// The number of bytes that were passed in, and of units that came out: lines, items, or runs of
/// plain bytes.
#[derive(Clone, Copy)]
pub(crate) struct Done {
    pub(crate) bytes: u64,
    pub(crate) wholes: u64,
}

impl Done {
    pub(crate) fn nothing() -> Done {
        Done {
            bytes: 0,
            wholes: 0,
        }
    }

    /// The sum of both.
    pub(crate) fn and(self, more: Done) -> Done {
        Done {
            bytes: self.bytes.saturating_add(more.bytes),
            wholes: self.wholes.saturating_add(more.wholes),
        }
    }
}

/// The time that some work took, in nanoseconds.
#[derive(Clone, Copy)]
struct Round {
    done: Done,
    taken: u128,
}

impl Round {
    fn picoseconds_per_byte(self) -> u128 {
        let bytes = u128::from(self.done.bytes);
        self.taken
            .saturating_mul(1_000)
            .checked_div(bytes)
            .unwrap_or(0)
    }
}

/// Something to be done again and again.
pub(crate) trait Workload {
    /// Does all of it once.
    fn once(&mut self) -> Result<Done, Stuck>;
}

/// Runs workloads, and prints a line for each.
#[derive(Drop)]
pub(crate) struct Bench<'a, H, W> {
    rt: H,
    out: &'a mut W,
    long: bool,
}

impl<'a, H: Clock, W: Write> Bench<'a, H, W> {
    pub(crate) fn new(rt: H, out: &'a mut W, long: bool) -> Bench<'a, H, W> {
        Bench { rt, out, long }
    }

    /// Does a workload as often as asked, and prints its counts under this name, or in a long run the
    /// speed of its fastest round.
    pub(crate) fn tell<L: Workload + Drop>(
        &mut self,
        name: &str,
        mut load: L,
    ) -> Result<(), Stuck> {
        self.tell_load(name, &mut load)
    }

    fn tell_load<L: Workload>(&mut self, name: &str, load: &mut L) -> Result<(), Stuck> {
        if !self.long {
            let done = load.once()?;
            writeln!(self.out, "{name}: {} bytes, {}", done.bytes, done.wholes)?;
            return Ok(());
        }
        let mut best = self.round(load)?;
        for _ in 1..ROUNDS {
            let next = self.round(load)?;
            if next.picoseconds_per_byte() < best.picoseconds_per_byte() {
                best = next;
            }
        }
        self.tell_round(name, best)
    }

    fn round<L: Workload>(&self, load: &mut L) -> Result<Round, Stuck> {
        let begin = self.rt.monotonic()?;
        let mut done = Done::nothing();
        let mut taken = 0;
        for _ in 0..u32::MAX {
            done = done.and(load.once()?);
            taken = self.rt.monotonic()?.saturating_sub(begin).as_nanos();
            if taken >= ROUND {
                break;
            }
        }
        Ok(Round { done, taken })
    }

    fn tell_round(&mut self, name: &str, round: Round) -> Result<(), Stuck> {
        let Round { done, taken } = round;
        let rate = u128::from(done.bytes)
            .saturating_mul(10_000)
            .checked_div(taken)
            .unwrap_or(0);
        let each = u128::from(done.wholes).saturating_mul(1_000_000_000);
        let each = each.checked_div(taken).unwrap_or(0);
        let cost = round.picoseconds_per_byte();
        let (rate, tenth) = (rate / 10, rate % 10);
        let (cost, part) = (cost / 1_000, cost % 1_000 / 10);
        writeln!(
            self.out,
            "{name}: {rate}.{tenth} MB/s, {each} /s, {cost}.{part:02} ns per byte"
        )?;
        Ok(())
    }

    /// Does a workload that waits for an answer, and prints under this name the median of the times that
    /// it took.
    pub(crate) fn tell_middle<L: Workload>(
        &mut self,
        alloc: Global,
        name: &str,
        load: &mut L,
    ) -> Result<(), Stuck> {
        if !self.long {
            return self.tell_load(name, load);
        }
        let mut times: Vec<Duration> = Vec::new(alloc);
        for _ in 0..ASKED {
            let begin = self.rt.monotonic()?;
            load.once()?;
            times.push(self.rt.monotonic()?.saturating_sub(begin))?;
        }
        times.sort_unstable();
        let middle = nanoseconds_at(&times, times.len() / 2);
        let least = nanoseconds_at(&times, times.len() / 100);
        let (middle, tenth) = (middle / 1_000, middle % 1_000 / 100);
        let (least, part) = (least / 1_000, least % 1_000 / 100);
        writeln!(
            self.out,
            "{name}: {middle}.{tenth} us, and {least}.{part} us for the fastest hundredth"
        )?;
        Ok(())
    }
}

fn nanoseconds_at(times: &[Duration], place: usize) -> u128 {
    times.get(place).map_or(0, |time| time.as_nanos())
}

/// Returns the bytes again and again, this number of times.
pub(crate) fn repeated(alloc: Global, bytes: &[u8], times: u32) -> Result<Vec<u8>, AllocError> {
    let mut all = Vec::new(alloc);
    for _ in 0..times {
        all.extend_from_slice(bytes)?;
    }
    Ok(all)
}
