//! Times, and how they are printed.

use std::alloc::Global;
use std::io::Print;
use std::time::{Clock, Duration, Instant};

/// How often all is timed, the least of which counts.
pub const RUNS: usize = 5;

/// The time that an operation took, unless the clock failed, and the sum of what was read.
#[derive(Clone, Copy)]
pub struct Timing {
    pub time: Option<Duration>,
    pub sum: u64,
}

impl Timing {
    /// No time that is taken is longer.
    pub const LONGEST: Timing = Timing {
        time: Some(Duration::MAX),
        sum: 0,
    };

    /// The less of two times, if the clock gave both, and the later sum: those that were read are the
    /// same.
    pub fn least(self, later: Timing) -> Timing {
        let time = match (self.time, later.time) {
            (Some(time), Some(later)) => Some(time.min(later)),
            _ => None,
        };
        Timing {
            time,
            sum: later.sum,
        }
    }
}

/// What the clock shows, unless it fails. It and [`since`] are inlined, as calls of the clock are.
#[inline(always)]
pub fn now(rt: &impl Clock) -> Option<Instant> {
    Instant::now(rt).ok()
}

/// The time since then, unless the clock failed or fails.
#[inline(always)]
pub fn since(rt: &impl Clock, start: Option<Instant>) -> Option<Duration> {
    start?.elapsed(rt).ok()
}

/// Prints the time of each operation, in nanoseconds for each of so many calls.
pub fn print(
    rt: &impl Print,
    name: &str,
    size: u32,
    operations: &[(&str, u32, Timing)],
) -> anyhow::Result<()> {
    for (operation, calls, timing) in operations {
        let Some(time) = timing.time else {
            anyhow::bail!("the clock failed");
        };
        let nanoseconds = time.div_duration_f64(Duration::from_nanos(*calls as u64));
        println!(rt; "{name} {size} {operation} {nanoseconds:.1} {}", timing.sum)?;
    }
    Ok(())
}
