ghost use Rattle.std.specs.Prelude.{◌≡◌, ◌≤◌, length, None};
ghost use Rattle.std.specs.Option.{option_map};
ghost use Rattle.std.specs.Result.{result_err};
ghost use Rattle.scans.specs.Loading.{starts_fault, entries_fault, readings_fault};
ghost use Rattle.scans.specs.Handed.{table_fault};

use crate::limits::{EntryLimits, ReadingLimits, StartLimits};
use problem::limits::first_outside;
use refusals::Refusal;

// Rays in compressed rows: the entries of ray i are those from starts(i) up to starts(i + 1).
#[derive(Clone, Copy)]
pub struct Table<'a> {
    pub starts: &'a [usize],
    // all rays' entries: pixel and weight
    pub entries: &'a [(usize, u32)],
    pub readings: &'a [u32],
}

impl Table<'_> {
    // Whether the table can be loaded over so many pixels; else the first fault: of the number of rays, then of
    // starts, entries and readings.
    pub fn check(&self, pixels: usize) -> Result<(), Refusal>
        ensures { result_err result ≡ table_fault pixels self.now }
    {
        if self.readings.len() > 4096 {
            return Err(Refusal::Rays);
        }
        self.check_starts()?;
        self.check_entries(pixels)?;
        self.check_readings()
    }

    // The first wrong start; 0 where their number is wrong.
    #[tactic(auto, unfolding(crate::specs::Loading::starts_fault))]
    fn check_starts(&self) -> Result<(), Refusal>
        requires { length self.now.readings.now ≤ 4096 }
        ensures { result_err result ≡ option_map Refusal.Starts (starts_fault (length self.now.readings.now) (length self.now.entries.now) self.now.starts.now) }
    {
        let rays = self.readings.len();
        if self.starts.len() != rays + 1 {
            return Err(Refusal::Starts(0));
        }
        let limits = StartLimits {
            rays,
            entries: self.entries.len(),
        };
        first_outside(self.starts, &limits)
            .map(Refusal::Starts)
            .map_or(Ok(()), Err)
    }

    // The first wrong entry, ray by ray.
    #[tactic(auto, unfolding(crate::specs::Choosing::first_some))]
    fn check_entries(&self, pixels: usize) -> Result<(), Refusal>
        requires { starts_fault (length self.now.readings.now) (length self.now.entries.now) self.now.starts.now ≡ None }
        ensures { result_err result ≡ option_map Refusal.Entry (entries_fault (length self.now.readings.now) pixels self.now.starts.now self.now.entries.now) }
    {
        let limits = EntryLimits { pixels };
        for [from, to] in self.starts.array_windows::<2>() {
            if let Some(k) = first_outside(&self.entries[*from..*to], &limits) {
                return Err(Refusal::Entry(from + k));
            }
        }
        Ok(())
    }

    // The first wrong reading.
    #[tactic(auto, unfolding(crate::specs::Loading::readings_fault))]
    fn check_readings(&self) -> Result<(), Refusal>
        ensures { result_err result ≡ option_map Refusal.Reading (readings_fault self.now.readings.now) }
    {
        first_outside(self.readings, &ReadingLimits)
            .map(Refusal::Reading)
            .map_or(Ok(()), Err)
    }
}
