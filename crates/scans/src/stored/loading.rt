ghost use Rattle.std.specs.Prelude.{◌≡◌, ◌≤◌, length, None, MatchResult};
ghost use Rattle.std.specs.Option.{unwrap_or};
ghost use Rattle.problem.specs.Setting.{pixel_count};
ghost use Rattle.scans.specs.Loading.{starts_fault};
ghost use Rattle.scans.specs.Tables.{no_rays, largest_count, largest_reading};
ghost use Rattle.scans.specs.Handed.{table_fault, scan_of};
ghost use Rattle.scans.specs.Stored.{stored_meaning};

use super::StoredScan;
use crate::table::Table;
use problem::settings::Settings;
use refusals::Refusal;
use std::alloc::Global;

// The largest number of entries of a ray, 0 where there are no rays.
fn largest_count(table: &Table) -> usize
    requires { starts_fault (length table.now.readings.now) (length table.now.entries.now) table.now.starts.now ≡ None }
    ensures value { result ≡ largest_count (length table.now.readings.now) table.now.starts.now }
    ensures low { result ≤ 128 }
{
    table
        .starts
        .array_windows::<2>()
        .map(|[from, to]| to - from)
        .max()
        .unwrap_or(0)
}

// The largest reading, 0 where there is none.
fn largest_reading(readings: &[u32]) -> u32
    ensures { result ≡ largest_reading readings.now }
{
    readings.iter().copied().max().unwrap_or(0)
}

impl StoredScan {
    // A slice of these settings with no rays.
    #[tactic(auto, unfolding(crate::specs::Choosing::largest, crate::specs::Choosing::first_some, crate::specs::Loading::starts_fault, crate::specs::Loading::entries_fault, crate::specs::Loading::readings_fault))]
    pub fn new(heap: Global, settings: &Settings) -> Result<StoredScan, Refusal>
        ensures { MatchResult result (λ s. stored_meaning s ≡ no_rays (pixel_count settings.now)) (λ e. e ≡ Refusal.OutOfMemory) }
    {
        let starts = Vec::from_slice(heap, &[0])?;
        Ok(StoredScan {
            pixels: settings.pixels(),
            starts,
            entries: Vec::new(heap),
            readings: Vec::new(heap),
            ray_cap: 0,
            reading_cap: 0,
        })
    }

    // Holds these rays in place of those that it had. Refuses a table with a fault, or for want of memory,
    // and then holds what it held.
    pub fn load(&mut self, heap: Global, table: &Table) -> Result<(), Refusal>
        ensures { MatchResult result (λ _. (table_fault self.old.pixels table.now ≡ None) × (stored_meaning self.new ≡ scan_of self.old.pixels table.now)) (λ e. (e ≡ unwrap_or (table_fault self.old.pixels table.now) Refusal.OutOfMemory) × (self.new ≡ self.old)) }
    {
        table.check(self.pixels)?;
        let starts = Vec::from_slice(heap, table.starts)?;
        let entries = Vec::from_slice(heap, table.entries)?;
        let readings = Vec::from_slice(heap, table.readings)?;
        self.starts = starts;
        self.entries = entries;
        self.readings = readings;
        // a ray has at most 128 entries: nothing is cut off
        self.ray_cap = 31 * largest_count(table) as u32;
        self.reading_cap = largest_reading(table.readings);
        Ok(())
    }
}
