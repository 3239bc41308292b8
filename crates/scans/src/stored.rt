ghost use Rattle.std.specs.Prelude.{◌≡◌, ◌*◌, ◌≤◌, length, IsNone};
ghost use Rattle.scans.specs.Loading.{load_fault};
ghost use Rattle.scans.specs.Tables.{largest_count, largest_reading};

pub mod loading;
pub mod questions;

// The rays of a slice in compressed rows: the entries of ray i are those from starts(i) up to starts(i + 1). So a table
// hands them over, and so a ray is found in constant time.
#[derive(Drop)]
pub struct StoredScan {
    pixels: usize,
    starts: Vec<usize>,
    // all rays' entries: pixel and weight
    entries: Vec<(usize, u32)>,
    readings: Vec<u32>,
    ray_cap: u32,
    reading_cap: u32,
    ghost sized: { (1 ≤ pixels) × (pixels ≤ 2304) },
    ghost checked: { IsNone (load_fault pixels starts.items entries.items readings.items) },
    ghost ray_capped: { ray_cap ≡ 31 * largest_count (length readings.items) starts.items },
    ghost reading_capped: { reading_cap ≡ largest_reading readings.items },
}
