ghost use Rattle.std.specs.Prelude.{◌≡◌, None, MatchResult};
ghost use Rattle.refusals.specs.declared.Refusal.TheVariants.{OutOfMemory};
ghost use Rattle.problem.specs.Setting.{Holds, pixel_count};
ghost use Rattle.scans.specs.Handed.{table_fault, scan_of};
ghost use Rattle.scans.specs.Stored.{stored_meaning};
ghost use Rattle.examples.specs.Slices.{two_rays, six_rays};

use problem::posed::Problem;
use problem::settings::Settings;
use refusals::Refusal;
use scans::stored::StoredScan;
use scans::table::Table;
use std::alloc::Global;

// A slice with its scan. (The tests of `examples` have one of their own: a public type for both would want contracts and edits.)
#[derive(Drop)]
pub(crate) struct Slice {
    pub settings: Settings,
    pub scan: StoredScan,
}

impl Slice {
    // A slice of these settings, crossed by the rays of a table without a fault.
    fn load(heap: Global, settings: Settings, table: &Table) -> Result<Slice, Refusal>
        requires { table_fault (pixel_count settings) table.now ≡ None }
        ensures { MatchResult result (λ s. (s.settings ≡ settings) × (stored_meaning s.scan ≡ scan_of (pixel_count settings) table.now)) (λ e. e ≡ OutOfMemory) }
    {
        let mut scan = StoredScan::new(heap, &settings)?;
        scan.load(heap, table)?;
        Ok(Slice { settings, scan })
    }

    // The slice with a misfit.
    pub(crate) fn problem<'a, M>(&'a self, misfit: &'a M) -> Problem<'a, StoredScan, M>
        ensures settings { result.settings.now ≡ self.now.settings }
        ensures scan { result.scan.now ≡ self.now.scan }
        ensures misfit { result.misfit.now ≡ misfit.now }
    {
        Problem {
            settings: &self.settings,
            scan: &self.scan,
            misfit,
        }
    }
}

// Two pixels side by side, densities 0 to 10, strength 1. Each is crossed by a ray of its own, with the readings 4 and 8.
pub(crate) fn two_pixels(heap: Global) -> Result<Slice, Refusal>
    ensures { MatchResult result (λ s. Holds 2 1 0 10 1 0 s.settings × (stored_meaning s.scan ≡ two_rays)) (λ e. e ≡ OutOfMemory) }
{
    let settings = Settings::new(2, 1, 0, 10, 1, 0)?;
    let table = Table {
        starts: &[0, 1, 2],
        entries: &[(0, 1), (1, 1)],
        readings: &[4, 8],
    };
    Slice::load(heap, settings, &table)
}

// Three columns and two rows, densities 2 to 9, strength 6. Of its four rays one crosses nothing.
pub(crate) fn six_pixels(heap: Global) -> Result<Slice, Refusal>
    ensures { MatchResult result (λ s. Holds 3 2 2 9 6 0 s.settings × (stored_meaning s.scan ≡ six_rays)) (λ e. e ≡ OutOfMemory) }
{
    let settings = Settings::new(3, 2, 2, 9, 6, 0)?;
    let table = Table {
        starts: &[0, 3, 5, 5, 8],
        entries: &[
            (0, 3),
            (1, 1),
            (2, 2),
            (1, 2),
            (4, 5),
            (2, 1),
            (3, 4),
            (5, 1),
        ],
        readings: &[31, 20, 7, 45],
    };
    Slice::load(heap, settings, &table)
}
