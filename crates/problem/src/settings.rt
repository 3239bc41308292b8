ghost use Rattle.std.specs.Prelude.{◌≤◌};

use refusals::Refusal;

// What is known of a slice before it is scanned. The limits hold for as long as a record exists.
#[derive(Clone, Copy)]
pub struct Settings {
    pub columns: usize,
    pub rows: usize,
    // the density of wood, in every pixel of an image
    pub lowest: u16,
    pub highest: u16,
    // how dear a difference between neighbours is
    pub strength: u32,
    // the largest distance from the best image that is still graded as good
    pub tolerance: u64,
    ghost sized: { (1 ≤ columns) × (columns ≤ 48) × (1 ≤ rows) × (rows ≤ 48) },
    ghost dense: { (lowest ≤ highest) × (highest ≤ 1023) },
    ghost strong: { strength ≤ 1048576 },
    ghost tolerant: { tolerance ≤ 1000000000000 },
}

impl Settings {
    ghost use Rattle.std.specs.Prelude.{◌≡◌, ◌*◌, Some, None, MatchResult};
    ghost use Rattle.problem.specs.Setting.{settings_fault, pixel_count, Holds};

    // Settings of these numbers, or the first rule that they break.
    pub fn new(
        columns: usize,
        rows: usize,
        lowest: u16,
        highest: u16,
        strength: u32,
        tolerance: u64,
    ) -> Result<Settings, Refusal>
        ensures { MatchResult result (λ s. (settings_fault columns rows lowest highest strength tolerance ≡ None) × Holds columns rows lowest highest strength tolerance s) (λ e. settings_fault columns rows lowest highest strength tolerance ≡ Some e) }
    {
        if !(1..=48).contains(&columns) || !(1..=48).contains(&rows) {
            return Err(Refusal::Size);
        }
        if lowest > highest || highest > 1023 {
            return Err(Refusal::Density);
        }
        if strength > 1_048_576 {
            return Err(Refusal::Strength);
        }
        if tolerance > 1_000_000_000_000 {
            return Err(Refusal::Setting);
        }
        Ok(Settings {
            columns,
            rows,
            lowest,
            highest,
            strength,
            tolerance,
        })
    }

    // The number of pixels of the slice.
    pub fn pixels(&self) -> usize
        ensures { result ≡ pixel_count self.now }
    {
        self.columns * self.rows
    }
}
