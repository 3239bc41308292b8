ghost use Rattle.std.specs.Prelude.{◌≡◌};
ghost use Rattle.scans.specs.Loading.{start_within, entry_within, reading_within};

use problem::limits::Limits;

// Where the entries of each ray start: from 0 on, never falling, at most 128 entries to a ray and 65,536 in all.
#[derive(Clone, Copy)]
pub struct StartLimits {
    pub rays: usize,
    pub entries: usize,
}

impl Limits<usize> for StartLimits {
    ghost within = { λ l. start_within l.rays l.entries };

    fn admits(&self, place: usize, before: Option<usize>, start: usize) -> bool
        ensures { result ≡ start_within self.now.rays self.now.entries place before start }
    {
        let follows = before.map_or(start == 0, |last| last <= start && start - last <= 128);
        follows && start <= 65_536 && (place != self.rays || start == self.entries)
    }
}

// The entries of one ray: pixels of the slice that rise, with weights from 1 to 31.
#[derive(Clone, Copy)]
pub struct EntryLimits {
    pub pixels: usize,
}

impl Limits<(usize, u32)> for EntryLimits {
    ghost within = { λ l. entry_within l.pixels };

    fn admits(&self, _place: usize, before: Option<(usize, u32)>, entry: (usize, u32)) -> bool
        ensures { result ≡ entry_within self.now.pixels _place before entry }
    {
        let rises = before.is_none_or(|last| last.0 < entry.0);
        entry.0 < self.pixels && (1..=31).contains(&entry.1) && rises
    }
}

// Readings: at most 4,194,303.
#[derive(Clone, Copy)]
pub struct ReadingLimits;

impl Limits<u32> for ReadingLimits {
    ghost within = { λ _. reading_within };

    fn admits(&self, _place: usize, _before: Option<u32>, reading: u32) -> bool
        ensures { result ≡ reading_within _place _before reading }
    {
        reading <= 4_194_303
    }
}
