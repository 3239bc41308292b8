ghost use Rattle.std.specs.Prelude.{◌≡◌};
ghost use Rattle.problem.specs.Scans.{ray_at};
ghost use Rattle.scans.specs.Stored.{stored_meaning, lawful_of};

use super::StoredScan;
use problem::scan::Scan;

impl StoredScan {
    // The entries of a ray; none for a ray that is not there.
    fn row(&self, ray: usize) -> &[(usize, u32)]
        ensures { result.now ≡ (ray_at (stored_meaning self.now) ray).entries }
    {
        if ray < self.readings.len() {
            &self.entries[self.starts[ray]..self.starts[ray + 1]]
        } else {
            &[]
        }
    }
}

impl Scan for StoredScan {
    ghost meaning = { stored_meaning };

    ghost lawful = { lawful_of };

    fn pixels(&self) -> usize {
        self.pixels
    }

    #[tactic(auto, using(crate::specs::Shape::rays_kept))]
    fn rays(&self) -> usize {
        self.readings.len()
    }

    fn entries(&self, ray: usize) -> usize {
        self.row(ray).len()
    }

    fn entry(&self, ray: usize, k: usize) -> Option<(usize, u32)> {
        self.row(ray).get(k).copied()
    }

    #[tactic(auto, using(crate::proofs::Rows::reading_is))]
    fn reading(&self, ray: usize) -> u32 {
        self.readings.get(ray).copied().unwrap_or(0)
    }

    fn ray_cap(&self) -> u32 {
        self.ray_cap
    }

    fn pixel_cap(&self) -> u32 {
        // there are at most 4,096 rays: nothing is cut off
        31 * self.readings.len() as u32
    }

    fn reading_cap(&self) -> u32 {
        self.reading_cap
    }
}
