ghost use Rattle.std.specs.Prelude.{◌≡◌, length};
ghost use Rattle.problem.specs.Scans.{ScanMeaning, LawfulScan, ray_at, entry_at};

// A table of rays over the pixels of a slice. Rays and entries are counted from 0, and asked for one by one, since a
// scan may compute them. What is not there has 0 entries and the reading 0: callers are promised that.
pub trait Scan {
    ghost meaning: { Self → ScanMeaning };

    fn pixels(&self) -> usize
        ensures { result ≡ (meaning self.now).pixels };

    fn rays(&self) -> usize
        ensures { result ≡ length (meaning self.now).rays };

    // How many entries a ray has; none where the ray is not there.
    fn entries(&self, ray: usize) -> usize
        ensures { result ≡ length (ray_at (meaning self.now) ray).entries };

    // The k-th entry of a ray: a pixel number and its weight.
    fn entry(&self, ray: usize, k: usize) -> Option<(usize, u32)>
        ensures { result ≡ entry_at (meaning self.now) ray k };

    // What the detector read; 0 where the ray is not there.
    fn reading(&self, ray: usize) -> u32
        ensures { result ≡ (ray_at (meaning self.now) ray).reading };

    // No ray's weights add up to more.
    fn ray_cap(&self) -> u32
        ensures { result ≡ (meaning self.now).ray_cap };

    // No pixel's weights over all rays add up to more.
    fn pixel_cap(&self) -> u32
        ensures { result ≡ (meaning self.now).pixel_cap };

    // No reading is higher.
    fn reading_cap(&self) -> u32
        ensures { result ≡ (meaning self.now).reading_cap };

    ghost lawful: { (s : Self) → LawfulScan (meaning s) };
}
