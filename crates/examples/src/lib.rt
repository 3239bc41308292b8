// Worked examples: proved of the very definitions that the contracts cite, and run through the code as tests.
#![tactic(auto)]

ghost use Rattle.examples.specs.Worked.{WorkedExamples, SaddleExamples, BestImageOfTwo};

use problem::duality::saddle_theorem;

pub mod distance;

// Every worked example comes out as told.
pub fn worked_examples_stand()
    ensures judged { WorkedExamples }
    ensures saddle { SaddleExamples }
{}

// The saddle theorem says something: by it, and by one proposal whose bound is its objective, the best image of the two
// pixels is known.
pub fn best_image_of_two_is_known()
    ensures { BestImageOfTwo }
{
    saddle_theorem();
}

#[cfg(test)]
mod tests {
    use crate::distance::distance_told;
    use judge::verdict::Verdict;
    use judge::weigh::weigh;
    use misfits::absolute::Absolute;
    use misfits::square::Square;
    use problem::misfit::{DrivenMisfit, Misfit};
    use problem::posed::Problem;
    use problem::proposal::Proposal;
    use problem::scan::Scan;
    use problem::settings::Settings;
    use refusals::Refusal;
    use scans::stored::StoredScan;
    use scans::table::Table;
    use std::alloc::Global;
    use std::test::Fail;

    // Two pixels side by side, densities 0 to 10, strength 1, each crossed by a ray of its own.
    #[derive(Drop)]
    struct Two {
        settings: Settings,
        scan: StoredScan,
    }

    impl Two {
        fn load(heap: Global) -> Result<Two, Refusal> {
            let settings = Settings::new(2, 1, 0, 10, 1, 0)?;
            let mut scan = StoredScan::new(heap, &settings)?;
            scan.load(
                heap,
                &Table {
                    starts: &[0, 1, 2],
                    entries: &[(0, 1), (1, 1)],
                    readings: &[4, 8],
                },
            )?;
            Ok(Two { settings, scan })
        }

        fn problem<'a, M>(&'a self, misfit: &'a M) -> Problem<'a, StoredScan, M> {
            Problem {
                settings: &self.settings,
                scan: &self.scan,
                misfit,
            }
        }
    }

    fn proposal<'a>(image: &'a [u16], ray_numbers: &'a [i32], slopes: &'a [i32]) -> Proposal<'a> {
        Proposal {
            image,
            ray_numbers,
            slopes,
        }
    }

    fn told(objective: i64, bound: i64) -> Result<Verdict, Refusal> {
        Ok(Verdict { objective, bound })
    }

    #[test]
    fn two_pixels_are_judged(rt: HostRuntime) -> Result<(), Fail> {
        let two = Two::load(rt.alloc())?;
        let problem = two.problem(&Square);
        let best = weigh(&problem, &proposal(&[5, 7], &[1, -1], &[1, 0, 0, 0]));
        assert_eq!(rt; best, told(6, 6));
        let flat = weigh(&problem, &proposal(&[6, 6], &[2, -2], &[1, 0, 0, 0]));
        assert_eq!(rt; flat, told(8, -12));
        let absolute = Absolute::new(3)?;
        let problem = two.problem(&absolute);
        let readings = weigh(&problem, &proposal(&[4, 8], &[1, -1], &[1, 0, 0, 0]));
        assert_eq!(rt; readings, told(8, 8));
        Ok(())
    }

    #[test]
    fn a_caller_is_told_the_distance(rt: HostRuntime) -> Result<(), Fail> {
        let two = Two::load(rt.alloc())?;
        let problem = two.problem(&Square);
        let none = distance_told(&problem, &proposal(&[4, 8], &[0, 0], &[0, 0, 0, 0]));
        assert_eq!(rt; none, Ok(8));
        let best = distance_told(&problem, &proposal(&[5, 7], &[1, -1], &[1, 0, 0, 0]));
        assert_eq!(rt; best, Ok(0));
        let dense = distance_told(&problem, &proposal(&[5, 11], &[0, 0], &[0, 0, 0, 0]));
        assert_eq!(rt; dense, Err(Refusal::Pixel(1)));
        Ok(())
    }

    #[test]
    fn two_pixels_are_refused(rt: HostRuntime) -> Result<(), Fail> {
        let two = Two::load(rt.alloc())?;
        let problem = two.problem(&Square);
        let slope = weigh(&problem, &proposal(&[5, 7], &[0, 0], &[0, 1, 0, 0]));
        assert_eq!(rt; slope, Err(Refusal::Slope(1)));
        let number = weigh(&problem, &proposal(&[5, 7], &[0, 4_194_305], &[0, 0, 0, 0]));
        assert_eq!(rt; number, Err(Refusal::RayNumber(1)));
        let largest = weigh(&problem, &proposal(&[5, 7], &[0, 4_194_304], &[0, 0, 0, 0]));
        assert_eq!(rt; largest, told(6, -17_592_253_153_280));
        Ok(())
    }

    #[test]
    fn a_stored_scan_answers_what_was_loaded(rt: HostRuntime) -> Result<(), Fail> {
        let scan = Two::load(rt.alloc())?.scan;
        assert_eq!(rt; scan.pixels(), 2);
        assert_eq!(rt; scan.rays(), 2);
        assert_eq!(rt; scan.entries(1), 1);
        assert_eq!(rt; scan.entry(1, 0), Some((1, 1)));
        assert_eq!(rt; scan.entry(1, 1), None);
        assert_eq!(rt; scan.reading(1), 8);
        assert_eq!(rt; scan.ray_cap(), 31);
        assert_eq!(rt; scan.pixel_cap(), 62);
        assert_eq!(rt; scan.reading_cap(), 8);
        Ok(())
    }

    #[test]
    fn a_refused_load_changes_nothing(rt: HostRuntime) -> Result<(), Fail> {
        let mut scan = Two::load(rt.alloc())?.scan;
        let refused = scan.load(
            rt.alloc(),
            &Table {
                starts: &[0, 1, 2],
                entries: &[(0, 1), (2, 1)],
                readings: &[5, 5],
            },
        );
        assert_eq!(rt; refused, Err(Refusal::Entry(1)));
        assert_eq!(rt; scan.entry(1, 0), Some((1, 1)));
        assert_eq!(rt; scan.reading(0), 4);
        Ok(())
    }

    #[test]
    fn the_square_misfit_answers(rt: HostRuntime) {
        assert_eq!(rt; Square.cost(3), 9);
        assert_eq!(rt; Square.cost(4_194_305), 0);
        assert_eq!(rt; Square.conjugate(-4_194_304), 17_592_186_044_416);
        assert_eq!(rt; Square.conjugate(4_194_305), 0);
        assert_eq!(rt; Square.subgradient(-7), -7);
        assert!(rt; Square.proximal(6.0, 0.5) == 4.0);
    }

    #[test]
    fn the_absolute_misfit_answers(rt: HostRuntime) -> Result<(), Fail> {
        assert!(rt; matches!(Absolute::new(0), Err(Refusal::Setting)));
        assert!(rt; matches!(Absolute::new(1025), Err(Refusal::Setting)));
        let misfit = Absolute::new(3)?;
        assert_eq!(rt; misfit.cost(-2), 12);
        assert_eq!(rt; misfit.cost(i64::MIN), 0);
        assert_eq!(rt; misfit.end(), 3);
        assert_eq!(rt; misfit.subgradient(-2), -3);
        assert_eq!(rt; misfit.subgradient(0), 0);
        assert!(rt; misfit.proximal(-3.5, 1.0) == -3.0);
        Ok(())
    }
}
