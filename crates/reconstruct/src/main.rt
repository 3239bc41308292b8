// Loads two small slices, judges proposals for them, and prints what the judge tells of each.
#![tactic(auto)]

mod proposal;
mod slices;

use crate::proposal::{Named, judge, tell};
use crate::slices::{Slice, six_pixels, two_pixels};
use misfits::absolute::Absolute;
use misfits::square::Square;
use problem::posed::Problem;
use scans::table::Table;
use std::io;

fn main(rt: HostRuntime) -> anyhow::Result<()> {
    run(&rt)
}

fn run(rt: &HostRuntime) -> anyhow::Result<()> {
    let absolute = Absolute::new(3)?;
    let mut two = two_pixels(rt.alloc())?;
    let six = six_pixels(rt.alloc())?;
    show_two(rt, &two, &absolute)?;
    show_refused(rt, &mut two, &six)?;
    show_six(rt, &six, &absolute)?;
    Ok(())
}

// Judges proposals for a slice under both misfits.
fn show(
    rt: &HostRuntime,
    slice: &Slice,
    absolute: &Absolute,
    proposals: &[Named],
) -> io::Result<()> {
    println!(rt; " by the square of the residual")?;
    judge(rt, &slice.problem(&Square), proposals)?;
    println!(rt; " by its absolute value, slope 3")?;
    judge(rt, &slice.problem(absolute), proposals)
}

fn show_two(rt: &HostRuntime, two: &Slice, absolute: &Absolute) -> io::Result<()> {
    println!(rt;
        "Two pixels side by side, densities 0 to 10, strength 1, one ray each, readings 4 and 8"
    )?;
    let proposals = [
        Named::new(
            "the readings, no dual numbers",
            &[4, 8],
            &[0, 0],
            &[0, 0, 0, 0],
        ),
        Named::new(
            "a flat image, dual numbers of 2",
            &[6, 6],
            &[2, -2],
            &[1, 0, 0, 0],
        ),
        Named::new(
            "the readings, dual numbers of 1",
            &[4, 8],
            &[1, -1],
            &[1, 0, 0, 0],
        ),
        Named::new(
            "in between, dual numbers of 1",
            &[5, 7],
            &[1, -1],
            &[1, 0, 0, 0],
        ),
    ];
    show(rt, two, absolute, &proposals)
}

fn show_refused(rt: &HostRuntime, two: &mut Slice, six: &Slice) -> io::Result<()> {
    println!(rt; " what does not fit")?;
    let proposals = [
        Named::new(
            "an image of three pixels",
            &[5, 7, 5],
            &[0, 0],
            &[0, 0, 0, 0],
        ),
        Named::new(
            "a pixel that is too dense",
            &[5, 11],
            &[0, 0],
            &[0, 0, 0, 0],
        ),
        Named::new(
            "a ray number that is too large",
            &[5, 7],
            &[0, 4_194_305],
            &[0, 0, 0, 0],
        ),
        Named::new(
            "a slope above the strength",
            &[5, 7],
            &[0, 0],
            &[2, 0, 0, 0],
        ),
        Named::new(
            "a slope where the slice ends",
            &[5, 7],
            &[0, 0],
            &[0, 1, 0, 0],
        ),
    ];
    judge(rt, &two.problem(&Square), &proposals)?;
    let mixed = Problem {
        settings: &six.settings,
        scan: &two.scan,
        misfit: &Square,
    };
    judge(
        rt,
        &mixed,
        &[Named::new("settings of another slice", &[], &[], &[])],
    )?;
    let table = Table {
        starts: &[0, 1, 2],
        entries: &[(0, 1), (2, 1)],
        readings: &[4, 8],
    };
    let answer = two.scan.load(rt.alloc(), &table);
    tell(
        rt,
        "a table with an entry past the slice",
        answer.map(|()| "accepted"),
    )
}

fn show_six(rt: &HostRuntime, six: &Slice, absolute: &Absolute) -> io::Result<()> {
    println!(rt; "Three columns and two rows, densities 2 to 9, strength 6, four rays")?;
    let proposals = [
        Named::new(
            "a flat image, no dual numbers",
            &[5, 5, 5, 5, 5, 5],
            &[0, 0, 0, 0],
            &[0, 0, 0, 0, 0, 0, 0, 0, 0, 0, 0, 0],
        ),
        Named::new(
            "a rough image, slopes of all kinds",
            &[4, 7, 2, 9, 3, 5],
            &[2, -3, 1, -1],
            &[5, -2, -4, 6, 0, 3, -6, 0, 1, 0, 0, 0],
        ),
    ];
    show(rt, six, absolute, &proposals)
}
