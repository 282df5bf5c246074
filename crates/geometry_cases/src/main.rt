// Prints turns, centres, positions and free spots of small cases, to be compared with what tools/geometry_cases.py wrote.
#![tactic(auto)]

mod spots;
mod tables;

use spots::{print_largest, print_spots};
use tables::{print_centres, print_film_columns, print_positions, print_turns};

fn run(rt: &HostRuntime) -> anyhow::Result<()> {
    print_turns(rt)?;
    print_centres(rt)?;
    print_positions(rt)?;
    print_film_columns(rt)?;
    print_spots(rt)?;
    print_largest(rt)
}

fn main(rt: HostRuntime) -> anyhow::Result<()> {
    run(&rt)
}
