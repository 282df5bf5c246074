// Piles of stores held by value: what they show, what puts and copies through them write, and the runs afterwards.
#![tactic(auto)]

mod piles;
mod printing;

use geometry::Place;
use picture::{Mark, Rows, Store, Tiles, Turned, Window, copy};
use piles::{counted, marks_pile, rows_pile, tiles_pile};
use printing::{print_answer, print_run, print_shown};
use refusal::Refusal;
use std::io;

// A pile whose sides or code are refused ends the run like a line that cannot be printed.
fn made<T: Drop>(pile: Result<T, Refusal>) -> io::Result<T> {
    pile.map_err(|refusal| io::Error::other(refusal.sentence()))
}

// Puts three samples into the rows' pile, one of them outside, and copies the pile into the tiles' pile.
fn write_through(
    rt: &HostRuntime,
    rows: &mut Window<Turned<Rows<u16>>>,
    tiles: &mut Window<Turned<Tiles<u16>>>,
) -> io::Result<()> {
    print_shown(rt, "rows pile", rows)?;
    print_answer(rt, "put 500 at (0, 0)", rows.put(Place { x: 0, y: 0 }, 500))?;
    print_answer(rt, "put 501 at (2, 1)", rows.put(Place { x: 2, y: 1 }, 501))?;
    print_answer(rt, "put 502 at (3, 1)", rows.put(Place { x: 3, y: 1 }, 502))?;
    print_shown(rt, "rows pile", rows)?;
    print_shown(rt, "tiles pile", tiles)?;
    print_answer(rt, "copy", copy(rows, tiles))?;
    print_shown(rt, "tiles pile", tiles)
}

// Turns the tiles another way, and tries to copy the rows' pile into that.
fn turn_again(
    rt: &HostRuntime,
    rows: &Window<Turned<Rows<u16>>>,
    turned: &mut Turned<Tiles<u16>>,
) -> io::Result<()> {
    print_answer(rt, "set code 4", turned.set_code(4))?;
    print_answer(rt, "set code 8", turned.set_code(8))?;
    print_answer(rt, "copy", copy(rows, turned))?;
    print_shown(rt, "turned tiles", turned)
}

// Two piles of numbers, over rows and over tiles, each owned here and given up before its run is printed.
fn samples(rt: &HostRuntime) -> io::Result<()> {
    let mut rows_run = counted::<26>();
    let mut tiles_run = counted::<260>();
    {
        let mut rows = made(rows_pile(&mut rows_run))?;
        let mut tiles = made(tiles_pile(&mut tiles_run))?;
        write_through(rt, &mut rows, &mut tiles)?;
        let mut turned = tiles.into_below();
        turn_again(rt, &rows, &mut turned)?;
        print_shown(rt, "tiles", &turned.into_below())?;
    }
    print_run(rt, "rows run", &rows_run)?;
    print_run(rt, "tiles run", &tiles_run)
}

// A pile of marks, with one put past its lower edge.
fn marks(rt: &HostRuntime) -> io::Result<()> {
    let mut run = [Mark::Nobody; 13];
    {
        let mut pile = made(marks_pile(&mut run))?;
        print_answer(
            rt,
            "put a body",
            pile.put(Place { x: 0, y: 1 }, Mark::Body(3)),
        )?;
        print_answer(
            rt,
            "put a band",
            pile.put(Place { x: 1, y: 0 }, Mark::Band(254)),
        )?;
        print_answer(
            rt,
            "put below",
            pile.put(Place { x: 0, y: 9 }, Mark::Body(4)),
        )?;
        print_shown(rt, "marks pile", &pile)?;
    }
    print_run(rt, "marks run", &run)
}

fn main(rt: HostRuntime) -> io::Result<()> {
    samples(&rt)?;
    marks(&rt)
}
