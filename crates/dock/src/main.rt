// One task from beginning to end: last year's film of a hall is unpacked, and packed as this year's.
#![tactic(auto)]

mod hall;
mod statement;
mod stores;
mod tally;

use anyhow::Context;
use hall::{HALL, LAST_YEAR, LAST_YEARS_FILM, MARKS, THIS_YEARS_FILM, this_years_edits};
use packing::{Rehearsal, map_claims, pack, rehearse, unpack};
use picture::{Mark, Rows, Store, Tiles};
use rwpk::load;
use sheet::Sheet;
use statement::{
    print_answer, print_count, print_map, print_mark, print_moved, print_sheet, weighted_sum,
};
use stores::{numbered, pile_of_hall};
use tally::{tally_packed, tally_projected};

// Last year's film, unpacked into the hall's picture.
fn unpack_last_year(rt: &HostRuntime, hall: &mut Rows<u16>) -> anyhow::Result<()> {
    let mut sheet = Sheet::new();
    load(&mut sheet, &LAST_YEAR).context("last year's box is refused")?;
    print_sheet(rt, "last year", &sheet)?;
    let mut run = numbered::<192>(100);
    let film = Rows::of_sides(&mut run, LAST_YEARS_FILM)?;
    print_moved(rt, "unpack", unpack(&sheet, &film, hall))?;
    println!(rt; "hall: {}", weighted_sum(hall))?;
    Ok(())
}

// What this year's sheet says of itself: its answers, where the marks went, and who has which packed place.
fn tell_sheet(rt: &HostRuntime, done: &Rehearsal) -> anyhow::Result<()> {
    for answer in done.answers.iter() {
        print_answer(rt, *answer)?;
    }
    print_sheet(rt, "this year", &done.sheet)?;
    for mark in MARKS {
        print_mark(rt, &done.sheet, mark)?;
    }
    let mut run = [Mark::Nobody; 480];
    let mut map = Rows::of_sides(&mut run, THIS_YEARS_FILM)?;
    print_moved(rt, "claim map", map_claims(&done.sheet, &mut map))?;
    print_map(rt, &map)?;
    Ok(())
}

// The other way round: a packed picture that no pack made, unpacked, and packed again.
fn back_and_there(rt: &HostRuntime, sheet: &Sheet) -> anyhow::Result<()> {
    let mut film_run = numbered::<480>(20000);
    let film = Rows::of_sides(&mut film_run, THIS_YEARS_FILM)?;
    let mut hall_run = [0u16; 312];
    let mut hall = Rows::of_sides(&mut hall_run, HALL)?;
    print_moved(rt, "unpack", unpack(sheet, &film, &mut hall))?;
    let mut again_run = [0u16; 480];
    let mut again = Rows::of_sides(&mut again_run, THIS_YEARS_FILM)?;
    print_moved(rt, "pack again", pack(sheet, &hall, &mut again))?;
    let tally = tally_packed(sheet, &film, &again);
    print_count(rt, "in coarse rows that serve", tally.promised)?;
    print_count(rt, "in other bodies", tally.others)?;
    Ok(())
}

fn run(rt: &HostRuntime) -> anyhow::Result<()> {
    let mut hall_run = [0u16; 312];
    let mut hall = Rows::of_sides(&mut hall_run, HALL)?;
    unpack_last_year(rt, &mut hall)?;

    let edits = this_years_edits(&LAST_YEAR[0..60]);
    let mut film_run = numbered::<512>(5000);
    let mut film = Tiles::of_sides(&mut film_run, THIS_YEARS_FILM)?;
    let mut restored_run = numbered::<420>(9000);
    let mut restored = pile_of_hall(&mut restored_run)?;
    let done = rehearse(rt.alloc(), &edits, &hall, &mut film, &mut restored)?;
    tell_sheet(rt, &done)?;
    print_moved(rt, "pack and unpack", done.moved)?;
    println!(rt; "film: {}", weighted_sum(&film))?;
    println!(rt; "restored: {}", weighted_sum(&restored))?;
    let tally = tally_projected(&done.sheet, &hall, &restored);
    print_count(rt, "served by fine rows", tally.promised)?;
    print_count(rt, "served by others", tally.others)?;
    back_and_there(rt, &done.sheet)
}

fn main(rt: HostRuntime) -> anyhow::Result<()> {
    run(&rt)
}
