//! Lists the pages of a catalogue: a small caller of `btr_prog` that shows its whole use. What a listing is stands in
//! specs/Listing.antt as a program over wants, with the types of this crate; the contracts say that what the calls put and
//! answer follows a run of that program, whatever fails.
#![tactic(auto)]

mod blocks;
mod list;
mod shelf;
mod sink;
mod tray;

use list::list;
use shelf::Shelf;
use tray::Tray;

fn main(rt: HostRuntime) -> std::io::Result<()> {
    let alloc = rt.alloc();
    let mut shelf = Shelf::new(alloc);
    shelf.add(&[1, 2, 3, 2])?;
    shelf.add(b"first page")?;
    shelf.add(b"second page")?;
    shelf.add(b"")?;
    for catalogue in [0, 9] {
        let mut tray = Tray::new(alloc);
        match list(&mut shelf, &mut tray, catalogue) {
            Ok(last) => println!(rt;
                "catalogue {catalogue}: {} rows, last page {last}",
                tray.len()
            )?,
            Err(stop) => println!(rt; "catalogue {catalogue}: {} rows, {stop:?}", tray.len())?,
        }
    }
    Ok(())
}
