// Worked examples of the lowest floors: page lists, the page medium, numbers, doubles, boxes and VFG bytes. Each line of what it prints was worked out by hand.
#![tactic(auto)]

use bits::Vfg;
use boxes::bounds::Bounds;
use boxes::doubles::store_double;
use boxes::edges::Edges;
use layout::version::Version;
use media::block::Block;
use media::medium::Medium;
use pages::page_list::PageList;
use pages::pages::Pages;
use refusal::Refusal;
use std::io;

// A line that tells whether a call was taken, or its refusal.
fn tell<T: Drop>(rt: &HostRuntime, what: &str, answer: Result<T, Refusal>) -> io::Result<()> {
    match answer {
        Ok(_) => println!(rt; "{what}: taken"),
        Err(refusal) => println!(rt; "{what}: {refusal}"),
    }
}

// A line of bytes.
fn show(rt: &HostRuntime, what: &str, bytes: &[u8]) -> io::Result<()> {
    print!(rt; "{what}:")?;
    for b in bytes {
        print!(rt; " {b}")?;
    }
    println!(rt; "")
}

// Whether the bounds make a box.
fn boxed(minx: f64, maxx: f64, miny: f64, maxy: f64) -> Result<Bounds, Refusal> {
    Bounds::new(Edges {
        minx,
        maxx,
        miny,
        maxy,
    })
}

fn page_lists(rt: &HostRuntime) -> io::Result<()> {
    tell(rt, "page list 127", PageList::new(&[127]))?;
    tell(rt, "page list 128", PageList::new(&[128]))?;
    tell(rt, "page list 5 5", PageList::new(&[5, 5]))?;
    tell(rt, "page list 5 5 128", PageList::new(&[5, 5, 128]))?;
    tell(rt, "page list of none", PageList::new(&[]))
}

// Four bytes written across the border of two pages, and read again.
fn across(rt: &HostRuntime, list: PageList) -> io::Result<()> {
    let mut store = [[0u8; 512]; 128];
    let mut medium = Pages::new(&mut store, list);
    let size = medium.size();
    println!(rt; "pages 3 and 1: {size} bytes")?;
    tell(
        rt,
        "write of 1 2 3 4 at 510",
        medium.write(510, &[1, 2, 3, 4]),
    )?;
    tell(
        rt,
        "write of four at 1021",
        medium.write(1021, &[1, 2, 3, 4]),
    )?;
    tell(rt, "write of none at 1024", medium.write(1024, &[]))?;
    tell(rt, "write of none at 1025", medium.write(1025, &[]))?;
    let mut back = [9u8; 6];
    tell(rt, "read of six at 509", medium.read(509, &mut back))?;
    show(rt, "read", &back)?;
    tell(rt, "read of six at 1019", medium.read(1019, &mut back))?;
    show(rt, "page 3 ends with", &store[3][510..512])?;
    show(rt, "page 1 begins with", &store[1][0..2])
}

fn blocks(rt: &HostRuntime) -> io::Result<()> {
    let mut bytes = [0u8; 4];
    let mut block = Block::new(&mut bytes);
    tell(
        rt,
        "block of four, write of two at 2",
        block.write(2, &[7, 8]),
    )?;
    tell(
        rt,
        "block of four, write of two at 3",
        block.write(3, &[1, 1]),
    )?;
    tell(
        rt,
        "block of four, write of one at the largest place",
        block.write(18446744073709551615, &[1]),
    )?;
    show(rt, "block", &bytes)
}

fn numbers(rt: &HostRuntime) -> io::Result<()> {
    let mut bytes = [0u8; 8];
    tell(
        rt,
        "1.1 stores 4294967295",
        Version::V11.store(&mut bytes, 0, 4294967295),
    )?;
    tell(
        rt,
        "1.1 stores 4294967296",
        Version::V11.store(&mut bytes, 0, 4294967296),
    )?;
    tell(
        rt,
        "2.0 stores at 1 of 8 bytes",
        Version::V20.store(&mut bytes, 1, 0),
    )?;
    show(rt, "bytes", &bytes)?;
    tell(rt, "the double -0.0", store_double(&mut bytes, 0, -0.0))?;
    show(rt, "bytes", &bytes)?;
    tell(
        rt,
        "an infinite double",
        store_double(&mut bytes, 0, 1.0 / 0.0),
    )?;
    tell(
        rt,
        "a double at 1 of 8 bytes",
        store_double(&mut bytes, 1, 1.0),
    )
}

fn main(rt: HostRuntime) -> io::Result<()> {
    page_lists(&rt)?;
    if let Ok(list) = PageList::new(&[3, 1]) {
        across(&rt, list)?;
    }
    blocks(&rt)?;
    numbers(&rt)?;
    tell(&rt, "box 0 0 -0.0 0", boxed(0.0, 0.0, -0.0, 0.0))?;
    tell(&rt, "box 1 0 0 1", boxed(1.0, 0.0, 0.0, 1.0))?;
    tell(
        &rt,
        "box 0 1 0 not a number",
        boxed(0.0, 1.0, 0.0, 0.0 / 0.0),
    )?;
    let vfg = Vfg::new(false, true, true);
    println!(rt; "VFG of a turned end of a ring: {}", vfg.byte)
}
