// Reading and adding at every limit of the lent slices: 9, 10, 5, 12 for one cell, 9, 5, 8, 12 for the whole domain, 9, 11, 5,
// 12 for adding, in their order, and what each leaves. Before each call scratch, output and table hold nines. Then an image of
// 152 bytes that claims a huge domain.
use multi::{calls, image};
use std::io;
use tools::{Spaced, fill, first, keys, lent, zeros};
use words::bytes;
use words::refusals::number_in;

// ---- the images

// Party 0's key of a posting, at the front of as many bytes as five cells in two buckets take.
fn image_of(domain: u64, buckets: u64, points: &[u64], values: &[u64]) -> [u8; 264] {
    let mut words = [0; 8];
    fill(&mut words, 5);
    let mut key0 = [0; 264];
    let mut key1 = [0; 264];
    let _ = calls::generate_keys(
        domain,
        buckets,
        keys(7),
        points,
        values,
        &words,
        &mut [0; 17],
        &mut key0,
        &mut key1,
    );
    key0
}

// Ways to lend the image of 10 at cell 1 and 20 at cell 4 among five cells, in two buckets of 8 and 7 entries.
#[derive(Clone, Copy)]
enum Image {
    // Without its last byte.
    Short,
    // Under other hash keys, so that no record has its bucket's size.
    Strange,
    // As it was made.
    Whole,
}

impl Image {
    fn of(self, key: &mut [u8; 264]) -> &[u8] {
        match self {
            Image::Short => &key[..263],
            Image::Strange => {
                key[24] = 0;
                key
            }
            Image::Whole => key,
        }
    }
}

// The image of 5 at the only cell, in one bucket: 152 bytes. It claims so many cells.
fn claiming(domain: u64) -> [u8; 264] {
    let mut key = image_of(1, 1, &[0], &[5]);
    let _ = bytes::put_u64(&mut key, 8, domain);
    key
}

// ---- one call

#[derive(Clone, Copy)]
enum Call {
    // One cell, at an index.
    Cell(u64),
    // The whole domain.
    Domain,
    // Adding to a table.
    Add,
}

impl Call {
    // The number that it answers, and of one cell the share, 0 on refusal.
    fn answer(self, key: &[u8], scratch: &mut [u64], cells: &mut [u64]) -> (u64, Option<u64>) {
        match self {
            Call::Cell(index) => {
                let share = calls::evaluate_at(key, index, scratch);
                (number_in(&share), Some(share.unwrap_or(0)))
            }
            Call::Domain => {
                let read = calls::evaluate_domain(key, scratch, cells);
                (number_in(&read), None)
            }
            Call::Add => {
                let added = calls::add_to(key, scratch, cells);
                (number_in(&added), None)
            }
        }
    }
}

// ---- the limits

// A call with so many elements of scratch and so many of the output or the table: at most 36 and 6.
fn read(
    rt: &impl Print,
    name: &str,
    image: Image,
    call: Call,
    scratch: usize,
    room: usize,
) -> io::Result<()> {
    let mut key = image_of(5, 2, &[1, 4], &[10, 20]);
    let mut nines = [9; 36];
    let mut cells = [9; 6];
    let (number, share) = call.answer(
        image.of(&mut key),
        lent(&mut nines, scratch),
        lent(&mut cells, room),
    );
    print!(rt; "{name}  number {number}")?;
    if let Some(share) = share {
        print!(rt; ", share {share:016x}")?;
    }
    print!(rt; "; zeros {} of 36", zeros(&nines))?;
    match call {
        Call::Cell(_) => println!(rt),
        Call::Domain => println!(rt; "; output{}", Spaced(&cells)),
        Call::Add => println!(rt; "; table{}", Spaced(&cells)),
    }
}

// For each call its limits, and then the order: everything is wrong, and one thing after the other is mended.
fn limits(rt: &impl Print) -> io::Result<()> {
    use Call::{Add, Cell, Domain};
    use Image::{Short, Strange, Whole};
    for (name, image, call, scratch, room) in [
        ("cell: index 0, scratch 2", Whole, Cell(0), 2, 0),
        ("cell: index 4, scratch 2", Whole, Cell(4), 2, 0),
        ("cell: index 5, scratch 2", Whole, Cell(5), 2, 0),
        ("cell: index 4, scratch 1", Whole, Cell(4), 1, 0),
        ("cell: index 4, scratch 3", Whole, Cell(4), 3, 0),
        ("cell: all wrong", Short, Cell(5), 0, 0),
        ("cell: length mended", Strange, Cell(5), 0, 0),
        ("cell: index mended", Strange, Cell(4), 0, 0),
        ("cell: scratch mended", Strange, Cell(4), 3, 0),
        ("cell: all mended", Whole, Cell(4), 3, 0),
        ("domain: scratch 33, room 5", Whole, Domain, 33, 5),
        ("domain: scratch 34, room 4", Whole, Domain, 34, 4),
        ("domain: scratch 34, room 5", Whole, Domain, 34, 5),
        ("domain: scratch 35, room 6", Whole, Domain, 35, 6),
        ("domain: all wrong", Short, Domain, 0, 0),
        ("domain: length mended", Strange, Domain, 0, 0),
        ("domain: scratch mended", Strange, Domain, 35, 0),
        ("domain: room mended", Strange, Domain, 35, 6),
        ("domain: all mended", Whole, Domain, 35, 6),
        ("add: table 4, scratch 34", Whole, Add, 34, 4),
        ("add: table 6, scratch 34", Whole, Add, 34, 6),
        ("add: table 5, scratch 33", Whole, Add, 33, 5),
        ("add: table 5, scratch 34", Whole, Add, 34, 5),
        ("add: table 5, scratch 35", Whole, Add, 35, 5),
        ("add: all wrong", Short, Add, 0, 0),
        ("add: length mended", Strange, Add, 0, 0),
        ("add: table mended", Strange, Add, 0, 5),
        ("add: scratch mended", Strange, Add, 35, 5),
        ("add: all mended", Whole, Add, 35, 5),
    ] {
        read(rt, name, image, call, scratch, room)?;
    }
    Ok(())
}

// ---- 152 bytes that claim a huge domain: each call is refused before a cell is hashed

// A call with so many elements of scratch, at most 36, and six of the output or the table; how many elements of scratch, and of
// the other, are 0 behind it.
fn huge(
    rt: &impl Print,
    name: &str,
    domain: u64,
    call: Call,
    scratch: usize,
) -> io::Result<(usize, usize)> {
    let key = claiming(domain);
    let mut nines = [9; 36];
    let mut cells = [9; 6];
    let (number, _) = call.answer(first(&key, 152), lent(&mut nines, scratch), &mut cells);
    println!(rt; "152 bytes, D 2^32{name}  number {number}")?;
    Ok((zeros(&nines), zeros(&cells)))
}

fn huge_domains(rt: &impl Print) -> io::Result<()> {
    const D: u64 = 4294967295;
    let (a, _) = huge(rt, " - 1: cell 2^32 - 1", D, Call::Cell(4294967295), 36)?;
    let (b, _) = huge(
        rt,
        " - 1: cell 2^32 - 2, no scratch",
        D,
        Call::Cell(4294967294),
        0,
    )?;
    println!(rt; "152 bytes, D 2^32 - 1: zeros {}", a.saturating_add(b))?;
    let (a, c) = huge(rt, " - 1: whole domain", D, Call::Domain, 36)?;
    let (b, d) = huge(rt, " - 1: table of 6 cells", D, Call::Add, 36)?;
    let number = number_in(&image::record_number(first(&claiming(D), 152), 0));
    println!(rt; "152 bytes, D 2^32 - 1: record 0  number {number}")?;
    println!(rt;
        "152 bytes, D 2^32 - 1: zeros {} and {}",
        a.saturating_add(b),
        c.saturating_add(d)
    )?;
    huge(rt, ": cell 0", 4294967296, Call::Cell(0), 36)?;
    Ok(())
}

pub(crate) fn all(rt: &impl Print) -> io::Result<()> {
    limits(rt)?;
    huge_domains(rt)
}
