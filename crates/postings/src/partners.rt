// The partners: each adds the images of its mail to a table of its own, by steps of its own, and says what each step gave.
use crate::desk::{Mail, Posted, SPOILED, postings};
use std::{fmt, io};
use tools::{fill, fold, lent, zeros};
use words::refusals::number_in;

// ---- the steps

#[derive(Clone, Copy)]
enum Kind {
    Single,
    Multi,
}

// An image, as a single or as a multi one. Where it is cut, so many of its bytes, and else all; where scratch is short, so many
// elements of it, and else as many as any image needs.
#[derive(Clone, Copy)]
pub(crate) struct Step {
    image: usize,
    kind: Kind,
    bytes: Option<usize>,
    scratch: Option<usize>,
}

impl Kind {
    fn of(self, image: usize) -> Step {
        Step {
            image,
            kind: self,
            bytes: None,
            scratch: None,
        }
    }
}

impl Step {
    fn cut(self, bytes: usize) -> Step {
        Step {
            bytes: Some(bytes),
            ..self
        }
    }

    fn within(self, scratch: usize) -> Step {
        Step {
            scratch: Some(scratch),
            ..self
        }
    }
}

// Postings 0 to 5. Between them: a part of image 0, a single image as a multi one, an image over 41 cells, the spoiled image, and
// scratch an element short.
pub(crate) fn first() -> [Step; 11] {
    use Kind::{Multi, Single};
    [
        Multi.of(0),
        Multi.of(0).cut(100),
        Single.of(1),
        Multi.of(1),
        Multi.of(2),
        Multi.of(6),
        Single.of(3),
        Multi.of(8),
        Multi.of(4).within(287),
        Multi.of(4),
        Multi.of(5),
    ]
}

// Postings 5, 3, 0, 4, 2, 1. Between them: a multi image as a single one, scratch an element short, an image over 39 cells, the
// spoiled image, and no bytes at all.
pub(crate) fn second() -> [Step; 11] {
    use Kind::{Multi, Single};
    [
        Multi.of(5),
        Single.of(5),
        Single.of(3),
        Single.of(1).within(79),
        Multi.of(0),
        Single.of(7),
        Multi.of(4),
        Multi.of(8),
        Multi.of(2),
        Multi.of(0).cut(0),
        Single.of(1),
    ]
}

// What a step is called: how it differs from the posting's own kind and from the table, and what it lacks.
impl fmt::Display for Step {
    fn fmt<W: fmt::Write>(&self, f: &mut fmt::Formatter<W>) -> fmt::Result {
        if self.bytes == Some(0) {
            return f.write_str("nothing");
        }
        write!(f, "{}", self.image)?;
        if let Some(posting) = postings().get(self.image) {
            match (posting.posted, self.kind) {
                (Posted::Single { .. }, Kind::Multi) => f.write_str(", as multi")?,
                (Posted::Multi { .. }, Kind::Single) => f.write_str(", as single")?,
                _ => {}
            }
            if posting.domain != 40 {
                write!(f, ", {} cells", posting.domain)?;
            }
        }
        if self.bytes.is_some() {
            f.write_str(", cut")?;
        }
        if self.image == SPOILED {
            f.write_str(", spoiled")?;
        }
        if let Some(scratch) = self.scratch {
            write!(f, ", scratch {scratch}")?;
        }
        Ok(())
    }
}

// ---- a partner

// What each step answered, a fold of the table behind it, and how many elements of scratch are 0.
pub(crate) fn partner(
    rt: &impl Print,
    name: u64,
    steps: &[Step],
    mail: &Mail,
    table: &mut [u64; 40],
) -> io::Result<()> {
    for step in steps {
        let key = mail.image(step.image, step.bytes);
        let mut room = [0; 300];
        fill(&mut room, 3);
        let scratch = match step.scratch {
            Some(n) => lent(&mut room, n),
            None => &mut room,
        };
        let added = match step.kind {
            Kind::Single => single::calls::add_to(key, scratch, table),
            Kind::Multi => multi::calls::add_to(key, scratch, table),
        };
        print!(rt; "partner {name}: {step}  number {}", number_in(&added))?;
        println!(rt; ", table {:016x}, zeros {}", fold(table), zeros(&room))?;
    }
    Ok(())
}
