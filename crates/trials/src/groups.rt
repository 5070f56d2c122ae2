// The file of cases, line by line: its groups, the checksums over their cases, and what is printed of them.
use crate::case_lines::{file_line, list_line, pair_line};
use crate::made_case::run_made;
use crate::shown::Shown;
use cases::{Draws, Family, Line};
use std::fmt;
use telling::{Checksum, Tally};

// A run through the file: which texts are printed; the group's title, if one has begun, and what was said of its cases; all cases,
// and the checksum over the groups'. The tally stands beside the Option: each line of a case needs one, before a first title too.
#[derive(Drop)]
struct Run<'a, R: Print> {
    shown: Option<Shown>,
    title: Option<&'a [u8]>,
    tally: Tally<'a, R>,
    all: u64,
    sums: Checksum,
}

impl<'a, R: Print + Drop> Run<'a, R> {
    fn new(rt: &'a R, shown: Option<Shown>) -> Self {
        Run {
            shown,
            title: None,
            tally: Tally::new(rt, false),
            all: 0,
            sums: Checksum::default(),
        }
    }

    // A line of a title, a count and a checksum is printed.
    fn show(&self, title: &[u8], count: u64, sum: Checksum) {
        let _ = self.tally.rt.write_all(title);
        let _ = println!(self.tally.rt; ",{count},{sum}");
    }

    // The group ends, if there is one.
    fn end_group(&mut self) {
        if let Some(title) = self.title {
            self.show(title, self.tally.cases, self.tally.sum);
            self.sums.feed_sum(self.tally.sum);
        }
    }

    // A group begins with a line `= TITLE`; that is printed where texts are.
    fn begin_group(&mut self, line: &'a [u8]) {
        self.end_group();
        let loud = self.shown.is_some();
        if loud {
            let _ = self.tally.rt.write_all(line);
            let _ = self.tally.rt.write_all(b"\n");
        }
        self.title = Some(line.get(2..).unwrap_or(&[]));
        self.tally = Tally::new(self.tally.rt, loud);
    }

    // A case is over.
    fn count(&mut self) {
        self.tally.cases = self.tally.cases.saturating_add(1);
        self.all = self.all.saturating_add(1);
        self.tally.loud = self.shown == Some(Shown::All);
    }

    // The cases of a line `make FAMILY COUNT SEED`.
    fn make_line(&mut self, line: Line) -> fmt::Result {
        let family = Family::from(line.field(1));
        let mut draws = Draws::from_seed(line.number(3));
        for i in 0..line.number(2) {
            run_made(&mut self.tally, family, i, &mut draws)?;
            self.count();
        }
        Ok(())
    }

    // A line, by its first letter.
    fn line(&mut self, text: &'a [u8]) -> fmt::Result {
        let line = Line::new(text);
        match text {
            [b'f', ..] => file_line(&mut self.tally, line)?,
            [b'l', ..] => list_line(&mut self.tally, line)?,
            [b'p', ..] => pair_line(&mut self.tally, line)?,
            [b'm', ..] => return self.make_line(line),
            [b'=', ..] => {
                self.begin_group(text);
                return Ok(());
            }
            _ => return Ok(()),
        }
        self.count();
        Ok(())
    }
}

// The whole file.
pub fn run_lines(rt: &(impl Print + Drop), file: &[u8], shown: Option<Shown>) -> fmt::Result {
    let mut run = Run::new(rt, shown);
    for line in file.split(|b| *b == b'\n') {
        run.line(line)?;
    }
    run.end_group();
    run.show(b"all", run.all, run.sums);
    Ok(())
}
