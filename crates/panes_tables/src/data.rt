// Loads the data files, and tells what they list.
use anyhow::anyhow;
use properties::{Category, GraphemeClass, LineClass, Named, Property, Width, value_of};
use ranges::{Range, Table};
use std::alloc::{AllocError, Global};
use std::{fmt, fs};
use ucd::read_file;

// How many ranges a table has room for; the files of Unicode 15.0.0 list some 4,000 at most.
const ROOM: usize = 8192;

// Records for a table of each property.
#[derive(Drop)]
pub(crate) struct Records {
    line: Vec<Range<LineClass>>,
    grapheme: Vec<Range<GraphemeClass>>,
    category: Vec<Range<Category>>,
    width: Vec<Range<Width>>,
    pictograph: Vec<Range<bool>>,
}

// Records of which none holds a range.
fn free_records<V: Copy>(heap: Global, value: V) -> Result<Vec<Range<V>>, AllocError> {
    let record = Range {
        first: 0,
        last: 0,
        value,
    };
    vec![in heap; record; ROOM]
}

impl Records {
    pub(crate) fn new(heap: Global) -> Result<Records, AllocError> {
        Ok(Records {
            line: free_records(heap, LineClass::Xx)?,
            grapheme: free_records(heap, GraphemeClass::Other)?,
            category: free_records(heap, Category::Cn)?,
            width: free_records(heap, Width::N)?,
            pictograph: free_records(heap, false)?,
        })
    }

    // Loads the five files of the folder. The faults of all are told before the first ends it.
    pub(crate) fn load(&mut self, rt: &HostRuntime, folder: &str) -> anyhow::Result<Tables<'_>> {
        let line = load_file(rt, folder, "LineBreak.txt", self.line.as_mut_slice());
        let grapheme = load_file(
            rt,
            folder,
            "GraphemeBreakProperty.txt",
            self.grapheme.as_mut_slice(),
        );
        let category = load_file(
            rt,
            folder,
            "DerivedGeneralCategory.txt",
            self.category.as_mut_slice(),
        );
        let width = load_file(rt, folder, "EastAsianWidth.txt", self.width.as_mut_slice());
        let pictograph = load_file(rt, folder, "emoji-data.txt", self.pictograph.as_mut_slice());
        Ok(Tables {
            line: line?,
            grapheme: grapheme?,
            category: category?,
            width: width?,
            pictograph: pictograph?,
        })
    }
}

// A data file that was read into a table.
#[derive(Drop)]
struct Loaded<'a, P> {
    name: &'static str,
    lines: usize,
    table: Table<'a, P>,
}

impl<'a, P> fmt::Display for Loaded<'a, P> {
    fn fmt<W: fmt::Write>(&self, f: &mut fmt::Formatter<W>) -> fmt::Result {
        let name = self.name;
        let lines = self.lines;
        let ranges = self.table.len();
        let covered = self.table.covered();
        write!(
            f,
            "{name}: {lines} lines, {ranges} ranges, {covered} code points"
        )
    }
}

// Reads a data file into a table in these records. A fault of the file is told before the error comes.
fn load_file<'a, P: Property>(
    rt: &HostRuntime,
    folder: &str,
    name: &'static str,
    records: &'a mut [Range<P>],
) -> anyhow::Result<Loaded<'a, P>> {
    let path = format!(in rt.alloc(); "{folder}/{name}")?;
    let bytes = fs::read(rt, path.as_str()).map_err(|error| anyhow!("{path}: {error}"))?;
    match read_file(bytes.as_slice(), records) {
        Ok((table, lines)) => Ok(Loaded { name, lines, table }),
        Err(fault) => {
            eprintln!(rt; "panes_tables: {path}: {fault}")?;
            Err(anyhow!("nothing was done, since a data file is refused"))
        }
    }
}

// A table for each property.
#[derive(Drop)]
pub(crate) struct Tables<'a> {
    line: Loaded<'a, LineClass>,
    grapheme: Loaded<'a, GraphemeClass>,
    category: Loaded<'a, Category>,
    width: Loaded<'a, Width>,
    pictograph: Loaded<'a, bool>,
}

impl<'a> Tables<'a> {
    pub(crate) fn tell(&self, rt: &HostRuntime) -> anyhow::Result<()> {
        println!(rt; "{}", self.line)?;
        println!(rt; "{}", self.grapheme)?;
        println!(rt; "{}", self.category)?;
        println!(rt; "{}", self.width)?;
        println!(rt; "{}", self.pictograph)?;
        Ok(())
    }

    pub(crate) fn tell_code_point(&self, rt: &HostRuntime, c: u32) -> anyhow::Result<()> {
        let line = value_of(&self.line.table, c).name();
        let grapheme = value_of(&self.grapheme.table, c).name();
        let category = value_of(&self.category.table, c).name();
        let width = value_of(&self.width.table, c).name();
        let pictograph = if value_of(&self.pictograph.table, c) {
            "yes"
        } else {
            "no"
        };
        println!(rt;
            "U+{c:04X}: line {line}, grapheme {grapheme}, category {category}, width {width}, pictograph {pictograph}"
        )?;
        Ok(())
    }
}
