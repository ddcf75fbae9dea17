//! The commands of the script.
ghost use Rattle.std.specs.Prelude.{◌≡◌};
ghost use Rattle.runend_script.specs.Rows.{stored_ptype};

use crate::words::Words;
use column_base::{Nullability, PType};
use column_floats::{FloatFormat, key_type};
use column_words::{parse_count, parse_format, parse_ptype, parse_type, split_mark};

/// Separates the ends from the values of a `runs` line.
pub const SLASH: &str = "/";

/// Holds what a line of the script says.
#[derive(Clone, Copy)]
pub enum Line<'a> {
    /// Has no words.
    Blank,
    /// Has the words of this command.
    Command(ScriptCommand<'a>),
    /// Has words that are not a command.
    Bad,
}

/// Says what a line sets of the session.
#[derive(Clone, Copy)]
pub enum Setting {
    /// Registers every kernel.
    AllKernels,
    /// Registers no kernel.
    NoKernels,
    /// Sets the thresholds of the crate.
    CrateThresholds,
    /// Sets all thresholds to 0.
    ZeroThresholds,
}

/// Says in which order rows are put.
#[derive(Clone, Copy)]
pub enum RowOrder {
    /// Puts null first, then the numbers, none above the next.
    Rising,
    /// Begins with the last row.
    Reversed,
}

/// Says what the words of rows that are not null mean.
#[derive(Clone, Copy)]
pub enum RowWords {
    /// Has words of integers of this type.
    Integers(PType),
    /// Has words of floats of this format, which are stored by their keys.
    Floats(FloatFormat),
}

impl RowWords {
    /// Returns the type in which the rows are stored.
    pub fn stored_type(self) -> PType
        ensures { result ≡ stored_ptype self }
    {
        match self {
            RowWords::Integers(ptype) => ptype,
            RowWords::Floats(format) => key_type(format),
        }
    }
}

/// Names what a column of floats is asked for.
#[derive(Clone, Copy)]
pub enum FloatQuestion {
    /// Asks for all rows.
    Rows,
    /// Asks for the row of this number, counted from 0.
    At(usize),
    /// Asks for the sum.
    Sum,
    /// Asks for the least and the greatest number.
    MinMax,
}

/// Says what is done to the column.
#[derive(Clone, Copy)]
pub enum ScriptCommand<'a> {
    /// Replaces the column by a flat one of the listed rows. The words are not read yet.
    Col(RowWords, Nullability, Words<'a>),
    /// Replaces the column by one of the listed runs. The words are not read yet.
    Runs(RunsLine<'a>),
    /// Writes the column as runs.
    Encode,
    /// Writes the column row by row.
    Decode,
    /// Shows the form of the column.
    Show,
    /// Shows the rows of the column.
    Rows,
    /// Shows the row of this number, counted from 0.
    At(usize),
    /// Keeps the rows from the first number to before the second, counted from 0.
    Slice(usize, usize),
    /// Keeps the rows that a word of bits selects. The word is not read yet, and is empty where the line has none.
    Filter(&'a str),
    /// Takes the rows at the listed indices. The words are not read yet.
    Take(Words<'a>),
    /// Appends the listed rows, and writes the column as runs. The words are not read yet.
    Append(Words<'a>),
    /// Appends this number of rows of a value, and writes the column as runs. The word is not read yet.
    Repeat(&'a str, usize),
    /// Puts the rows in this order.
    Reorder(RowOrder),
    /// Shows the distinct rows, and how many rows are equal to each.
    Counts,
    /// Casts the rows to this type.
    Cast(PType, Nullability),
    /// Fills each null. The word is not read yet, since the column's type says what it may be.
    Fill(&'a str),
    /// Shows the sum of the rows.
    Sum,
    /// Shows the least and the greatest row.
    MinMax,
    /// Shows whether all rows are equal.
    Constant,
    /// Shows whether the rows are sorted.
    Sorted,
    /// Shows whether the rows are strictly sorted.
    Strict,
    /// Shows what the column is asked for as one of floats.
    Floats(FloatQuestion),
    /// Changes the session, and leaves the column as it is.
    Set(Setting),
    /// Shows the bytes of the column's metadata record.
    Meta,
    /// Shows the bytes of the column's message.
    Bytes,
    /// Shows what a metadata record of these bytes says. The words are not read yet.
    Read(Words<'a>),
}

/// Holds what a `runs` line says of the run column.
#[derive(Clone, Copy)]
pub struct RunsLine<'a> {
    /// Names the type of the numbers of the rows; `nullability` says whether null is among them.
    pub ptype: PType,
    pub nullability: Nullability,
    /// Names the type of the ends.
    pub ends_ptype: PType,
    /// Counts the rows of the runs that lie before the window.
    pub offset: usize,
    /// Counts the rows of the window.
    pub length: usize,
    /// Holds the words from the first end on. The ends stop before the first slash.
    pub ends: Words<'a>,
    /// Holds the words after that slash, the values.
    pub values: Words<'a>,
}

/// Returns what the line says. The words after the type of a `col` or `floats` line are not looked at, nor are the ends
/// and values of a `runs` line, the bits of a `filter` line, the indices of a `take` line, the rows of an `append`
/// line, the value of a `fill` or `repeat` line and the bytes of a `read` line.
pub fn read_line(line: &str) -> Line<'_> {
    let mut words = Words::new(line);
    let Some(name) = words.next() else {
        return Line::Blank;
    };
    match read_command(name, words) {
        Some(command) => Line::Command(command),
        None => Line::Bad,
    }
}

// The command of this name, where these words may follow it.
fn read_command<'a>(name: &str, words: Words<'a>) -> Option<ScriptCommand<'a>> {
    match read_name(name) {
        Some(command) => ended(words, command),
        None => read_longer(name, words),
    }
}

// The command that is only a name.
fn read_name<'a>(name: &str) -> Option<ScriptCommand<'a>> {
    match name {
        "encode" => Some(ScriptCommand::Encode),
        "decode" => Some(ScriptCommand::Decode),
        "show" => Some(ScriptCommand::Show),
        "rows" => Some(ScriptCommand::Rows),
        "sort" => Some(ScriptCommand::Reorder(RowOrder::Rising)),
        "reverse" => Some(ScriptCommand::Reorder(RowOrder::Reversed)),
        "counts" => Some(ScriptCommand::Counts),
        "sum" => Some(ScriptCommand::Sum),
        "minmax" => Some(ScriptCommand::MinMax),
        "constant" => Some(ScriptCommand::Constant),
        "sorted" => Some(ScriptCommand::Sorted),
        "strict" => Some(ScriptCommand::Strict),
        "meta" => Some(ScriptCommand::Meta),
        "bytes" => Some(ScriptCommand::Bytes),
        _ => None,
    }
}

// The command of this name that more words belong to.
fn read_longer<'a>(name: &str, words: Words<'a>) -> Option<ScriptCommand<'a>> {
    match name {
        "col" => read_col(words),
        "floats" => read_floats(words),
        "runs" => read_runs(words),
        "at" => read_at(words),
        "slice" => read_slice(words),
        "filter" => read_filter(words),
        "take" => Some(ScriptCommand::Take(words)),
        "append" => Some(ScriptCommand::Append(words)),
        "repeat" => read_repeat(words),
        "cast" => read_cast(words),
        "fill" => read_fill(words),
        "float" => read_question(words),
        "kernels" | "thresholds" => read_setting(name, words),
        "read" => Some(ScriptCommand::Read(words)),
        _ => None,
    }
}

// The command of a `col` line. The words after its type are its rows.
fn read_col(mut words: Words<'_>) -> Option<ScriptCommand<'_>> {
    let (ptype, nullability) = parse_type(words.next()?)?;
    Some(ScriptCommand::Col(RowWords::Integers(ptype), nullability, words))
}

// The command of a `floats` line. The words after its type are its rows.
fn read_floats(mut words: Words<'_>) -> Option<ScriptCommand<'_>> {
    let (name, nullability) = split_mark(words.next()?);
    let format = parse_format(name)?;
    Some(ScriptCommand::Col(RowWords::Floats(format), nullability, words))
}

// The command of a `float` line: what a column of floats is asked.
fn read_question(mut words: Words<'_>) -> Option<ScriptCommand<'_>> {
    let question = match words.next()? {
        "rows" => FloatQuestion::Rows,
        "at" => FloatQuestion::At(parse_count(words.next()?)?),
        "sum" => FloatQuestion::Sum,
        "minmax" => FloatQuestion::MinMax,
        _ => return None,
    };
    ended(words, ScriptCommand::Floats(question))
}

// The command of an `at` line: the index of a row.
fn read_at(mut words: Words<'_>) -> Option<ScriptCommand<'_>> {
    let index = parse_count(words.next()?)?;
    ended(words, ScriptCommand::At(index))
}

// The command of a `filter` line: a word of bits, or none.
fn read_filter(mut words: Words<'_>) -> Option<ScriptCommand<'_>> {
    let bits = words.next().unwrap_or("");
    ended(words, ScriptCommand::Filter(bits))
}

// The command of a `cast` line: a type.
fn read_cast(mut words: Words<'_>) -> Option<ScriptCommand<'_>> {
    let (ptype, nullability) = parse_type(words.next()?)?;
    ended(words, ScriptCommand::Cast(ptype, nullability))
}

// The command of a `fill` line: the word of a value.
fn read_fill(mut words: Words<'_>) -> Option<ScriptCommand<'_>> {
    let value = words.next()?;
    ended(words, ScriptCommand::Fill(value))
}

// The command of a `repeat` line: the word of a value, and how many rows of it there are.
fn read_repeat(mut words: Words<'_>) -> Option<ScriptCommand<'_>> {
    let value = words.next()?;
    let count = parse_count(words.next()?)?;
    ended(words, ScriptCommand::Repeat(value, count))
}

// The command of a `slice` line: where the rows start, and where they stop.
fn read_slice(mut words: Words<'_>) -> Option<ScriptCommand<'_>> {
    let start = parse_count(words.next()?)?;
    let stop = parse_count(words.next()?)?;
    ended(words, ScriptCommand::Slice(start, stop))
}

// The command of a `runs` line with these words. A slash parts the ends from the values.
fn read_runs(mut words: Words<'_>) -> Option<ScriptCommand<'_>> {
    let (ptype, nullability) = parse_type(words.next()?)?;
    let ends_ptype = parse_ptype(words.next()?)?;
    let offset = parse_count(words.next()?)?;
    let length = parse_count(words.next()?)?;
    let ends = words;
    let _slash = words.find(|word| *word == SLASH)?;
    Some(ScriptCommand::Runs(RunsLine {
        ptype,
        nullability,
        ends_ptype,
        offset,
        length,
        ends,
        values: words,
    }))
}

// The command of a `kernels` or `thresholds` line with these words.
fn read_setting<'a>(name: &str, mut words: Words<'a>) -> Option<ScriptCommand<'a>> {
    let setting = match (name, words.next()?) {
        ("kernels", "all") => Setting::AllKernels,
        ("kernels", "none") => Setting::NoKernels,
        ("thresholds", "crate") => Setting::CrateThresholds,
        ("thresholds", "zero") => Setting::ZeroThresholds,
        _ => return None,
    };
    ended(words, ScriptCommand::Set(setting))
}

// The command, where no word is left.
fn ended<'a>(mut words: Words<'a>, command: ScriptCommand<'a>) -> Option<ScriptCommand<'a>> {
    match words.next() {
        None => Some(command),
        Some(_) => None,
    }
}
