// Records of choices in a lent table: read, written, filled from the start, made zero.
#![tactic(auto)]

ghost use Rattle.std.specs.Prelude.{◌≡◌, ◌++◌, ◌<◌, ◌≤◌, length, set, get_or, drop, replicate};
ghost use Rattle.records.specs.Rows.{no_record, row_of, records_in};

// What is written down of a choice: its first new variable, its length, and how many input clauses went into it.
#[repr(C)]
#[derive(Clone, Copy)]
pub struct ChoiceRecord {
    pub first: u32,
    pub length: u32,
    pub clauses: u32,
}

// The record of zeros.
pub const NO_RECORD: ChoiceRecord = ChoiceRecord {
    first: 0,
    length: 0,
    clauses: 0,
};

// The record at a place.
pub fn record_at(table: &[ChoiceRecord], at: usize) -> ChoiceRecord
    requires { at < length table.now }
    ensures { result ≡ get_or table.now at no_record }
{
    table[at]
}

// Writes a record at a place.
pub fn put_record(table: &mut [ChoiceRecord], at: usize, r: ChoiceRecord)
    requires { at < length table.old }
    ensures { table.new ≡ set table.old at r }
{
    table[at] = r;
}

// The record of a row; past the last row, the record of zeros.
pub fn row_at(rows: &[ChoiceRecord], at: usize) -> ChoiceRecord
    ensures { result ≡ row_of rows.now at }
{
    match rows.get(at) {
        Some(r) => *r,
        None => NO_RECORD,
    }
}

// Fills the start of a table with the records of the first n rows; past the last row, with records of zeros.
pub fn fill(table: &mut [ChoiceRecord], rows: &[ChoiceRecord], n: usize)
    requires { n ≤ length table.old }
    ensures { table.new ≡ records_in rows.now 0 n ++ drop n table.old }
{
    for i in 0..n {
        put_record(table, i, row_at(rows, i));
    }
}

// Makes every record that of zeros.
pub fn clear(table: &mut [ChoiceRecord])
    ensures { table.new ≡ replicate (length table.old) no_record }
{
    table.fill(NO_RECORD);
}
