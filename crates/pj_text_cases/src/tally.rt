//! How many rows were tried, and how many came out otherwise.

use std::alloc::Global;

/// The counts of rows, and the runtime by which the wrong ones are told.
#[derive(Drop)]
pub struct Tally<'a> {
    pub rt: &'a HostRuntime,
    pub rows: usize,
    pub wrong: usize,
    before: usize,
}

impl<'a> Tally<'a> {
    pub fn new(rt: &'a HostRuntime) -> Tally<'a> {
        Tally {
            rt,
            rows: 0,
            wrong: 0,
            before: 0,
        }
    }

    pub fn alloc(&self) -> Global {
        self.rt.alloc()
    }

    /// Counts a row, and tells what came where it is wrong.
    pub fn note(&mut self, right: bool, row: &str, came: &str) -> anyhow::Result<()> {
        self.rows = self.rows.saturating_add(1);
        if !right {
            let rt = self.rt;
            self.wrong = self.wrong.saturating_add(1);
            println!(rt; "{row}: came: {came:?}")?;
        }
        Ok(())
    }

    /// Counts a row, for which this should come.
    pub fn expect(&mut self, row: &str, wanted: &str, came: &str) -> anyhow::Result<()> {
        self.note(wanted == came, row, came)
    }

    /// Counts a row, for which this number should come.
    pub fn number(&mut self, row: &str, wanted: u32, came: u32) -> anyhow::Result<()> {
        let came_text = format!(in self.alloc(); "{came}, and not {wanted}")?;
        self.note(wanted == came, row, came_text.as_str())
    }

    /// Tells how many rows there were since the last call.
    pub fn end(&mut self, what: &str) -> anyhow::Result<()> {
        let rt = self.rt;
        let rows = self.rows.saturating_sub(self.before);
        println!(rt; "{what}: {rows} rows")?;
        self.before = self.rows;
        Ok(())
    }
}
