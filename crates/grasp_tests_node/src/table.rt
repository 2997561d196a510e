//! Running a table.
use crate::fault::{LineFault, TableFault};
use crate::repeat::{Block, Turn, expanded};
use crate::row::Row;
use std::alloc::Global;

/// What a table came to.
#[derive(Drop)]
pub struct Report {
    /// What differs, a line each.
    pub differences: Vec<String>,
    /// How many rows there are.
    pub rows: u64,
    /// How many of them differ.
    pub wrong: u64,
}

/// A table that is being run.
#[derive(Drop)]
struct Table {
    alloc: Global,
    row: Option<Row>,
    block: Option<Block>,
    report: Report,
}

/// Runs the rows of a table.
pub fn run_table(alloc: Global, text: &str) -> Result<Report, TableFault> {
    let mut table = Table {
        alloc,
        row: None,
        block: None,
        report: Report {
            differences: Vec::new(alloc),
            rows: 0,
            wrong: 0,
        },
    };
    let mut number: u64 = 0;
    for line in text.lines() {
        number = number.saturating_add(1);
        if let Err(fault) = table.take_line(number, line) {
            return Err(fault.in_line(number));
        }
    }
    if table.block.is_some() {
        return Err(TableFault::BadLine { line: number });
    }
    table.end_row();
    Ok(table.report)
}

impl Table {
    /// Takes a line of the table.
    fn take_line(&mut self, number: u64, line: &str) -> Result<(), LineFault> {
        if line.is_empty() || line.starts_with('#') {
            return Ok(());
        }
        match self.block.take() {
            Some(block) => self.take_in_block(number, line, block),
            None => self.take_outside(number, line),
        }
    }

    /// Takes a line outside blocks, which may begin one.
    fn take_outside(&mut self, number: u64, line: &str) -> Result<(), LineFault> {
        match line.strip_prefix("for ") {
            Some(head) => {
                self.block = Some(Block::of(self.alloc, head)?);
                Ok(())
            }
            None => self.run_line(number, line, &Turn { index: 0, word: "" }),
        }
    }

    /// Takes a line in a block, or the line that ends it.
    fn take_in_block(
        &mut self,
        number: u64,
        line: &str,
        mut block: Block,
    ) -> Result<(), LineFault> {
        if line == "end" {
            return self.run_block(&block);
        }
        if line.starts_with("for ") {
            return Err(LineFault::Bad);
        }
        block.add(self.alloc, number, line)?;
        self.block = Some(block);
        Ok(())
    }

    /// Runs the lines of a block as often as it says.
    fn run_block(&mut self, block: &Block) -> Result<(), LineFault> {
        for index in 0..block.count {
            self.run_turn(block, &block.turn(index))?;
        }
        Ok(())
    }

    /// Runs the lines of a block once.
    fn run_turn(&mut self, block: &Block, turn: &Turn<'_>) -> Result<(), LineFault> {
        for line in block.lines.as_slice() {
            self.run_line(line.number, line.text.as_str(), turn)?;
        }
        Ok(())
    }

    /// Runs a line.
    fn run_line(&mut self, number: u64, line: &str, turn: &Turn<'_>) -> Result<(), LineFault> {
        let text = expanded(self.alloc, line, turn)?;
        if let Some(name) = text.as_str().strip_prefix("row ") {
            self.end_row();
            self.row = Some(Row::of(self.alloc, name)?);
            return Ok(());
        }
        let Some(row) = &mut self.row else {
            return Err(LineFault::Bad);
        };
        if let Some(difference) = row.take_line(number, text.as_str())? {
            self.report.differences.push(difference)?;
        }
        Ok(())
    }

    /// Counts the row that is at its end.
    fn end_row(&mut self) {
        if let Some(row) = self.row.take() {
            self.report.rows = self.report.rows.saturating_add(1);
            if row.is_wrong {
                self.report.wrong = self.report.wrong.saturating_add(1);
            }
        }
    }
}
