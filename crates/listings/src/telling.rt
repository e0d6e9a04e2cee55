// A readable listing of a body: each command takes the texts of its parts off a stack and puts its own there.
use crate::command::{command, is_part, number, parts, text, width};
use script::Command;
use std::alloc::{AllocError, Global};
use std::fmt::Write;

// The script that a sheet's written bytes spell. Names are n0, n1 and so on, and calls c0, c1 and so on.
pub fn listing(heap: Global, bytes: &[u8]) -> anyhow::Result<String> {
    let mut texts = Vec::new(heap);
    let mut rest = bytes;
    for _ in 0..bytes.len() {
        let Some((first, operands)) = rest.split_first() else {
            break;
        };
        perform(heap, &mut texts, command(*first, operands))?;
        rest = operands.get(width(*first)..).unwrap_or(&[]);
    }
    Ok(texts.pop().unwrap_or(String::new(heap)))
}

fn perform(heap: Global, texts: &mut Vec<String>, command: Command) -> anyhow::Result<()> {
    let parts = texts.split_off(texts.len().saturating_sub(parts(command)))?;
    let mut telling = Telling {
        heap,
        told: String::new(heap),
        number: number(command),
        part: "",
        rest: &parts,
    };
    for mark in text(command).chars() {
        telling.tell(mark)?;
    }
    texts.push(telling.told)?;
    Ok(())
}

// A command's text as far as it is told, the part that was told last, and the parts that are left.
#[derive(Drop)]
struct Telling<'a> {
    heap: Global,
    told: String,
    number: Option<i32>,
    part: &'a str,
    rest: &'a [String],
}

impl<'a> Telling<'a> {
    fn tell(&mut self, mark: char) -> Result<(), AllocError> {
        if is_part(mark) {
            self.go_on();
        }
        match mark {
            '#' => self.tell_number(),
            '$' => self.told.push_str(self.part),
            '~' => self.told.push_str(bare(self.part)),
            '_' => tell_under(&mut self.told, self.part, is_block(self.part)),
            '^' => tell_under(
                &mut self.told,
                self.part,
                is_block(self.part) || self.part.starts_with("if "),
            ),
            '<' => self.told.push(if is_block(self.part) { ' ' } else { '\n' }),
            '*' => self.told.push_str(&self.rest.join(self.heap, ", ")?),
            '%' => self.told.push_str(&self.rest.join(self.heap, "\n")?),
            '+' => tell_lines(&mut self.told, &self.rest.join(self.heap, "\n")?),
            '@' => tell_braced(&mut self.told, &self.rest.join(self.heap, "\n")?),
            _ => self.told.push(mark),
        }
    }

    // Goes on to the next part. One that is missing is told as nothing.
    fn go_on(&mut self) {
        match self.rest.split_first() {
            Some((part, rest)) => {
                self.part = part;
                self.rest = rest;
            }
            None => self.part = "",
        }
    }

    fn tell_number(&mut self) -> Result<(), AllocError> {
        match self.number {
            Some(number) => write!(self.told, "{number}"),
            None => Ok(()),
        }
    }
}

// An expression without the parentheses around the whole of it: a text that begins with one ends with its partner.
fn bare(text: &str) -> &str {
    text.strip_prefix('(')
        .and_then(|rest| rest.strip_suffix(')'))
        .unwrap_or(text)
}

fn is_block(stmt: &str) -> bool {
    stmt.starts_with('{')
}

// A statement on the line of its head, or indented below.
fn tell_under(told: &mut String, stmt: &str, on_line: bool) -> Result<(), AllocError> {
    if on_line {
        told.push(' ')?;
        told.push_str(stmt)
    } else {
        tell_lines(told, stmt)
    }
}

fn tell_braced(told: &mut String, lines: &str) -> Result<(), AllocError> {
    if lines.is_empty() {
        return told.push_str("{}");
    }
    told.push('{')?;
    tell_lines(told, lines)?;
    told.push_str("\n}")
}

// The lines of a text, each below the one before and moved to the right.
fn tell_lines(told: &mut String, text: &str) -> Result<(), AllocError> {
    for line in text.lines() {
        told.push_str("\n    ")?;
        told.push_str(line)?;
    }
    Ok(())
}
