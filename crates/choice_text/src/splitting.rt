//! A text taken apart, line by line.

ghost use Rattle.std.specs.Prelude.{◌≡◌, ◌<◌, ◌≤◌, ◌+◌, suc, map, length, IfOk, OnOk};
ghost use Rattle.choice_text.specs.Lines.{whole_lines, Elsewhere};
ghost use Rattle.choice_text.specs.Splitting.{with_choice, with_said, with_head, with_fault};
ghost use Rattle.choice_text.specs.Splitting.{with_line, with_lines, splitting, line_before};
ghost use Rattle.choice_text.specs.Seen.{code_of, split_of, parts_of, line_by};

use crate::cutting::cut_line;
use crate::parts::{Fault, Refusal, Said, Split};
use crate::place::{Choice, Line, Place};
use std::alloc::{AllocError, Global};

/// The parts so far.
#[derive(Drop)]
pub struct Parts {
    pub plain: Vec<u8>,
    pub said: Vec<Vec<Option<usize>>>,
    pub fault: Option<Fault>,
}

/// Adds a choice to those of a certificate.
fn put_choice(said: &mut Vec<Option<usize>>, choice: Choice) -> Result<(), AllocError>
    ensures { OnOk result (said.new.items ≡
        with_choice said.old.items choice.clause choice.hypothesis) }
{
    let missing = choice.clause.saturating_sub(said.len() + 1);
    'each: for index in 0..missing {
        said.push(None)?;
    }
    said.push(Some(choice.hypothesis))?;
    Ok(())
}

/// Adds a choice to those of the last certificate.
#[tactic(auto, using(crate::proofs::Choosing::with_said_last, std::proofs::lemmas::Grind::common_steps))]
fn put_said(said: &mut Vec<Vec<Option<usize>>>, choice: Choice) -> Result<(), AllocError>
    ensures { OnOk result (map (λ said. said.items) said.new.items ≡
        with_said (map (λ said. said.items) said.old.items) choice.clause choice.hypothesis) }
{
    let Some(mut last) = said.pop() else {
        return Ok(());
    };
    put_choice(&mut last, choice)?;
    said.push(last)?;
    Ok(())
}

impl Parts {
    /// Adds a certificate, of which nothing is said yet, and the line that is its head.
    fn begin(&mut self, alloc: Global, head: &[u8]) -> Result<(), AllocError>
        ensures { OnOk result (parts_of self.new ≡ with_head (parts_of self.old) head.now) }
    {
        self.plain.extend_from_slice(head)?;
        self.said.push(Vec::new(alloc))?;
        Ok(())
    }

    /// Adds a fault, unless there is one.
    fn refuse(&mut self, line: u64, refusal: Refusal)
        ensures { parts_of self.new ≡ with_fault (parts_of self.old) line (code_of refusal) }
    {
        if self.fault.is_none() {
            self.fault = Some(Fault { line, refusal });
        }
    }

    /// Adds the line of that number, which is this.
    fn add(&mut self, alloc: Global, number: u64, text: &[u8], line: Line) -> Result<(), AllocError>
        ensures { OnOk result (parts_of self.new ≡
            with_line (parts_of self.old) number text.now (line_by line)) }
    {
        match line {
            Line::ChoosingHead => self.begin(alloc, b"cert 2\n"),
            Line::Head => self.begin(alloc, text),
            Line::Says(choice) => put_said(&mut self.said, choice),
            Line::Faulty(refusal) => {
                self.refuse(number, refusal);
                Ok(())
            }
            Line::Node | Line::Clause | Line::Other => self.plain.extend_from_slice(text),
        }
    }
}

/// Adds the lines of a text.
fn add_lines(alloc: Global, parts: &mut Parts, bytes: &[u8]) -> Result<(), AllocError>
    ensures { OnOk result (parts_of parts.new ≡
        with_lines (parts_of parts.old) Elsewhere 1 (whole_lines bytes.now)) }
{
    let mut place = Place::Elsewhere;
    let mut number = 1;
    let mut rest = bytes;
    while !rest.is_empty() {
        let (text, later) = cut_line(rest);
        let line = place.line(text);
        parts.add(alloc, number, text, line)?;
        place = place.behind(line);
        number += 1;
        rest = later;
    }
    Ok(())
}

/// A text of a report of any format, taken apart: the same without the choices of certificates of format 3, whose heads become those of
/// format 2; what each certificate says of its clauses; and the first choice that can't be read, if any.
#[tactic(auto, using(crate::proofs::Passing::all_lines))]
pub fn split(alloc: Global, bytes: &[u8]) -> Result<Split, AllocError>
    ensures { IfOk result (λ split. split_of split ≡ splitting bytes.now) }
{
    let mut parts = Parts {
        plain: Vec::new(alloc),
        said: Vec::new(alloc),
        fault: None,
    };
    add_lines(alloc, &mut parts, bytes)?;
    Ok(Split {
        plain: parts.plain,
        said: Said { items: parts.said },
        fault: parts.fault,
    })
}

/// The line of a text, from 1, that is that line of the text without choices, from 1; the one behind all where it is none of these.
pub fn line_before(bytes: &[u8], line: u64) -> u64
    ensures { result ≡ line_before bytes.now line }
{
    let mut place = Place::Elsewhere;
    let mut number = 1;
    let mut wanted = line;
    let mut rest = bytes;
    while !rest.is_empty() {
        let (text, later) = cut_line(rest);
        let line = place.line(text);
        let left = line.lines_left();
        if wanted <= left {
            return number;
        }
        wanted -= left;
        place = place.behind(line);
        number += 1;
        rest = later;
    }
    number
}
