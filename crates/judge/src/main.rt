// judge: reads a rule and then bit letters from standard input, and prints the report after each letter. With the argument
// `cells` it first prints the cells of the rule.
#![tactic(auto)]

ghost use Rattle.std.specs.Prelude.{◌≡◌, ◌≤◌, length};

mod cell_words;

use cell_words::show_cells;
use lines::answer::refusal;
use lines::judging::answer_line;
use lines::line::{Line, take_bytes};
use lines::log::Log;
use rule::{Rule, read_rule};
use std::alloc::Global;
use std::io::{Read, Stdin};
use std::{env, io};

// The standard input, or none once it has ended, and what is read ahead of it: the bytes `from..to` of a place of fixed size, so
// that reading wants no memory.
#[derive(Drop)]
struct Input {
    stdin: Option<Stdin>,
    place: [u8; 32768],
    from: usize,
    to: usize,
    ghost ordered: { from ≤ to },
    ghost within: { to ≤ 32768 },
    ghost long: { length place ≡ 32768 },
}

impl Input {
    // The next line; none at the input's end, where an empty tail is no line. Not as in `logwatch`, which writes out its answers
    // before it waits, and reads through a buffer on the heap.
    fn next_line(&mut self) -> io::Result<Option<Line>> {
        let Some(mut stdin) = self.stdin else {
            return Ok(None);
        };
        let mut line = Line::empty();
        // a count, since a loop must be seen to end: the line's end comes before it
        for _ in 0..u64::MAX {
            if self.from == self.to {
                let count = stdin.read(&mut self.place)?;
                if count == 0 {
                    break;
                }
                self.from = 0;
                self.to = count;
            }
            match take_bytes(&mut line, &self.place[self.from..self.to]) {
                Some(taken) => {
                    self.from += taken;
                    return Ok(Some(line));
                }
                None => self.from = self.to,
            }
        }
        self.stdin = None;
        if line.bytes().is_empty() {
            Ok(None)
        } else {
            Ok(Some(line))
        }
    }
}

// Answers the letters' lines, until the input ends or the log is full.
fn judge_letters(rt: &impl Print, heap: Global, rule: &Rule, input: &mut Input) -> io::Result<()> {
    let mut log = Log::empty();
    // a count, since a loop must be seen to end: the input's end comes before it
    for _ in 0..u64::MAX {
        let Some(line) = input.next_line()? else {
            break;
        };
        let Some(text) = answer_line(heap, rule, &mut log, line.bytes())? else {
            return println!(rt; "the log is longer than 64 letters");
        };
        rt.print(text)?;
    }
    Ok(())
}

fn main(rt: HostRuntime) -> io::Result<()> {
    let heap = rt.alloc();
    let cells = env::args(&rt)?.any(|word| word.as_str() == "cells");
    let mut input = Input {
        stdin: Some(rt.stdin()),
        place: [0; 32768],
        from: 0,
        to: 0,
    };
    let line = input.next_line()?.unwrap_or(Line::empty());
    match read_rule(heap, line.bytes()) {
        Ok(rule) => {
            if cells {
                show_cells(&rt, heap, line.bytes(), &rule)?;
            }
            judge_letters(&rt, heap, &rule, &mut input)
        }
        Err(fault) => rt.print(refusal(heap, fault)?),
    }
}
