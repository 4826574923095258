// logwatch: reads a rule and then bit letters from standard input, a line each, and prints a line for each letter.
#![tactic(auto)]

use cells::laid_rule::LaidRule;
use lines::line::{Line, take_bytes};
use monitor::watch::Watch;
use scale::verdict::Verdict;
use std::alloc::Global;
use std::io;
use std::io::{BufRead, BufReader, BufWriter, Stdin, Stdout, Write};
use watch_lines::watching::{rule_line, watch_line};

// The standard streams: what is read ahead, or none once the input has ended, and what is still to be written.
#[derive(Drop)]
struct Streams {
    input: Option<BufReader<Stdin>>,
    output: BufWriter<Stdout>,
}

impl Streams {
    // The next line of the input; none at its end, where an empty tail is no line. Before it waits for input, all answers are
    // written.
    fn next_line(&mut self) -> io::Result<Option<Line>> {
        let Some(input) = &mut self.input else {
            return Ok(None);
        };
        let mut line = Line::empty();
        // a count, since a loop must be seen to end: the line's end comes before it
        for _ in 0..u64::MAX {
            if input.buffer().is_empty() {
                self.output.flush()?;
            }
            let bytes = input.fill_buf()?;
            let count = bytes.len();
            if count == 0 {
                break;
            }
            match take_bytes(&mut line, bytes) {
                Some(used) => {
                    input.consume(used);
                    return Ok(Some(line));
                }
                None => input.consume(count),
            }
        }
        self.input = None;
        if line.bytes().is_empty() {
            Ok(None)
        } else {
            Ok(Some(line))
        }
    }
}

// Lets a watch read the letters, a line each, to the input's end.
fn watch_log(heap: Global, rule: &LaidRule, streams: &mut Streams) -> io::Result<()> {
    let mut table = [Verdict::Broken; 256];
    let mut spare = [Verdict::Broken; 312];
    let mut watch = Watch::open(rule, &mut table);
    // a count, since a loop must be seen to end: the input's end comes before it
    for _ in 0..u64::MAX {
        let Some(line) = streams.next_line()? else {
            break;
        };
        let text = watch_line(heap, rule, &mut watch, &mut spare, line.bytes())?;
        streams.output.write_all(text.as_bytes())?;
    }
    Ok(())
}

fn main(rt: HostRuntime) -> io::Result<()> {
    let heap = rt.alloc();
    let mut streams = Streams {
        input: Some(BufReader::new(heap, rt.stdin())?),
        output: BufWriter::new(heap, rt.stdout())?,
    };
    let line = streams.next_line()?.unwrap_or(Line::empty());
    match rule_line(heap, line.bytes())? {
        Ok(rule) => watch_log(heap, &rule, &mut streams)?,
        Err(text) => streams.output.write_all(text.as_bytes())?,
    }
    streams.output.flush()
}
