// crosscheck: draws rules and logs, and compares what watches and summaries report with what the evaluator does, after
// each letter. It prints the counts that are asked for, or the true number where one is not reached; with the argument
// `counts` it prints all true numbers.
#![tactic(auto)]

mod compare;
mod counts;
mod draw;
mod letters;
mod run;
mod texts;

use counts::Counts;
use draw::Draw;
use letter::bits::Bits;
use letter::measured::Measured;
use run::{Plan, Run};
use scale::margin::Margin;
use scale::verdict::Verdict;
use std::collections::BTreeSet;
use std::fmt::Display;
use std::{env, fmt, io};

// Where the draws begin.
const SEED: u64 = 20_240_229;

const PLANS: [Plan; 8] = [
    Plan {
        cells: 1,
        rules: 100,
        letters: 12,
    },
    Plan {
        cells: 2,
        rules: 225,
        letters: 12,
    },
    Plan {
        cells: 3,
        rules: 225,
        letters: 10,
    },
    Plan {
        cells: 4,
        rules: 200,
        letters: 8,
    },
    Plan {
        cells: 5,
        rules: 125,
        letters: 6,
    },
    Plan {
        cells: 6,
        rules: 60,
        letters: 5,
    },
    Plan {
        cells: 7,
        rules: 40,
        letters: 4,
    },
    Plan {
        cells: 8,
        rules: 25,
        letters: 3,
    },
];

// How many rules and prefixes are asked for.
const LEAST_RULES: u64 = 2000;

const LEAST_PREFIXES: u64 = 18_000;

// A count as it is printed: the least that is asked for where it is reached and the true number is not wanted.
#[derive(Clone, Copy)]
struct Shown {
    count: u64,
    least: u64,
    exact: bool,
}

impl Display for Shown {
    fn fmt<W: fmt::Write>(&self, f: &mut fmt::Formatter<W>) -> fmt::Result {
        if self.exact || self.count < self.least {
            write!(f, "{}", self.count)
        } else {
            write!(f, "at least {}", self.least)
        }
    }
}

// Prints all counts.
fn show_counts(rt: &impl Print, exact: bool, rules: u64, counts: Counts) -> io::Result<()> {
    let shown = |count, least| Shown {
        count,
        least,
        exact,
    };
    println!(rt; "rules: {}", shown(rules, LEAST_RULES))?;
    if exact {
        println!(rt; "texts passed over: {}", counts.passed)?;
    }
    println!(rt;
        "prefixes judged by the evaluator: {}",
        shown(counts.prefixes, LEAST_PREFIXES)
    )?;
    let tallies = [
        ("watch against evaluator", counts.watch),
        ("summary against evaluator", counts.whole),
        ("joined summary against evaluator", counts.joined),
        ("joined summary against summary", counts.equal),
        (
            "watch with applied summary against evaluator",
            counts.applied,
        ),
    ];
    for (label, tally) in tallies {
        println!(rt;
            "{label}: compared {}, differed {}",
            shown(tally.made, LEAST_PREFIXES),
            tally.differed
        )?;
    }
    Ok(())
}

// Compares the rules of a plan for both kinds of letters, and prints how many there were.
fn compare_plan(rt: &impl Print, exact: bool, run: &mut Run, plan: Plan) -> io::Result<u64> {
    let mut seen = BTreeSet::new(run.heap);
    let bits = run.compare_rules::<Verdict, Bits>(plan, &mut seen)?;
    let measured = run.compare_rules::<Margin, Measured>(plan, &mut seen)?;
    let shown = |count| Shown {
        count,
        least: u64::from(plan.rules),
        exact,
    };
    println!(rt;
        "rules of {} cells: for bit letters {}, for measured letters {}",
        plan.cells,
        shown(bits),
        shown(measured)
    )?;
    Ok(bits.saturating_add(measured))
}

fn main(rt: HostRuntime) -> io::Result<()> {
    let exact = env::args(&rt)?.any(|word| word.as_str() == "counts");
    let mut run = Run {
        heap: rt.alloc(),
        draw: Draw { state: SEED },
        counts: Counts::default(),
    };
    let mut rules = 0u64;
    for plan in PLANS {
        rules = rules.saturating_add(compare_plan(&rt, exact, &mut run, plan)?);
    }
    show_counts(&rt, exact, rules, run.counts)
}
