//! What the callers of a pool do: by the lines of its plan, or by chance as its submitters and its controller.

use crate::calls::{A_WHILE, Call, Line};
use crate::luck::Luck;
use crate::plans::{Lines, Plan, SUBMITTERS};
use std::alloc::{AllocError, Global};
use tp_life::prelude::*;
use tp_types::tasks::Kind;

// A call by chance, one of so many, at this moment in ticks. The first ones meddle with a task.
fn any(luck: &mut Luck, among: u32, now: &mut u64) -> Call {
    match luck.below(among) {
        0 => Call::Remove(luck.below(30)),
        1 => Call::Cancel(luck.below(30), luck.once_in(2)),
        2 => Call::Take(luck.below(2)),
        3 => Call::Purge,
        4 => Call::Set(Setting::Maximum(1 + luck.below(8))),
        5 => Call::Set(Setting::Keep(u64::from(luck.below(4)))),
        6 => Call::Set(Setting::CoreTimeout(luck.once_in(2))),
        7 => Call::Core(luck.below(9)),
        8 => Call::StartOne(false),
        9 => Call::StartAll,
        10 => Call::Look,
        _ => {
            *now = now.saturating_add(u64::from(luck.below(5)));
            Call::Set(Setting::Tick(*now))
        }
    }
}

fn pauses(luck: &mut Luck) -> Line {
    Line::Pauses(luck.below(1_000_000))
}

impl Plan {
    /// What the caller of this number does.
    pub fn does(&self, alloc: Global, who: u32) -> Result<Vec<Line>, AllocError> {
        let mut lines = Vec::new(alloc);
        match self.chance {
            Some(_) if who < SUBMITTERS => self.submits(who, &mut lines)?,
            Some(calls) => self.controls(calls, &mut lines)?,
            None if who == 0 => {
                self.plays(self.first, &mut lines)?;
                self.plays(self.way, &mut lines)?;
                self.plays(self.end, &mut lines)?;
            }
            None => self.plays(self.second, &mut lines)?,
        }
        Ok(lines)
    }

    // It submits the jobs of the submitter of this number, and meddles with some task now and then.
    fn submits(&self, who: u32, lines: &mut Vec<Line>) -> Result<(), AllocError> {
        let mut luck = Luck::new(self.seed, 100 + u64::from(who));
        let mut now = 0;
        for number in (0..self.jobs).filter(|number| *number % SUBMITTERS == who) {
            let kind = match luck.below(4) {
                0 => Kind::Future,
                1 => Kind::Group(luck.below(2)),
                _ => Kind::Plain,
            };
            lines.push(pauses(&mut luck))?;
            lines.push(Line::Submits(kind, number, self.work(number)))?;
            if luck.once_in(2) {
                lines.push(Line::Tries(any(&mut luck, 3, &mut now)))?;
            }
        }
        Ok(())
    }

    // It makes so many calls, and ends the pool: it shuts it down, or stops it, or does one after the other, or leaves all to who ends the life.
    fn controls(&self, calls: u32, lines: &mut Vec<Line>) -> Result<(), AllocError> {
        let mut luck = Luck::new(self.seed, 99);
        let mut now = 0;
        for _ in 0..calls {
            lines.push(pauses(&mut luck))?;
            lines.push(Line::Tries(any(&mut luck, 14, &mut now)))?;
        }
        let way = luck.below(4);
        if way % 2 == 1 {
            lines.push(Line::Makes(Call::ShutDown))?;
            lines.push(pauses(&mut luck))?;
            lines.push(Line::Tries(Call::StartAll))?;
        }
        if 2 <= way {
            lines.push(Line::Makes(Call::Stop))?;
            lines.push(Line::Makes(Call::Await(A_WHILE)))?;
        }
        Ok(())
    }

    fn plays(&self, written: Lines, lines: &mut Vec<Line>) -> Result<(), AllocError> {
        for line in written {
            match *line {
                Line::SubmitsMany(from, many, work) => {
                    for number in from..self.jobs.min(from.saturating_add(many)) {
                        lines.push(Line::Submits(Kind::Future, number, work))?;
                    }
                }
                line => lines.push(line)?,
            }
        }
        Ok(())
    }
}
