//! `check`: whether claims hold of a record, and which entry breaches one.

ghost use Rattle.std.specs.Prelude.{◌≡◌, IfOk, IsOkUnless, List, map, string_bytes};
ghost use Rattle.tp_record.specs.declared.entries.Entry.{Entry as Told};
ghost use Rattle.tp_audit.specs.Audited as audited;
ghost use Rattle.tp_story.specs.Counted as counted;
ghost use Rattle.tp_story_claims.specs.Checks as checks;

use crate::claims::Claim;
use crate::fates::{Fates, Named, named_in};
use crate::quantities::Seen;
use std::alloc::{AllocError, Global};
use tp_audit::auditor::Auditor;
use tp_audit_plain::summary::Flaw;
use tp_record::entries::{Did, Entry};
use tp_story::spans::Span;
use tp_story::stats::Stats;
use tp_story_questions::accounts::{Account, Said};
use tp_story_words::forms::{Form, Quoted};
use tp_types::configs::Config;
use tp_types::refusals::PoolError;
use tp_types::states::RunState;

/// A claim, and the entry that breached it so that no later one mends it.
#[derive(Clone, Copy, Debug, PartialEq, Eq)]
pub struct Watched {
    /// The claim.
    pub claim: Claim,
    /// The number of the entry, from 1.
    pub lost: Option<u64>,
}

impl Watched {
    /// After an entry with this number, when the record tells these numbers.
    fn after(self, seen: &Seen) -> Watched
        ensures { result ≡ checks.watched_after seen.now self }
    {
        if self.lost.is_none() && self.claim.is_lost(seen) {
            Watched {
                lost: Some(seen.entries),
                ..self
            }
        } else {
            self
        }
    }
}

/// A record whose numbers are watched beside claims.
#[derive(Drop)]
pub struct Checking {
    /// What is counted of the record.
    pub stats: Stats,
    /// How many tasks have each fate, so far.
    pub fates: Fates,
    /// The longest wait so far, in entries.
    pub wait: u64,
    /// The longest run so far, in entries.
    pub busy: u64,
    /// The claims, in the order in which they were made.
    pub claims: Vec<Watched>,
}

/// The longer of a time and of the span behind so many others, if there is one.
fn longer(longest: u64, spans: &[Span], had: usize) -> u64
    ensures { result ≡ checks.longer longest spans.now had }
{
    match spans.get(had) {
        Some(span) => longest.max(span.entries),
        None => longest,
    }
}

/// Notes which claims are breached when the record tells these numbers.
fn watch(claims: &mut Vec<Watched>, seen: &Seen)
    ensures { claims.new.items ≡ map (checks.watched_after seen.now) claims.old.items }
{
    for i in 0..claims.len() {
        claims[i] = claims[i].after(seen);
    }
}

/// What a record tells, where so many tasks have each fate, and the longest wait and run are so long.
fn seen_in(stats: &Stats, fates: Fates, wait: u64, busy: u64) -> Seen
    ensures { (h : List Told) → counted.Counts stats.now h → result ≡ checks.seen_at (audited.settings stats.now.judge) h fates wait busy }
{
    let tables = stats.tables();
    Seen {
        submitted: tables.tasks.len() as u64,
        fates,
        queued: stats.longest().tasks as u64,
        live: tables.largest as u64,
        wait,
        busy,
        entries: u64::from(tables.steps),
        rank: tables.rank,
    }
}

/// Whether an entry gives fates to tasks that it does not name: it hands back the tasks of the queue.
fn hands_back(did: Did) -> bool
    ensures { result ≡ checks.hands_back did }
{
    match did {
        Did::Stop(drained) => drained > 0,
        _ => false,
    }
}

/// How many tasks have each fate, by the model's counters. Want of memory is NoMemory (4).
fn fates_of(stats: &Stats) -> Result<Fates, Flaw>
    ensures fates { IfOk result (λ f. (h : List Told) → counted.Counts stats.now h → f ≡ checks.fates_at (audited.settings stats.now.judge) h) }
    ensures refused { IsOkUnless result Flaw.NoMemory }
{
    match stats.auditor().finish() {
        Ok(summary) => Ok(Fates::of(&summary.counts)),
        Err(flaw) => Err(flaw),
    }
}

/// How many tasks have each fate after an entry that did so, where the tasks that it names had these fates before it, and so many had
/// each. Want of memory is NoMemory (4).
fn fates_after(stats: &Stats, did: Did, before: Named, fates: Fates) -> Result<Fates, Flaw>
    ensures fates { IfOk result (λ f. (h : List Told) → counted.Counts stats.now h → f ≡ checks.fates_after (audited.settings stats.now.judge) h did before fates) }
    ensures refused { IsOkUnless result Flaw.NoMemory }
{
    if hands_back(did) {
        return fates_of(stats);
    }
    let after = named_in(stats.tables(), did);
    Ok(fates.after(before, after))
}

/// The left side of a claim, in words: how great its sum is, or the run state.
fn left_side(alloc: Global, claim: &Claim, seen: &Seen) -> Result<String, AllocError> {
    match claim {
        Claim::Sum(terms, _, _) => {
            let sum = terms.sum(seen);
            format!(in alloc; "{sum}")
        }
        Claim::Is(_) | Claim::IsNot(_) => {
            let name = RunState::from_rank(seen.rank.min(4)).name();
            String::from_str(alloc, name)
        }
    }
}

/// The line of a claim that is lost at an entry, in words.
fn breach_at(alloc: Global, number: u64, claim: &str, left: &str) -> Result<String, AllocError>
    ensures { IfOk result (λ line. string_bytes line ≡ checks.breach_line number claim.now left.now) }
{
    format!(in alloc; "breach at entry {number}: {claim}; at the end it is {left}\n")
}

/// The line of a claim, in words.
fn in_words(
    alloc: Global,
    watched: &Watched,
    holds: bool,
    left: &str,
) -> Result<String, AllocError> {
    let claim = watched.claim;
    let claim = format!(in alloc; "{claim}")?;
    let claim = claim.as_str();
    match (holds, watched.lost) {
        (true, _) => format!(in alloc; "holds: {claim}, with {left}\n"),
        (false, Some(number)) => breach_at(alloc, number, claim, left),
        (false, None) => format!(in alloc; "breach: {claim}; at the end it is {left}\n"),
    }
}

/// The line of a claim, as JSON.
fn as_json(
    alloc: Global,
    watched: &Watched,
    holds: bool,
    left: &str,
) -> Result<String, AllocError> {
    let claim = watched.claim;
    let claim = format!(in alloc; "{claim}")?;
    let claim = Quoted(claim.as_str());
    let left = Quoted(left);
    match watched.lost {
        Some(number) => {
            format!(in alloc;
                "{{\"claim\":{claim},\"holds\":{holds},\"is\":{left},\"entry\":{number}}}\n"
            )
        }
        None => format!(in alloc; "{{\"claim\":{claim},\"holds\":{holds},\"is\":{left}}}\n"),
    }
}

/// The lines of claims, each beside the numbers at the record's end.
fn lines_of(
    alloc: Global,
    claims: &[Watched],
    seen: &Seen,
    form: Form,
) -> Result<Vec<u8>, AllocError> {
    let mut text = Vec::new(alloc);
    for watched in claims {
        let holds = watched.claim.holds(seen);
        let left = left_side(alloc, &watched.claim, seen)?;
        let line = match form {
            Form::Words => in_words(alloc, watched, holds, left.as_str())?,
            Form::Json => as_json(alloc, watched, holds, left.as_str())?,
        };
        text.extend_from_slice(line.as_bytes())?;
    }
    Ok(text)
}

/// Whether all claims hold of these numbers.
fn all_hold(claims: &[Watched], seen: &Seen) -> bool
    ensures { result ≡ checks.all_hold claims.now seen.now }
{
    for watched in claims {
        if !watched.claim.holds(seen) {
            return false;
        }
    }
    true
}

impl Account for Checking {
    type Question = Vec<Claim>;

    ghost settings = { λ k. audited.settings k.stats.judge };

    ghost is_asked = { λ q k. checks.IsAsked q.items k };

    ghost tells = { λ k h. checks.IsChecked k h };

    ghost says = { λ k h form out holds. checks.Says k h holds };

    fn begin(alloc: Global, config: &Config, question: &Vec<Claim>) -> Result<Checking, Flaw> {
        let mut claims = Vec::new(alloc);
        for claim in question {
            let watched = Watched {
                claim: *claim,
                lost: None,
            };
            if claims.push(watched).is_err() {
                return Err(Flaw::NoMemory);
            }
        }
        match Stats::new(alloc, config) {
            Ok(stats) => Ok(Checking {
                stats,
                fates: Fates::none(),
                wait: 0,
                busy: 0,
                claims,
            }),
            Err(flaw) => Err(flaw),
        }
    }

    fn tell(&mut self, entry: &Entry) -> Result<(), Flaw> {
        let before = named_in(self.stats.tables(), entry.did);
        let waits = self.stats.waits().len();
        let runs = self.stats.runs().len();
        match self.stats.tell(entry) {
            Ok(()) => {}
            Err(flaw) => return Err(flaw),
        }
        self.fates = match fates_after(&self.stats, entry.did, before, self.fates) {
            Ok(fates) => fates,
            Err(flaw) => return Err(flaw),
        };
        self.wait = longer(self.wait, self.stats.waits(), waits);
        self.busy = longer(self.busy, self.stats.runs(), runs);
        let seen = seen_in(&self.stats, self.fates, self.wait, self.busy);
        watch(&mut self.claims, &seen);
        Ok(())
    }

    fn auditor(&self) -> &Auditor {
        self.stats.auditor()
    }

    fn say(&self, alloc: Global, form: Form) -> Result<Said, PoolError> {
        let Ok(fates) = fates_of(&self.stats) else {
            return Err(PoolError::NoMemory);
        };
        let seen = seen_in(&self.stats, fates, self.wait, self.busy);
        let text = lines_of(alloc, &self.claims, &seen, form)?;
        Ok(Said {
            text,
            holds: all_hold(&self.claims, &seen),
            complaint: None,
        })
    }
}
